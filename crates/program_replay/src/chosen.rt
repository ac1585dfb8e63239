//! What is chosen of the slots of a node.

ghost use Rattle.std.specs.Prelude.{◌≡◌, slice_get};
ghost use Rattle.lus_meaning.specs.CodeValue.{value_view};
ghost use Rattle.lus_meaning.specs.TraceView.{entry_view};
ghost use Rattle.lus_meaning.specs.Value.{absent};
ghost use Rattle.trace_fits.specs.Views.{fitted_at};
ghost use Rattle.replay_laws.specs.Chosen.{choices_by, listed_by, shape_default};

use kind_num::Shape;
use lus_meaning::Value;
use slot_rows::Chosen;
use trace_fits::Fitted;

/// What a trace lists of the slots of its node, and 0 or false, by the shape of the slot, of what it doesn't list.
#[derive(Drop)]
pub(crate) struct Listed<'t> {
    pub(crate) shapes: Vec<Shape>,
    pub(crate) fitted: Fitted<'t>,
}

/// The shape of a slot.
fn shape_at(shapes: &[Shape], slot: usize) -> Option<Shape>
    ensures { result ≡ slice_get shapes.now slot }
{
    shapes.get(slot).copied()
}

/// 0 or false.
fn default_of(shape: Shape) -> Value
    ensures { value_view result ≡ shape_default shape absent }
{
    match shape {
        Shape::Flag => Value::Truth(false),
        Shape::Number => Value::Whole(0),
    }
}

/// What is listed, else 0 or false.
#[tactic(auto, using(crate::proofs::Defaults::listed_stays))]
fn or_default(shape: Shape, value: Option<Value>) -> Value
    ensures { value_view result ≡ shape_default shape (entry_view value) }
{
    match value {
        Some(value) => value,
        None => default_of(shape),
    }
}

/// The same of a slot; nothing where there is none.
fn listed_by(shape: Option<Shape>, value: Option<Value>) -> Option<Value>
    ensures { entry_view result ≡ listed_by shape (entry_view value) }
{
    match shape {
        Some(shape) => Some(or_default(shape, value)),
        None => None,
    }
}

impl Chosen for Listed<'_> {
    ghost choices = { λ s. choices_by s.shapes.items (fitted_at s.fitted) };

    fn first(&self, slot: usize) -> Option<Value> {
        listed_by(shape_at(&self.shapes, slot), self.fitted.first(slot))
    }

    fn listed(&self, slot: usize, instant: u32) -> Option<Value> {
        listed_by(
            shape_at(&self.shapes, slot),
            self.fitted.at(slot, instant as usize),
        )
    }
}
