//! What names a property.

ghost use Rattle.std.specs.Prelude.{◌≡◌, ◌++◌, ◌∷◌, [], IfOk, OnOk, map, option_map};
ghost use Rattle.std.specs.String.{string_bytes};
ghost use Rattle.lus_tree.specs.View.{named_view};
ghost use Rattle.lus_properties.specs.Marks.{behind, labelled_mark};
ghost use Rattle.lus_properties.specs.Views.{kind_view, property_view};

use lus_tree::{Named, Pos};
use std::alloc::{AllocError, Global};

/// What a property is of. An ensure has its mode's name.
#[derive(Clone, Copy)]
pub enum PropertyKind<'a> {
    /// A property of the body.
    Body,
    /// A guarantee of the contract, or of one that it imports.
    Guarantee,
    /// An ensure of a mode of this name, of the contract or of one that it imports.
    Ensure(&'a str),
    /// That one of the modes is active.
    OneMode,
    /// An assumption of a callee's contract, or of one that this imports.
    CalleeAssume,
}

/// What names a property: its kind, the numbers of the calls and imports on the way to its text, its label where it has
/// one, and the place of its expression's first token; that one mode is active stands at the declaration's name.
#[derive(Drop)]
pub struct Property<'a> {
    pub kind: PropertyKind<'a>,
    pub path: Vec<u32>,
    pub label: Option<&'a str>,
    pub at: Pos,
}

/// The text of a label.
fn text(label: &Option<String>) -> Option<&str>
    ensures { option_map (λ x. x.now) result ≡ option_map string_bytes label.now }
{
    match label {
        Some(text) => Some(text.as_str()),
        None => None,
    }
}

/// Adds the property of that kind that a declaration states itself.
#[tactic(auto, using(crate::proofs::FirstToken::expr_token))]
pub(crate) fn push_named<'a>(
    alloc: Global,
    kind: PropertyKind<'a>,
    named: &'a Named,
    properties: &mut Vec<Property<'a>>,
) -> Result<(), AllocError>
    ensures { OnOk result (map property_view properties.new.items ≡ map property_view properties.old.items
        ++ labelled_mark (kind_view kind.entry) (named_view named.now) ∷ []) }
{
    properties.push(Property {
        kind,
        path: Vec::new(alloc),
        label: text(&named.label),
        at: named.value.from,
    })?;
    Ok(())
}

/// The same property behind the call or import with that number.
fn moved<'a>(
    alloc: Global,
    number: u32,
    property: &Property<'a>,
) -> Result<Property<'a>, AllocError>
    ensures { IfOk result (λ p. property_view p ≡ behind number (property_view property.now)) }
{
    let mut path = Vec::new(alloc);
    path.push(number)?;
    path.extend_from_slice(&property.path)?;
    Ok(Property {
        kind: property.kind,
        path,
        label: property.label,
        at: property.at,
    })
}

/// Adds these properties behind the call or import with that number.
pub(crate) fn push_behind<'a>(
    alloc: Global,
    number: u32,
    inner: &[Property<'a>],
    properties: &mut Vec<Property<'a>>,
) -> Result<(), AllocError>
    ensures { OnOk result (map property_view properties.new.items ≡ map property_view properties.old.items
        ++ map (behind number) (map property_view inner.now)) }
{
    for property in inner {
        properties.push(moved(alloc, number, property)?)?;
    }
    Ok(())
}
