//! What a name needs of its own frame.

ghost use Rattle.std.specs.Prelude.{◌≡◌, ◌∷◌, ◌++◌, [], OnOk, flat_map, map};
ghost use Rattle.lus_tree.specs.Tree.{text_of};
ghost use Rattle.lus_tree.specs.View.{contract_item_view, expr_view, item_view, param_view, word_view};
ghost use Rattle.lus_meaning.specs.Cycle.{declared_needs, defined_needs, equation_step, own_needs};
ghost use Rattle.lus_meaning.specs.Depends.{clock_needs, modes_need, named_in};
ghost use Rattle.lus_meaning.specs.Run.{body_equations, ghost_equations};
ghost use Rattle.lus_meaning.specs.Scene.{ghosts};
ghost use Rattle.lus_streams.specs.Clocks.{clock_seen};
ghost use Rattle.lus_streams.specs.Owner.{owner_view};
ghost use Rattle.evaluation_parts.specs.Needed.{modes_needs_view, needs_view};
ghost use Rattle.evaluation_parts.specs.Views.{frame_instance};
ghost use Rattle.evaluation_order.specs.Steps.{stream_needs};

use evaluation_parts::frame::Frame;
use evaluation_parts::mode_need::ModeNeeds;
use evaluation_parts::need::Need;
use evaluation_parts::needs::push_needs;
use lus_streams::clock::{Clock, declared};
use lus_streams::lookup::side_clock;
use lus_streams::owner::Owner;
use lus_tree::{ContractItem, Expr, Item, Param, PlacedName};
use std::alloc::{AllocError, Global};

/// The needs, and behind them that of a stream on that clock.
pub(crate) fn push_clock<'a>(
    alloc: Global,
    needs: &mut Vec<Need<'a>>,
    clock: Clock<'a>,
) -> Result<(), AllocError>
    ensures { OnOk result (needs_view needs.new.items ≡ needs_view needs.old.items
        ++ clock_needs (clock_seen clock.entry)) }
{
    match clock {
        Clock::Base => needs.push(Need::Beat)?,
        Clock::Sampled(_, word) => needs.push(Need::Name(Vec::new(alloc), word.text.as_str()))?,
    }
    Ok(())
}

/// The needs, and behind them that of a stream's clock, where it has that name.
fn push_stream<'a>(
    alloc: Global,
    needs: &mut Vec<Need<'a>>,
    stream: &'a Param,
    name: &str,
) -> Result<(), AllocError>
    ensures { OnOk result (needs_view needs.new.items ≡ needs_view needs.old.items
        ++ stream_needs name.now (param_view stream.now ∷ [])) }
{
    if name == stream.name.text.as_str() {
        push_clock(alloc, needs, declared(&stream.clock))?;
    }
    Ok(())
}

/// The needs, and behind them those of the clocks of the streams that have that name.
fn push_streams<'a>(
    alloc: Global,
    needs: &mut Vec<Need<'a>>,
    streams: &'a [Param],
    name: &str,
) -> Result<(), AllocError>
    ensures { OnOk result (needs_view needs.new.items ≡ needs_view needs.old.items
        ++ stream_needs name.now (map param_view streams.now)) }
{
    for stream in streams {
        push_stream(alloc, needs, stream, name)?;
    }
    Ok(())
}

/// The same of an item's ghost variable, where it is one.
fn push_ghost_stream<'a>(
    alloc: Global,
    needs: &mut Vec<Need<'a>>,
    item: &'a ContractItem,
    name: &str,
) -> Result<(), AllocError>
    ensures { OnOk result (needs_view needs.new.items ≡ needs_view needs.old.items
        ++ stream_needs name.now (ghosts (contract_item_view item.now ∷ []))) }
{
    if let ContractItem::Ghost(stream, _) = item {
        push_stream(alloc, needs, stream, name)?;
    }
    Ok(())
}

/// The same of the ghost variables of a contract.
fn push_ghost_streams<'a>(
    alloc: Global,
    needs: &mut Vec<Need<'a>>,
    items: &'a [ContractItem],
    name: &str,
) -> Result<(), AllocError>
    ensures { OnOk result (needs_view needs.new.items ≡ needs_view needs.old.items
        ++ stream_needs name.now (ghosts (map contract_item_view items.now))) }
{
    for item in items {
        push_ghost_stream(alloc, needs, item, name)?;
    }
    Ok(())
}

/// The needs, and behind them what a name needs by how it is declared.
#[tactic(auto, using(crate::proofs::Streams::streams_apart))]
fn push_declared<'a>(
    alloc: Global,
    needs: &mut Vec<Need<'a>>,
    owner: Owner<'a>,
    name: &str,
) -> Result<(), AllocError>
    ensures { OnOk result (needs_view needs.new.items ≡ needs_view needs.old.items
        ++ declared_needs (owner_view owner.entry) name.now) }
{
    push_streams(alloc, needs, owner.inputs(), name)?;
    push_streams(alloc, needs, owner.outputs(), name)?;
    push_streams(alloc, needs, owner.locals(), name)?;
    push_ghost_streams(alloc, needs, owner.contract(), name)
}

/// The same of each of these names.
fn push_declared_each<'a>(
    alloc: Global,
    needs: &mut Vec<Need<'a>>,
    owner: Owner<'a>,
    words: &[PlacedName],
) -> Result<(), AllocError>
    ensures { OnOk result (needs_view needs.new.items ≡ needs_view needs.old.items
        ++ flat_map (declared_needs (owner_view owner.entry)) (map text_of (map word_view words.now))) }
{
    for word in words {
        push_declared(alloc, needs, owner, &word.text)?;
    }
    Ok(())
}

/// Whether a name is one of these.
pub(crate) fn is_among(name: &str, words: &[PlacedName]) -> bool
    ensures { result ≡ named_in name.now (map text_of (map word_view words.now)) }
{
    for word in words {
        if name == word.text.as_str() {
            return true;
        }
    }
    false
}

/// The needs, and behind them what a ghost variable needs by its right side.
fn push_ghost_side<'a>(
    alloc: Global,
    needs: &mut Vec<Need<'a>>,
    frame: Frame<'a, '_>,
    modes: &[ModeNeeds<'a>],
    stream: &'a Param,
    right: &'a Expr,
) -> Result<(), AllocError>
    requires { modes_needs_view modes.now ≡ modes_need (frame_instance frame) }
    ensures { OnOk result (needs_view needs.new.items ≡ needs_view needs.old.items
        ++ equation_step (frame_instance frame.entry)
        record { names = (param_view stream.now).name.text ∷ []; right = expr_view right.now }) }
{
    let names = frame.declared.names;
    push_declared(alloc, needs, names.owner, &stream.name.text)?;
    let clock = names.clock_or_base(&stream.name.text);
    push_needs(alloc, needs, frame, modes, clock, right)
}

/// The needs, and behind them what the ghost variable of an item needs by its right side, where it has that name.
fn push_ghost<'a>(
    alloc: Global,
    needs: &mut Vec<Need<'a>>,
    frame: Frame<'a, '_>,
    modes: &[ModeNeeds<'a>],
    item: &'a ContractItem,
    name: &str,
) -> Result<(), AllocError>
    requires { modes_needs_view modes.now ≡ modes_need (frame_instance frame) }
    ensures { OnOk result (needs_view needs.new.items ≡ needs_view needs.old.items
        ++ defined_needs (frame_instance frame.entry) name.now (ghost_equations (contract_item_view item.now ∷ []))) }
{
    if let ContractItem::Ghost(stream, right) = item {
        if name == stream.name.text.as_str() {
            push_ghost_side(alloc, needs, frame, modes, stream, right)?;
        }
    }
    Ok(())
}

/// The needs, and behind them what the names on the left of these words need by the right side.
fn push_side<'a>(
    alloc: Global,
    needs: &mut Vec<Need<'a>>,
    frame: Frame<'a, '_>,
    modes: &[ModeNeeds<'a>],
    words: &'a [PlacedName],
    right: &'a Expr,
) -> Result<(), AllocError>
    requires { modes_needs_view modes.now ≡ modes_need (frame_instance frame) }
    ensures { OnOk result (needs_view needs.new.items ≡ needs_view needs.old.items
        ++ equation_step (frame_instance frame.entry) record {
          names = map text_of
              (map word_view words.now);
          right = expr_view right.now;
        }) }
{
    let names = frame.declared.names;
    push_declared_each(alloc, needs, names.owner, words)?;
    let clock = side_clock(names, words);
    push_needs(alloc, needs, frame, modes, clock, right)
}

/// The needs, and behind them what an item of a body needs, where it is an equation that gives that name.
fn push_equation<'a>(
    alloc: Global,
    needs: &mut Vec<Need<'a>>,
    frame: Frame<'a, '_>,
    modes: &[ModeNeeds<'a>],
    item: &'a Item,
    name: &str,
) -> Result<(), AllocError>
    requires { modes_needs_view modes.now ≡ modes_need (frame_instance frame) }
    ensures { OnOk result (needs_view needs.new.items ≡ needs_view needs.old.items
        ++ defined_needs (frame_instance frame.entry) name.now (body_equations (item_view item.now ∷ []))) }
{
    if let Item::Equation(words, right) = item {
        if is_among(name, words) {
            push_side(alloc, needs, frame, modes, words, right)?;
        }
    }
    Ok(())
}

/// The same of the ghost variables of a contract.
fn push_ghosts<'a>(
    alloc: Global,
    needs: &mut Vec<Need<'a>>,
    frame: Frame<'a, '_>,
    modes: &[ModeNeeds<'a>],
    items: &'a [ContractItem],
    name: &str,
) -> Result<(), AllocError>
    requires { modes_needs_view modes.now ≡ modes_need (frame_instance frame) }
    ensures { OnOk result (needs_view needs.new.items ≡ needs_view needs.old.items
        ++ defined_needs (frame_instance frame.entry) name.now (ghost_equations (map contract_item_view items.now))) }
{
    for item in items {
        push_ghost(alloc, needs, frame, modes, item, name)?;
    }
    Ok(())
}

/// The same of the equations of a body.
fn push_equations<'a>(
    alloc: Global,
    needs: &mut Vec<Need<'a>>,
    frame: Frame<'a, '_>,
    modes: &[ModeNeeds<'a>],
    items: &'a [Item],
    name: &str,
) -> Result<(), AllocError>
    requires { modes_needs_view modes.now ≡ modes_need (frame_instance frame) }
    ensures { OnOk result (needs_view needs.new.items ≡ needs_view needs.old.items
        ++ defined_needs (frame_instance frame.entry) name.now (body_equations (map item_view items.now))) }
{
    for item in items {
        push_equation(alloc, needs, frame, modes, item, name)?;
    }
    Ok(())
}

/// The needs, and behind them what a name of a frame needs of the frame itself: its clock, and of the equations
/// that give it the clocks of their names and the right side.
pub(crate) fn push_own<'a>(
    alloc: Global,
    needs: &mut Vec<Need<'a>>,
    frame: Frame<'a, '_>,
    modes: &[ModeNeeds<'a>],
    name: &str,
) -> Result<(), AllocError>
    requires { modes_needs_view modes.now ≡ modes_need (frame_instance frame) }
    ensures { OnOk result (needs_view needs.new.items ≡ needs_view needs.old.items
        ++ own_needs (frame_instance frame.entry) name.now) }
{
    let owner = frame.declared.names.owner;
    push_declared(alloc, needs, owner, name)?;
    push_ghosts(alloc, needs, frame, modes, owner.contract(), name)?;
    push_equations(alloc, needs, frame, modes, owner.body(), name)
}
