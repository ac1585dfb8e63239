//! What is evaluated in a frame where it is called: its imports and its equations.

ghost use Rattle.std.specs.Prelude.{◌≡◌, ◌∷◌, ◌++◌, [], IfOk, OnOk, flat_map, map, option_map, option_to_list, slice_get};
ghost use Rattle.lus_tree.specs.View.{contract_item_view, expr_view, exprs_view, item_view};
ghost use Rattle.lus_meaning.specs.Run.{body_equations, equations, ghost_equations};
ghost use Rattle.lus_meaning.specs.Scene.{clock_of_names, component_of};
ghost use Rattle.lus_streams.specs.Clocks.{clock_seen};
ghost use Rattle.lus_streams.specs.Owner.{owner_view};
ghost use Rattle.lus_evaluation.specs.Frame.{body_parts, equation_parts, import_parts, picked, text_at};
ghost use Rattle.lus_evaluation.specs.Part.{wholes};
ghost use Rattle.evaluation_parts.specs.Bodies.{side_view, sides_view};
ghost use Rattle.evaluation_parts.specs.PartViews.{given, parts_view};
ghost use Rattle.evaluation_parts.specs.Texts.{frame_texts_view, setting_view};
ghost use Rattle.evaluation_parts.specs.Views.{frame_instance};

use crate::frame::Frame;
use crate::item::item_at;
use crate::part::{Gives, Part};
use crate::parts::{push_body, push_whole};
use crate::setting::Setting;
use crate::text::FrameText;
use lus_streams::clock::Clock;
use lus_streams::lookup::side_clock;
use lus_streams::owner::Owner;
use lus_tree::{ContractItem, Expr, Item};
use std::alloc::{AllocError, Global};

/// An equation: the names that it gives, and its right side.
#[derive(Clone, Copy)]
pub(crate) struct Side<'a> {
    pub(crate) gives: Gives<'a>,
    pub(crate) right: &'a Expr,
}

/// The equations, and behind them that of a ghost variable, where the item is one.
fn push_ghost<'a>(sides: &mut Vec<Side<'a>>, item: &'a ContractItem) -> Result<(), AllocError>
    ensures { OnOk result (sides_view sides.new.items
        ≡ sides_view sides.old.items ++ ghost_equations (contract_item_view item.now ∷ [])) }
{
    if let ContractItem::Ghost(param, right) = item {
        sides.push(Side {
            gives: Gives::Name(&param.name),
            right,
        })?;
    }
    Ok(())
}

/// The equations, and behind them the item, where it is one.
fn push_equation<'a>(sides: &mut Vec<Side<'a>>, item: &'a Item) -> Result<(), AllocError>
    ensures { OnOk result (sides_view sides.new.items
        ≡ sides_view sides.old.items ++ body_equations (item_view item.now ∷ [])) }
{
    if let Item::Equation(names, right) = item {
        sides.push(Side {
            gives: Gives::Names(names),
            right,
        })?;
    }
    Ok(())
}

/// The equations, and behind them those of the ghost variables of a contract.
fn push_ghosts<'a>(sides: &mut Vec<Side<'a>>, items: &'a [ContractItem]) -> Result<(), AllocError>
    ensures { OnOk result (sides_view sides.new.items
        ≡ sides_view sides.old.items ++ ghost_equations (map contract_item_view items.now)) }
{
    for item in items {
        push_ghost(sides, item)?;
    }
    Ok(())
}

/// The equations, and behind them those of a body.
fn push_equations<'a>(sides: &mut Vec<Side<'a>>, items: &'a [Item]) -> Result<(), AllocError>
    ensures { OnOk result (sides_view sides.new.items
        ≡ sides_view sides.old.items ++ body_equations (map item_view items.now)) }
{
    for item in items {
        push_equation(sides, item)?;
    }
    Ok(())
}

/// The equations of a declaration in text order, those of ghost variables first.
fn sides_of(alloc: Global, owner: Owner<'_>) -> Result<Vec<Side<'_>>, AllocError>
    ensures { IfOk result (λ v. sides_view v.items ≡ equations (owner_view owner.entry)) }
{
    let mut sides = Vec::new(alloc);
    push_ghosts(&mut sides, owner.contract())?;
    push_equations(&mut sides, owner.body())?;
    Ok(sides)
}

/// The clock of an equation that gives these names.
fn clock_of_side<'a>(frame: Frame<'a, '_>, gives: Gives<'a>) -> Clock<'a>
    ensures { clock_seen result ≡ clock_of_names (component_of (frame_instance frame.entry)) (given gives.entry) }
{
    match gives {
        Gives::Nothing => Clock::Base,
        Gives::Name(word) => frame.clock(&word.text),
        Gives::Names(words) => side_clock(frame.names(), words),
    }
}

/// The parts, and behind them those of an equation.
fn push_side<'a>(
    alloc: Global,
    all: &mut Vec<Part<'a>>,
    setting: &Setting<'a, '_, '_>,
    side: Side<'a>,
) -> Result<(), AllocError>
    ensures { OnOk result (parts_view all.new.items ≡ parts_view all.old.items
        ++ equation_parts (setting_view setting.now) (side_view side.entry)) }
{
    let clock = clock_of_side(setting.frame, side.gives);
    push_whole(alloc, all, setting, side.gives, clock, side.right)?;
    Ok(())
}

/// The equation of that number.
fn side_at<'a>(sides: &[Side<'a>], number: u32) -> Option<Side<'a>>
    ensures { option_map side_view result ≡ slice_get (sides_view sides.now) number }
{
    item_at(sides, number as usize).copied()
}

/// The parts, and behind them those of an equation, where there is one.
fn push_side_there<'a>(
    alloc: Global,
    all: &mut Vec<Part<'a>>,
    setting: &Setting<'a, '_, '_>,
    side: Option<Side<'a>>,
) -> Result<(), AllocError>
    ensures { OnOk result (parts_view all.new.items ≡ parts_view all.old.items
        ++ flat_map (equation_parts (setting_view setting.now)) (option_to_list (option_map side_view side.entry))) }
{
    if let Some(side) = side {
        push_side(alloc, all, setting, side)?;
    }
    Ok(())
}

/// The parts, and behind them those of the equations in that order.
#[tactic(auto, using(crate::proofs::Picked::picked_first))]
fn push_sides<'a>(
    alloc: Global,
    all: &mut Vec<Part<'a>>,
    setting: &Setting<'a, '_, '_>,
    sides: &[Side<'a>],
    order: &[u32],
) -> Result<(), AllocError>
    ensures { OnOk result (parts_view all.new.items ≡ parts_view all.old.items
        ++ flat_map (equation_parts (setting_view setting.now)) (picked order.now (sides_view sides.now))) }
{
    for number in order {
        push_side_there(alloc, all, setting, side_at(sides, *number))?;
    }
    Ok(())
}

/// The parts, and behind them those of these expressions on a clock, each a whole of its own.
pub(crate) fn push_wholes<'a>(
    alloc: Global,
    all: &mut Vec<Part<'a>>,
    setting: &Setting<'a, '_, '_>,
    clock: Clock<'a>,
    values: &'a [Expr],
) -> Result<(), AllocError>
    ensures { OnOk result (parts_view all.new.items ≡ parts_view all.old.items
        ++ wholes (setting_view setting.now) (clock_seen clock.entry) (exprs_view values.now)) }
{
    for value in values {
        push_whole(alloc, all, setting, Gives::Nothing, clock, value)?;
    }
    Ok(())
}

/// The parts, and behind them what is evaluated in the frame of the call with that number.
pub(crate) fn push_called<'a>(
    alloc: Global,
    all: &mut Vec<Part<'a>>,
    texts: &[FrameText<'a>],
    number: u32,
) -> Result<(), AllocError>
    ensures { OnOk result (parts_view all.new.items ≡ parts_view all.old.items
        ++ (text_at (frame_texts_view texts.now) number).body) }
{
    push_body(alloc, all, texts, number)?;
    Ok(())
}

/// The parts, and behind them those of an item, where it is an import.
fn push_import<'a>(
    alloc: Global,
    all: &mut Vec<Part<'a>>,
    setting: &Setting<'a, '_, '_>,
    item: &'a ContractItem,
) -> Result<(), AllocError>
    ensures { OnOk result (parts_view all.new.items ≡ parts_view all.old.items
        ++ import_parts (setting_view setting.now) (contract_item_view item.now)) }
{
    if let ContractItem::Import(number, _, arguments, _) = item {
        push_wholes(alloc, all, setting, Clock::Base, arguments)?;
        push_called(alloc, all, setting.texts, *number)?;
    }
    Ok(())
}

/// The parts, and behind them those of the imports of a contract.
fn push_imports<'a>(
    alloc: Global,
    all: &mut Vec<Part<'a>>,
    setting: &Setting<'a, '_, '_>,
    items: &'a [ContractItem],
) -> Result<(), AllocError>
    ensures { OnOk result (parts_view all.new.items ≡ parts_view all.old.items
        ++ flat_map (import_parts (setting_view setting.now)) (map contract_item_view items.now)) }
{
    for item in items {
        push_import(alloc, all, setting, item)?;
    }
    Ok(())
}

/// What is evaluated in a frame where it is called.
pub(crate) fn body_of<'a>(
    alloc: Global,
    setting: &Setting<'a, '_, '_>,
    order: &[u32],
) -> Result<Vec<Part<'a>>, AllocError>
    ensures { IfOk result (λ v. parts_view v.items ≡ body_parts (setting_view setting.now) order.now
        (component_of (frame_instance setting.now.frame))) }
{
    let owner = setting.frame.names().owner;
    let sides = sides_of(alloc, owner)?;
    let mut all = Vec::new(alloc);
    push_imports(alloc, &mut all, setting, owner.contract())?;
    push_sides(alloc, &mut all, setting, &sides, order)?;
    Ok(all)
}
