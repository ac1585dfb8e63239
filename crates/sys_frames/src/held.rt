//! What is held of calls, and what a caller gives to their frames.

ghost use Rattle.std.specs.Prelude.{◌≡◌, ◌++◌, IfOk, OnOk, map};
ghost use Rattle.lus_tree.specs.Tree.{text_of};
ghost use Rattle.lus_tree.specs.View.{expr_view, word_view};
ghost use Rattle.lus_meaning.specs.Scene.{while_true};
ghost use Rattle.sys_occurrences.specs.Views.{site_view};
ghost use Rattle.sys_parts.specs.Constants.{constant_view};
ghost use Rattle.sys_parts.specs.Parts.{part_view};
ghost use Rattle.sys_conditions.specs.Views.{manner_view};
ghost use Rattle.sys_terms.specs.View.{term_view};
ghost use Rattle.sys_texts.specs.Sights.{name_part};
ghost use Rattle.sys_texts.specs.Texts.{part_of};
ghost use Rattle.sys_texts.specs.Views.{call_view, modes_view, sight_view};
ghost use Rattle.sys_frames.specs.Lists.{joined};
ghost use Rattle.sys_frames.specs.Views.{lists_view};
ghost use Rattle.sys_frames.specs.Walked.{active_where, given_by, held_lists, outputs_given};

use crate::lists::Lists;
use crate::shapes::push_held_shapes;
use lus_tree::{Expr, PlacedName};
use std::alloc::{AllocError, Global};
use sys_conditions::called::{push_held_at_first, runs_where};
use sys_conditions::kept::push_held;
use sys_conditions::occurrences::Manner;
use sys_occurrences::sites::Site;
use sys_parts::constant::Constant;
use sys_parts::formulas::{flag, same};
use sys_parts::parts::Part;
use sys_terms::Term;
use sys_texts::sight::{Call, Mode, Sight, name_part};
use sys_texts::texts::part_of;

/// The lists, and behind them what is held of a call under a condition.
fn push_held_call(
    alloc: Global,
    lists: &mut Lists,
    defaults: &[Constant],
    call: &Call<'_>,
    condition: &Expr,
) -> Result<(), AllocError>
    ensures { OnOk result (lists_view lists.new ≡ joined (lists_view lists.old)
        (held_lists (map constant_view defaults.now) (call_view call.now) (while_true (expr_view condition.now)))) }
{
    let _condition = condition;
    push_held_shapes(&mut lists.shapes, &call.outputs, defaults)?;
    push_held_at_first(alloc, &mut lists.first, &call.outputs, defaults)?;
    push_held(alloc, &mut lists.next, call.beat, &call.outputs)
}

/// The lists, and behind them what is held of a call.
#[tactic(auto, using(crate::proofs::Steps::joined_none))]
pub(crate) fn push_held_lists(
    alloc: Global,
    lists: &mut Lists,
    defaults: &[Constant],
    call: &Call<'_>,
    manner: Manner<'_>,
) -> Result<(), AllocError>
    ensures { OnOk result (lists_view lists.new ≡ joined (lists_view lists.old)
        (held_lists (map constant_view defaults.now) (call_view call.now) (manner_view manner.entry))) }
{
    match manner {
        Manner::While(condition) => push_held_call(alloc, lists, defaults, call, condition),
        Manner::Plain | Manner::Import(_) => Ok(()),
    }
}

/// The parts, and behind them those of arguments.
fn push_arguments(
    alloc: Global,
    parts: &mut Vec<Part>,
    sight: &Sight<'_>,
    modes: &[Mode<'_>],
    arguments: &[Expr],
) -> Result<(), AllocError>
    ensures { OnOk result (map part_view parts.new.items ≡ map part_view parts.old.items
        ++ map (part_of (sight_view sight.now) (modes_view modes.now)) (map expr_view arguments.now)) }
{
    for argument in arguments {
        let part = part_of(alloc, sight, modes, argument)?;
        parts.push(part)?;
    }
    Ok(())
}

/// The parts, and behind them those of names.
fn push_names(
    parts: &mut Vec<Part>,
    sight: &Sight<'_>,
    names: &[PlacedName],
) -> Result<(), AllocError>
    ensures { OnOk result (map part_view parts.new.items ≡ map part_view parts.old.items
        ++ map (name_part (sight_view sight.now)) (map text_of (map word_view names.now))) }
{
    for name in names {
        parts.push(name_part(sight, &name.text))?;
    }
    Ok(())
}

/// The parts, and behind them what a caller gives to the outputs of a call's frame: to those of an import the names
/// that they have.
fn push_outputs(
    parts: &mut Vec<Part>,
    sight: &Sight<'_>,
    manner: Manner<'_>,
) -> Result<(), AllocError>
    ensures { OnOk result (map part_view parts.new.items ≡ map part_view parts.old.items
        ++ outputs_given (sight_view sight.now) (manner_view manner.entry)) }
{
    match manner {
        Manner::Import(names) => push_names(parts, sight, names),
        Manner::Plain | Manner::While(_) => Ok(()),
    }
}

/// What a caller gives to the first streams of a call's frame.
pub(crate) fn given_by(
    alloc: Global,
    sight: &Sight<'_>,
    modes: &[Mode<'_>],
    site: Site<'_>,
) -> Result<Vec<Part>, AllocError>
    ensures { IfOk result (λ v. map part_view v.items ≡ given_by (sight_view sight.now) (modes_view modes.now)
        (site_view site.entry)) }
{
    let mut parts = Vec::new(alloc);
    push_arguments(alloc, &mut parts, sight, modes, site.arguments)?;
    push_outputs(&mut parts, sight, site.manner)?;
    Ok(parts)
}

/// That a call's frame is active where the call says so.
pub(crate) fn active_where(
    alloc: Global,
    sight: &Sight<'_>,
    modes: &[Mode<'_>],
    site: Site<'_>,
    call: &Call<'_>,
) -> Result<Term, AllocError>
    ensures { IfOk result (λ t. term_view t ≡ active_where (sight_view sight.now) (modes_view modes.now)
        (site_view site.entry) (call_view call.now)) }
{
    let runs = runs_where(alloc, sight, modes, site.clock, site.manner)?;
    same(alloc, flag(call.beat), runs)
}
