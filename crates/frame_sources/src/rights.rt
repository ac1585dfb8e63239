//! What right sides give to the names of their equations.

ghost use Rattle.std.specs.Prelude.{◌≡◌, ◌∷◌, [], IfOk, map, option_map, slice_get, unwrap_or};
ghost use Rattle.lus_tree.specs.View.{expr_view};
ghost use Rattle.lus_meaning.specs.Value.{absent};
ghost use Rattle.slot_values.specs.Resolution.{known, resolved_view};
ghost use Rattle.sys_conditions.specs.Views.{right_view};
ghost use Rattle.sys_texts.specs.Views.{call_view, output_view, sight_view};
ghost use Rattle.frame_sources.specs.Resolved.{latest_by, latest_each_by, output_by, outputs_by, resolved_by};
ghost use Rattle.frame_sources.specs.Sourced.{right_by};
ghost use Rattle.frame_sources.specs.Views.{all_asked_view};

use crate::frame::{call_at, resolved};
use crate::modes::Asked;
use lus_tree::{Expr, Form};
use slot_values::Resolved;
use std::alloc::{AllocError, Global};
use sys_conditions::occurrences::Right;
use sys_texts::sight::{Call, Output, Sight};

/// The output of that place.
#[tactic(auto, using(sys_texts::proofs::Gotten::seen_at))]
fn placed(outputs: &[Output], place: usize) -> Option<&Output>
    ensures { option_map (λ o. output_view o.now) result ≡ slice_get (map output_view outputs.now) place }
{
    outputs.get(place)
}

/// The output of that place; none where there is none.
#[tactic(auto, using(crate::proofs::Placed::one_there, crate::proofs::Placed::none_there))]
fn output_at(outputs: &[Output], place: usize) -> Resolved
    ensures { resolved_view result
        ≡ unwrap_or (slice_get (map output_by (map output_view outputs.now)) place) (known absent) }
{
    match placed(outputs, place) {
        Some(output) => Resolved::Slot(output.number),
        None => Resolved::Known(None),
    }
}

/// What an output may be that is held, where the callee's frame has this beat.
fn latest_of(
    alloc: Global,
    condition: Resolved,
    beat: u32,
    output: Output,
) -> Result<Resolved, AllocError>
    ensures { IfOk result (λ r. resolved_view r ≡ latest_by (resolved_view condition) beat (output_view output)) }
{
    let condition = Box::new(alloc, condition)?;
    Ok(Resolved::Latest(condition, beat, output.number, output.held))
}

/// The output of that place, where it may be held; none where there is none.
#[tactic(auto, using(crate::proofs::Placed::one_there, crate::proofs::Placed::none_there))]
fn latest_at(
    alloc: Global,
    condition: Resolved,
    beat: u32,
    outputs: &[Output],
    place: usize,
) -> Result<Resolved, AllocError>
    ensures { IfOk result (λ r. resolved_view r ≡ unwrap_or (slice_get
        (map (latest_by (resolved_view condition) beat) (map output_view outputs.now)) place) (known absent)) }
{
    match placed(outputs, place) {
        Some(output) => {
            let latest = latest_of(alloc, condition, beat, *output)?;
            Ok(latest)
        }
        None => Ok(Resolved::Known(None)),
    }
}

/// The output of that place of a call.
fn called(call: Option<&Call<'_>>, place: usize) -> Resolved
    ensures { resolved_view result ≡ unwrap_or (slice_get
        (outputs_by (option_map (λ c. call_view c.now) call.entry)) place)
        (known absent) }
{
    match call {
        Some(call) => output_at(&call.outputs, place),
        None => Resolved::Known(None),
    }
}

/// The output of that place of a call that runs while a condition is true.
fn held(
    alloc: Global,
    condition: Resolved,
    call: Option<&Call<'_>>,
    place: usize,
) -> Result<Resolved, AllocError>
    ensures { IfOk result (λ r. resolved_view r ≡ unwrap_or (slice_get
        (latest_each_by (resolved_view condition) (option_map (λ c. call_view c.now) call.entry)) place)
        (known absent)) }
{
    match call {
        Some(call) => latest_at(alloc, condition, call.beat, &call.outputs, place),
        None => Ok(Resolved::Known(None)),
    }
}

/// What an expression gives to the first name.
fn first_of(
    alloc: Global,
    sight: &Sight<'_>,
    modes: &[Asked<'_>],
    side: &Expr,
    place: usize,
) -> Result<Resolved, AllocError>
    ensures { IfOk result (λ r. resolved_view r ≡ unwrap_or (slice_get
        (resolved_by (sight_view sight.now) (all_asked_view modes.now) (expr_view side.now)
        ∷ []) place) (known absent)) }
{
    if place == 0 {
        resolved(alloc, sight, modes, side)
    } else {
        Ok(Resolved::Known(None))
    }
}

/// What a right side gives to the left name of its place.
#[tactic(auto, using(lus_tree::proofs::Views::form_views))]
pub(crate) fn right_of(
    alloc: Global,
    sight: &Sight<'_>,
    modes: &[Asked<'_>],
    right: Right<'_>,
) -> Result<Resolved, AllocError>
    ensures { IfOk result (λ r. resolved_view r ≡ right_by (sight_view sight.now) (all_asked_view modes.now)
        (right_view right.entry)) }
{
    match &right.side.form {
        Form::Call(number, _, _) => Ok(called(call_at(sight, *number), right.place)),
        Form::Condact(number, condition, _, _, _) => {
            let condition = resolved(alloc, sight, modes, condition)?;
            held(alloc, condition, call_at(sight, *number), right.place)
        }
        Form::Truth(_)
        | Form::Number(_)
        | Form::Name(_)
        | Form::Not(_)
        | Form::Minus(_)
        | Form::Pre(_, _)
        | Form::Arrow(_, _, _)
        | Form::Binary(_, _, _)
        | Form::If(_, _, _)
        | Form::When(_, _, _)
        | Form::Merge(_, _, _)
        | Form::ModeName(_, _) => first_of(alloc, sight, modes, right.side, right.place),
    }
}
