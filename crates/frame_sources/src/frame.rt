//! Where the slots of a frame are, by its sight.

ghost use Rattle.std.specs.Prelude.{◌≡◌, IfOk, option_map, slice_get, map};
ghost use Rattle.lus_tree.specs.View.{expr_view};
ghost use Rattle.sys_texts.specs.Sights.{counted_from_one};
ghost use Rattle.sys_texts.specs.Views.{call_view, output_view, sight_view};
ghost use Rattle.slot_resolver.specs.Found.{found_view};
ghost use Rattle.slot_values.specs.Resolution.{resolved_view};
ghost use Rattle.frame_sources.specs.Numbered.{first_held, first_slot, held_seen, numbering_seen, output_seen};
ghost use Rattle.frame_sources.specs.Resolved.{call_by, name_by, resolved_by};
ghost use Rattle.frame_sources.specs.Views.{all_asked_view};

use crate::modes::{Asked, asked_of};
use lus_tree::Expr;
use slot_resolver::{Found, Held, Slots, resolve};
use slot_values::Resolved;
use std::alloc::{AllocError, Global};
use sys_texts::sight::{Call, Output, Sight, memory, name_number, start};

/// A frame that is seen so, where these modes are known.
#[derive(Clone, Copy)]
pub struct Frame<'a, 's> {
    pub sight: &'s Sight<'a>,
    pub modes: &'s [Asked<'a>],
}

/// What a name stands for.
fn found(sight: &Sight<'_>, name: &str) -> Found
    ensures { found_view result ≡ name_by (sight_view sight.now) name.now }
{
    match sight.constants.get(name) {
        Some(constant) => Found::Constant(constant.value),
        None => Found::Slot(name_number(sight, name)),
    }
}

/// A call by its place.
#[tactic(auto, using(sys_texts::proofs::Gotten::seen_at))]
fn placed<'a, 's>(calls: &'s [Call<'a>], place: usize) -> Option<&'s Call<'a>>
    ensures { option_map (λ c. call_view c.now) result ≡ slice_get (map call_view calls.now) place }
{
    calls.get(place)
}

/// The call with that number.
pub(crate) fn call_at<'a, 's>(sight: &'s Sight<'a>, number: u32) -> Option<&'s Call<'a>>
    ensures { option_map (λ c. call_view c.now) result ≡ counted_from_one (sight_view sight.now).calls number }
{
    if number == 0 {
        return None;
    }
    placed(&sight.calls, number as usize - 1)
}

/// The slot of the first of these outputs.
fn first_slot(outputs: &[Output]) -> Option<u32>
    ensures { result ≡ first_slot (map output_view outputs.now) }
{
    match outputs {
        [] => None,
        [first, ..] => Some(first.number),
    }
}

/// The slots of the first of these outputs, where it may be held, of a call with this beat.
fn first_held(beat: u32, outputs: &[Output]) -> Option<Held>
    ensures { result ≡ first_held beat (map output_view outputs.now) }
{
    match outputs {
        [] => None,
        [first, ..] => Some(Held {
            beat,
            output: first.number,
            held: first.held,
        }),
    }
}

/// The slot of the first output of a call.
fn output_of(sight: &Sight<'_>, number: u32) -> Option<u32>
    ensures { result ≡ output_seen (call_by (sight_view sight.now) number) }
{
    match call_at(sight, number) {
        Some(call) => first_slot(&call.outputs),
        None => None,
    }
}

/// The slots of a call that runs while a condition is true.
fn held_of(sight: &Sight<'_>, number: u32) -> Option<Held>
    ensures { result ≡ held_seen (call_by (sight_view sight.now) number) }
{
    match call_at(sight, number) {
        Some(call) => first_held(call.beat, &call.outputs),
        None => None,
    }
}

impl<'a, 's> Slots for Frame<'a, 's> {
    ghost numbering = { λ f. numbering_seen f.sight.now (all_asked_view f.modes.now) };

    #[tactic(auto, using(crate::proofs::Frames::name_is))]
    fn name(&self, name: &str) -> Found {
        found(self.sight, name)
    }

    fn stream(&self, name: &str) -> u32 {
        name_number(self.sight, name)
    }

    fn memory(&self, number: u32) -> u32 {
        memory(self.sight, number)
    }

    fn start(&self, number: u32) -> u32 {
        start(self.sight, number)
    }

    #[tactic(auto, using(crate::proofs::Frames::output_is))]
    fn output(&self, number: u32) -> Option<u32> {
        output_of(self.sight, number)
    }

    #[tactic(auto, using(crate::proofs::Frames::held_is))]
    fn held(&self, number: u32) -> Option<Held> {
        held_of(self.sight, number)
    }

    #[tactic(auto, using(crate::proofs::Frames::modes_are))]
    fn mode(
        &self,
        alloc: Global,
        contract: Option<&str>,
        mode: &str,
    ) -> Result<Resolved, AllocError> {
        asked_of(alloc, self.modes, contract, mode)
    }
}

/// The resolution of an expression in a frame that is seen so, where these modes are known.
///
/// # Errors
///
/// Only want of memory.
#[tactic(auto, using(crate::proofs::Frames::resolved_as))]
pub fn resolved(
    alloc: Global,
    sight: &Sight<'_>,
    modes: &[Asked<'_>],
    e: &Expr,
) -> Result<Resolved, AllocError>
    ensures { IfOk result (λ r. resolved_view r ≡ resolved_by (sight_view sight.now) (all_asked_view modes.now)
        (expr_view e.now)) }
{
    let frame = Frame { sight, modes };
    resolve(alloc, &frame, e)
}
