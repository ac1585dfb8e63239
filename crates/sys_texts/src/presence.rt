//! Where clocks are on.

ghost use Rattle.std.specs.Prelude.{◌≡◌, IfOk};
ghost use Rattle.lus_streams.specs.Clocks.{clock_seen};
ghost use Rattle.sys_terms.specs.View.{term_view};
ghost use Rattle.sys_texts.specs.Texts.{present, present_within};
ghost use Rattle.sys_texts.specs.Views.{sight_view};

use crate::sight::{Sight, name_clock, name_flag};
use lus_streams::clock::Clock;
use std::alloc::{AllocError, Global};
use sys_parts::formulas::{both, flag, negation};
use sys_terms::Term;

/// Where a clock is on, of which no more clocks than said follow from one another.
fn present_within(
    alloc: Global,
    bound: usize,
    sight: &Sight<'_>,
    clock: Clock<'_>,
) -> Result<Term, AllocError>
    ensures { IfOk result (λ t. term_view t ≡ present_within bound (sight_view sight.now) (clock_seen clock.entry)) }
{
    match clock {
        Clock::Base => Ok(flag(sight.beat)),
        Clock::Sampled(truth, name) => {
            if bound == 0 {
                Ok(Term::Truth(false))
            } else if truth {
                Ok(name_flag(sight, &name.text))
            } else {
                let outer = name_clock(sight, &name.text);
                let there = present_within(alloc, bound - 1, sight, outer)?;
                let off = negation(alloc, name_flag(sight, &name.text))?;
                both(alloc, there, off)
            }
        }
    }
}

/// Where a clock is on.
///
/// # Errors
///
/// Want of memory.
pub fn present(alloc: Global, sight: &Sight<'_>, clock: Clock<'_>) -> Result<Term, AllocError>
    ensures { IfOk result (λ t. term_view t ≡ present (sight_view sight.now) (clock_seen clock.entry)) }
{
    present_within(alloc, sight.bound, sight, clock)
}
