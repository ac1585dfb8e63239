//! Faults of parts that are to be on one clock.

ghost use Rattle.std.specs.Prelude.{◌≡◌, ◌++◌, false, true};
ghost use Rattle.lus_tree.specs.View.{word_view};
ghost use Rattle.lus_meaning.specs.ClockFaults.{is_other, or_else};
ghost use Rattle.lus_meaning.specs.Scene.{sampled_by};
ghost use Rattle.lus_scopes.specs.Least.{least_view, noted_all};
ghost use Rattle.lus_streams.specs.Clocks.{clock_seen, clocks_seen};
ghost use Rattle.lus_clocks.specs.Parts.{fit_notes, stand_notes};

use crate::found::Part;
use lus_scopes::least::Least;
use lus_streams::clock::{Clock, is_same, or_else};
use lus_tree::{PlacedName, What};

/// Whether a clock that is known is another one.
fn is_other(wanted: Clock<'_>, clock: Option<Clock<'_>>) -> bool
    ensures { result ≡ is_other (clock_seen wanted.entry) (clocks_seen clock.entry) }
{
    match clock {
        Some(clock) => !is_same(wanted, clock),
        None => false,
    }
}

/// Notes a part that isn't on this clock.
pub(crate) fn stands_on(least: &mut Least, wanted: Clock<'_>, part: &Part<'_>)
    ensures { least_view least.new ≡ noted_all (least_view least.old) (stand_notes (clock_seen wanted.entry) part.now) }
{
    least.note_if(is_other(wanted, part.clock), What::ClockClash, part.from);
}

/// Notes a part that isn't on this clock, where one is known.
pub(crate) fn fits_on(least: &mut Least, wanted: Option<Clock<'_>>, part: &Part<'_>)
    ensures { least_view least.new ≡ noted_all (least_view least.old) (fit_notes (clocks_seen wanted.entry) part.now) }
{
    if let Some(wanted) = wanted {
        stands_on(least, wanted, part);
    }
}

/// Notes two parts that aren't on one clock, and gives that clock.
#[tactic(auto, using(lus_scopes::proofs::Leasts::noted_append))]
pub(crate) fn pair<'a>(least: &mut Least, first: &Part<'a>, second: &Part<'a>) -> Option<Clock<'a>>
    ensures clock { clocks_seen result ≡ or_else (clocks_seen first.now.clock) (clocks_seen second.now.clock) }
    ensures least { least_view least.new ≡ noted_all (least_view least.old)
        (fit_notes (clocks_seen result) first.now ++ fit_notes (clocks_seen result) second.now) }
{
    let clock = or_else(first.clock, second.clock);
    fits_on(least, clock, first);
    fits_on(least, clock, second);
    clock
}

/// Notes three parts that aren't on one clock, and gives that clock.
#[tactic(auto, using(lus_scopes::proofs::Leasts::noted_append))]
pub(crate) fn triple<'a>(
    least: &mut Least,
    first: &Part<'a>,
    second: &Part<'a>,
    third: &Part<'a>,
) -> Option<Clock<'a>>
    ensures clock { clocks_seen result
        ≡ or_else (clocks_seen first.now.clock) (or_else (clocks_seen second.now.clock) (clocks_seen third.now.clock)) }
    ensures least { least_view least.new ≡ noted_all (least_view least.old) (fit_notes (clocks_seen result) first.now
        ++ (fit_notes (clocks_seen result) second.now ++ fit_notes (clocks_seen result) third.now)) }
{
    let clock = or_else(first.clock, or_else(second.clock, third.clock));
    fits_on(least, clock, first);
    fits_on(least, clock, second);
    fits_on(least, clock, third);
    clock
}

/// Notes branches of a merge that aren't on the two clocks of its word.
#[tactic(auto, using(lus_scopes::proofs::Leasts::noted_append))]
pub(crate) fn branches(least: &mut Least, word: &PlacedName, on: &Part<'_>, off: &Part<'_>)
    ensures { least_view least.new ≡ noted_all (least_view least.old)
        (stand_notes (sampled_by true (word_view word.now).text) on.now
        ++ stand_notes (sampled_by false (word_view word.now).text) off.now) }
{
    stands_on(least, Clock::Sampled(true, word), on);
    stands_on(least, Clock::Sampled(false, word), off);
}
