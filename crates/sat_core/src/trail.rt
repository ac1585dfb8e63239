//! What is assigned, with the places of its decisions.

ghost use Rattle.std.specs.Prelude.{◌≡◌, ◌≤◌, cond, length, nat_lt};
ghost use Rattle.sat_core.specs.Analysis.{IsLast, IsNext};
ghost use Rattle.sat_core.specs.Decisions.{decisions_from, first_from};

use crate::assigned::Assigned;

/// What is assigned, in order, and where in it the decisions stand.
#[derive(Clone, Copy)]
pub struct Trail<'a> {
    pub entries: &'a [Assigned],
    pub decisions: &'a [usize],
    ghost placed: { decisions.now ≡ decisions_from 0 entries.now },
}

/// The earlier of two places.
fn earlier(place: usize, end: usize) -> usize
    ensures { result ≡ cond (nat_lt place end) place end }
{
    if place < end { place } else { end }
}

/// The first of these places from `low` on, and no later one than the end.
fn first_from(places: &[usize], low: usize, end: usize) -> usize
    ensures { result ≡ first_from low end places.now }
{
    for place in places {
        if low <= *place {
            return earlier(*place, end);
        }
    }
    end
}

impl Trail<'_> {
    /// The place of the last decision.
    #[tactic(auto, using(crate::proofs::Decisions::last_is))]
    pub fn last_decision(self) -> Option<usize>
        ensures { IsLast self.entry.entries.now result }
    {
        self.decisions.last().copied()
    }

    /// The next decision from a place on, or the end.
    #[tactic(auto, using(crate::proofs::Decisions::next_is))]
    pub fn next_decision(self, low: usize, end: usize) -> usize
        requires ordered { low ≤ end }
        requires within { end ≤ length self.entries.now }
        ensures { IsNext self.entry.entries.now low end result }
    {
        first_from(self.decisions, low, end)
    }
}
