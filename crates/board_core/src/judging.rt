//! What entries say of a property.

ghost use Rattle.std.specs.Prelude.{◌≡◌, option_map};
ghost use Rattle.cert_rules.specs.Kept.{held_at};
ghost use Rattle.board_core.specs.View.{made_view, cause_view};
ghost use Rattle.board_core.specs.Books.{history_in};
ghost use Rattle.board_core.specs.Verdicts.{verdict_view, fact_holds, holds, breaks, judged, decides, cause_in, cause_of};

use crate::cause::Cause;
use crate::entry::Made;
use crate::posted::Posted;
use crate::verdict::Verdict;
use cert_rules::Held;

fn is_of(held: &Held, property: u32, _first: u64, _second: u64) -> bool
    ensures { result ≡ fact_holds property (held_at held.now _first _second) }
{
    held.property() == property
}

fn holds(made: &Made, property: u32) -> bool
    ensures { result ≡ holds property (made_view made.now) }
{
    match made {
        Made::Held(held, first, second) => is_of(held, property, *first, *second),
        _ => false,
    }
}

fn breaks(made: &Made, property: u32) -> bool
    ensures { result ≡ breaks property (made_view made.now) }
{
    match made {
        Made::Broken(broken, _) => *broken == property,
        _ => false,
    }
}

/// By the first entry that holds or breaks the property.
pub(crate) fn judge(entries: &[Posted], property: u32) -> Verdict
    ensures { verdict_view result ≡ judged property (history_in entries.now) }
{
    for place in 0..entries.len() {
        if holds(&entries[place].made, property) {
            return Verdict::Valid(place as u64);
        }
        if breaks(&entries[place].made, property) {
            return Verdict::Falsifiable(place as u64);
        }
    }
    Verdict::Unknown
}

/// Whether an entry holds or breaks the property.
pub(crate) fn decide(entries: &[Posted], property: u32) -> bool
    ensures { result ≡ decides property (history_in entries.now) }
{
    for posted in entries {
        if holds(&posted.made, property) || breaks(&posted.made, property) {
            return true;
        }
    }
    false
}

fn cause_in(made: &Made, engine: u32, property: u32) -> Option<&Cause>
    ensures { option_map (λ c. cause_view c.now) result ≡ cause_in engine property (made_view made.now) }
{
    match made {
        Made::Spent(by, of, cause, _) => {
            if *by == engine && *of == property {
                Some(cause)
            } else {
                None
            }
        }
        _ => None,
    }
}

/// The cause of the engine's first entry that leaves the property undecided.
pub(crate) fn first_cause(entries: &[Posted], engine: u32, property: u32) -> Option<&Cause>
    ensures { option_map (λ c. cause_view c.now) result ≡ cause_of engine property (history_in entries.now) }
{
    for posted in entries {
        if let Some(cause) = cause_in(&posted.made, engine, property) {
            return Some(cause);
        }
    }
    None
}
