//! Clocks of streams and expressions.

ghost use Rattle.std.specs.Prelude.{◌≡◌, unwrap_or};
ghost use Rattle.lus_tree.specs.View.{clock_view};
ghost use Rattle.lus_meaning.specs.ClockFaults.{or_else, same_clock};
ghost use Rattle.lus_meaning.specs.Scene.{base, clock_from};
ghost use Rattle.lus_streams.specs.Clocks.{clock_seen, clocks_seen};

use lus_tree::PlacedName;

/// The clock of a stream or of an expression.
#[derive(Clone, Copy)]
pub enum Clock<'a> {
    /// The base clock.
    Base,
    /// The instants at which this name has that truth value.
    Sampled(bool, &'a PlacedName),
}

/// The clock that is declared.
pub fn declared(clock: &Option<(bool, PlacedName)>) -> Clock<'_>
    ensures { clock_seen result ≡ clock_from (clock_view clock.now) }
{
    match clock {
        Some((truth, name)) => Clock::Sampled(*truth, name),
        None => Clock::Base,
    }
}

/// Whether the two are one clock.
pub fn is_same(first: Clock<'_>, second: Clock<'_>) -> bool
    ensures { result ≡ same_clock (clock_seen first.entry) (clock_seen second.entry) }
{
    match (first, second) {
        (Clock::Base, Clock::Base) => true,
        (Clock::Sampled(truth, name), Clock::Sampled(other_truth, other)) => {
            truth == other_truth && name.text.as_str() == other.text.as_str()
        }
        (Clock::Base, Clock::Sampled(_, _)) | (Clock::Sampled(_, _), Clock::Base) => false,
    }
}

/// The first clock, or the second where there is no first one.
pub fn or_else<'a>(first: Option<Clock<'a>>, second: Option<Clock<'a>>) -> Option<Clock<'a>>
    ensures { clocks_seen result ≡ or_else (clocks_seen first.entry) (clocks_seen second.entry) }
{
    match first {
        Some(clock) => Some(clock),
        None => second,
    }
}

/// A clock, and the base clock where there is none.
pub fn or_base(clock: Option<Clock<'_>>) -> Clock<'_>
    ensures { clock_seen result ≡ unwrap_or (clocks_seen clock.entry) base }
{
    match clock {
        Some(clock) => clock,
        None => Clock::Base,
    }
}
