//! The slots that tell clocks.

ghost use Rattle.std.specs.Prelude.{◌≡◌};
ghost use Rattle.lus_streams.specs.Clocks.{clock_seen};
ghost use Rattle.sys_texts.specs.Views.{sight_view};
ghost use Rattle.frame_sources.specs.Sourced.{switch_by};

use lus_streams::clock::Clock;
use slot_sources::Switch;
use sys_texts::sight::{Sight, name_number};

/// The slot that tells a clock, and the truth value that it has where the clock is on.
pub fn switch_of(sight: &Sight<'_>, clock: Clock<'_>) -> Switch
    ensures { result ≡ switch_by (sight_view sight.now) (clock_seen clock.entry) }
{
    match clock {
        Clock::Base => Switch {
            slot: sight.beat,
            wanted: true,
        },
        Clock::Sampled(truth, name) => Switch {
            slot: name_number(sight, &name.text),
            wanted: truth,
        },
    }
}
