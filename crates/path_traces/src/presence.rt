//! Whether a clock is on in a state.

ghost use Rattle.std.specs.Prelude.{◌≡◌, ◌<◌, ◌^◌};
ghost use Rattle.lus_streams.specs.Clocks.{clock_seen};
ghost use Rattle.lus_streams.specs.Streams.{params_view};
ghost use Rattle.sys_terms.specs.Meaning.{values_of};
ghost use Rattle.sys_terms.specs.View.{state_view};
ghost use Rattle.path_traces.specs.Numbered.{on_within};

use crate::names::{Names, clock_in, name_number};
use crate::reading::flag_at;
use lus_streams::clock::Clock;
use sys_terms::State;

/// Whether a clock is on in a state, of which no more clocks than `bound` follow from one another, in a frame whose
/// beat has the number `base`.
pub(crate) fn on_within(
    bound: usize,
    names: &Names<'_>,
    base: usize,
    state: &State,
    clock: Clock<'_>,
) -> bool
    requires { base < 2 ^ 32 }
    ensures { result ≡ on_within bound (params_view names.now.params.items) base (values_of (state_view state.now))
        (clock_seen clock.entry) }
{
    match clock {
        Clock::Base => flag_at(state, base),
        Clock::Sampled(truth, name) => {
            if bound == 0 {
                return false;
            }
            let flag = flag_at(state, name_number(names, base, &name.text));
            if truth {
                flag
            } else {
                let outer = clock_in(names, &name.text);
                on_within(bound - 1, names, base, state, outer) && !flag
            }
        }
    }
}
