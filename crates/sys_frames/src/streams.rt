//! What holds of the streams of a frame.

ghost use Rattle.std.specs.Prelude.{◌≡◌, ◌++◌, OnOk, map, option_map, slice_get};
ghost use Rattle.sys_parts.specs.Parts.{part_view};
ghost use Rattle.sys_tables.specs.Views.{named_view};
ghost use Rattle.sys_terms.specs.View.{terms_view};
ghost use Rattle.sys_texts.specs.Views.{modes_view, sight_view};
ghost use Rattle.sys_frames.specs.Streams.{stream_here, streams_here};

use std::alloc::{AllocError, Global};
use sys_conditions::named::{given_or, push_name};
use sys_parts::parts::Part;
use sys_tables::table::Named;
use sys_terms::Term;
use sys_texts::sight::{Mode, Sight};

/// The formulas, and behind them what holds of a stream, which this gives, or an equation, or nothing.
fn push_stream(
    alloc: Global,
    formulas: &mut Vec<Term>,
    sight: &Sight<'_>,
    modes: &[Mode<'_>],
    stream: &Named<'_>,
    given: Option<&Part>,
) -> Result<(), AllocError>
    ensures { OnOk result (terms_view formulas.new.items ≡ terms_view formulas.old.items
        ++ stream_here (sight_view sight.now) (modes_view modes.now) (named_view stream.now)
        (option_map (λ p. part_view p.now) given.entry)) }
{
    let part = given_or(alloc, sight, modes, given, stream.right)?;
    push_name(alloc, formulas, sight, stream.input, stream.param, part)
}

/// The part of that place; none where there is none.
#[tactic(auto, using(sys_texts::proofs::Gotten::seen_at))]
fn part_at(parts: &[Part], place: usize) -> Option<&Part>
    ensures { option_map (λ p. part_view p.now) result ≡ slice_get (map part_view parts.now) place }
{
    parts.get(place)
}

/// The formulas, and behind them what holds of the streams of a declaration, to the first of which the caller gives
/// these parts.
pub(crate) fn push_streams(
    alloc: Global,
    formulas: &mut Vec<Term>,
    sight: &Sight<'_>,
    modes: &[Mode<'_>],
    streams: &[Named<'_>],
    given: &[Part],
) -> Result<(), AllocError>
    ensures { OnOk result (terms_view formulas.new.items ≡ terms_view formulas.old.items
        ++ streams_here (sight_view sight.now) (modes_view modes.now) (map named_view streams.now)
        (map part_view given.now)) }
{
    for (place, stream) in streams.iter().enumerate() {
        push_stream(alloc, formulas, sight, modes, stream, part_at(given, place))?;
    }
    Ok(())
}
