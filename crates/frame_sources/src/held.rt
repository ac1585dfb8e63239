//! What is held of calls, and what a caller gives to their frames.

ghost use Rattle.std.specs.Prelude.{◌≡◌, ◌++◌, IfOk, OnOk, map};
ghost use Rattle.lus_streams.specs.Clocks.{clock_seen};
ghost use Rattle.lus_tree.specs.Tree.{text_of};
ghost use Rattle.lus_tree.specs.View.{expr_view, word_view};
ghost use Rattle.slot_sources.specs.Source.{source_view};
ghost use Rattle.sys_conditions.specs.Views.{manner_view};
ghost use Rattle.sys_occurrences.specs.Views.{site_view};
ghost use Rattle.sys_parts.specs.Constants.{constant_view};
ghost use Rattle.sys_texts.specs.Views.{call_view, output_view, sight_view};
ghost use Rattle.frame_sources.specs.Sourced.{argument_source, beat_source, from_call, held_each, held_source, held_sources, shared_source, shared_sources};
ghost use Rattle.frame_sources.specs.Views.{all_asked_view, sources_view};

use crate::frame::resolved;
use crate::modes::Asked;
use crate::switches::switch_of;
use lus_streams::clock::Clock;
use lus_tree::{Expr, PlacedName};
use slot_sources::Source;
use std::alloc::{AllocError, Global};
use sys_conditions::occurrences::Manner;
use sys_occurrences::sites::Site;
use sys_parts::constant::Constant;
use sys_texts::sight::{Call, Output, Sight, name_number};

/// What gives its value to what is held of an output.
#[tactic(auto, using(crate::proofs::Frames::entry_known))]
fn held_source(beat: u32, output: Output, default: Constant) -> Source
    ensures { source_view result ≡ held_source beat (output_view output) (constant_view default) }
{
    Source::Held {
        beat,
        output: output.number,
        default: default.value,
    }
}

/// The sources, and behind them those of what is held of outputs, as many as there are defaults.
fn push_held_each(
    sources: &mut Vec<Source>,
    beat: u32,
    outputs: &[Output],
    defaults: &[Constant],
) -> Result<(), AllocError>
    ensures { OnOk result (sources_view sources.new.items ≡ sources_view sources.old.items
        ++ held_each beat (map output_view outputs.now) (map constant_view defaults.now)) }
{
    match outputs {
        [] => Ok(()),
        [first, rest @ ..] => match defaults {
            [] => Ok(()),
            [default, more @ ..] => {
                sources.push(held_source(beat, *first, *default))?;
                push_held_each(sources, beat, rest, more)
            }
        },
    }
}

/// The sources, and behind them those of what is held of a call.
pub(crate) fn push_held(
    sources: &mut Vec<Source>,
    defaults: &[Constant],
    call: &Call<'_>,
    manner: Manner<'_>,
) -> Result<(), AllocError>
    ensures { OnOk result (sources_view sources.new.items ≡ sources_view sources.old.items
        ++ held_sources (map constant_view defaults.now) (call_view call.now) (manner_view manner.entry)) }
{
    match manner {
        Manner::While(_) => push_held_each(sources, call.beat, &call.outputs, defaults),
        Manner::Plain | Manner::Import(_) => Ok(()),
    }
}

/// Where a call's frame is active.
pub(crate) fn beat_source(
    alloc: Global,
    sight: &Sight<'_>,
    modes: &[Asked<'_>],
    clock: Clock<'_>,
    manner: Manner<'_>,
) -> Result<Source, AllocError>
    ensures { IfOk result (λ e. source_view e ≡ beat_source (sight_view sight.now) (all_asked_view modes.now)
        (clock_seen clock.entry) (manner_view manner.entry)) }
{
    match manner {
        Manner::Plain => Ok(Source::Runs(switch_of(sight, clock))),
        Manner::While(condition) => {
            let condition = resolved(alloc, sight, modes, condition)?;
            Ok(Source::RunsWhile(switch_of(sight, clock), condition))
        }
        Manner::Import(_) => Ok(Source::Same(sight.beat)),
    }
}

/// What gives an input its value, of a call on that clock with that beat.
fn argument_source(
    alloc: Global,
    sight: &Sight<'_>,
    modes: &[Asked<'_>],
    beat: u32,
    clock: Clock<'_>,
    argument: &Expr,
) -> Result<Source, AllocError>
    ensures { IfOk result (λ e. source_view e ≡ argument_source (sight_view sight.now) (all_asked_view modes.now)
        beat (clock_seen clock.entry) (expr_view argument.now)) }
{
    let value = resolved(alloc, sight, modes, argument)?;
    Ok(Source::Argument(beat, switch_of(sight, clock), value))
}

/// The sources, and behind them those of the inputs of a call.
fn push_arguments(
    alloc: Global,
    sources: &mut Vec<Source>,
    sight: &Sight<'_>,
    modes: &[Asked<'_>],
    beat: u32,
    clock: Clock<'_>,
    arguments: &[Expr],
) -> Result<(), AllocError>
    ensures { OnOk result (sources_view sources.new.items ≡ sources_view sources.old.items
        ++ map (argument_source (sight_view sight.now) (all_asked_view modes.now) beat (clock_seen clock.entry))
        (map expr_view arguments.now)) }
{
    for argument in arguments {
        let source = argument_source(alloc, sight, modes, beat, clock, argument)?;
        sources.push(source)?;
    }
    Ok(())
}

/// The sources, and behind them those of the outputs of an import, which are these names.
fn push_names(
    sources: &mut Vec<Source>,
    sight: &Sight<'_>,
    names: &[PlacedName],
) -> Result<(), AllocError>
    ensures { OnOk result (sources_view sources.new.items ≡ sources_view sources.old.items
        ++ map (shared_source (sight_view sight.now)) (map text_of (map word_view names.now))) }
{
    for name in names {
        sources.push(Source::Same(name_number(sight, &name.text)))?;
    }
    Ok(())
}

/// The sources, and behind them those of the outputs of a call that its caller gives.
fn push_shared(
    sources: &mut Vec<Source>,
    sight: &Sight<'_>,
    manner: Manner<'_>,
) -> Result<(), AllocError>
    ensures { OnOk result (sources_view sources.new.items ≡ sources_view sources.old.items
        ++ shared_sources (sight_view sight.now) (manner_view manner.entry)) }
{
    match manner {
        Manner::Import(names) => push_names(sources, sight, names),
        Manner::Plain | Manner::While(_) => Ok(()),
    }
}

/// What a caller gives to the first names of a call's frame, which has this beat.
pub(crate) fn from_call(
    alloc: Global,
    sight: &Sight<'_>,
    modes: &[Asked<'_>],
    beat: u32,
    site: Site<'_>,
) -> Result<Vec<Source>, AllocError>
    ensures { IfOk result (λ v. sources_view v.items ≡ from_call (sight_view sight.now) (all_asked_view modes.now)
        beat (site_view site.entry)) }
{
    let mut sources = Vec::new(alloc);
    push_arguments(
        alloc,
        &mut sources,
        sight,
        modes,
        beat,
        site.clock,
        site.arguments,
    )?;
    push_shared(&mut sources, sight, site.manner)?;
    Ok(sources)
}
