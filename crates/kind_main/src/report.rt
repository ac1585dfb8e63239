//! The lines of the properties that break.
ghost use Rattle.std.specs.Prelude.{◌≡◌, ◌≤◌, ◌<◌, ◌+◌, ◌++◌, length, map, IfOk, OnOk};
ghost use Rattle.lus_properties.specs.Texts.{mark_text};
ghost use Rattle.lus_properties.specs.Views.{property_view};
ghost use Rattle.program_replay.specs.Answer.{replay_view};
ghost use Rattle.kind_main.specs.Ending.{lines_view};
ghost use Rattle.kind_main.specs.Report.{report_from, said};

use crate::text::breaks_text;
use lus_properties::{Property, label_text};
use program_replay::Replay;
use std::alloc::{AllocError, Global};

/// Adds the line of a property with this label, where it breaks.
fn push_break(
    alloc: Global,
    label: &str,
    instant: Option<u32>,
    lines: &mut Vec<Vec<u8>>,
) -> Result<(), AllocError>
    ensures { OnOk result (lines_view lines.new.items ≡ lines_view lines.old.items ++ said label.now instant) }
{
    if let Some(t) = instant {
        let line = breaks_text(alloc, label, t)?;
        lines.push(line.into_bytes())?;
    }
    Ok(())
}

/// Adds the line of the property of that number, where it breaks, and answers the next number.
fn push_property(
    alloc: Global,
    property: &Property<'_>,
    replay: &Replay,
    number: u32,
    lines: &mut Vec<Vec<u8>>,
) -> Result<u32, AllocError>
    requires { number < 500 }
    ensures next { IfOk result (λ n. n ≡ number + 1) }
    ensures added { OnOk result (lines_view lines.new.items ≡ lines_view lines.old.items
        ++ said (mark_text (property_view property.now)) ((replay_view replay.now).breaks number)) }
{
    let label = label_text(alloc, property)?;
    push_break(alloc, &label, replay.breaks(number), lines)?;
    Ok(number + 1)
}

/// The lines of the properties that a replay shows to break.
pub fn break_lines(
    alloc: Global,
    properties: &[Property<'_>],
    replay: &Replay,
) -> Result<Vec<Vec<u8>>, AllocError>
    requires { length properties.now ≤ 500 }
    ensures { IfOk result (λ v. lines_view v.items ≡ report_from 0
        (map (λ q. mark_text (property_view q)) properties.now) (replay_view replay.now).breaks) }
{
    let mut lines = Vec::new(alloc);
    let mut number = 0;
    for property in properties {
        number = push_property(alloc, property, replay, number, &mut lines)?;
    }
    Ok(lines)
}
