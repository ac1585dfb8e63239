//! The lines of the verdicts.
ghost use Rattle.std.specs.Prelude.{◌≡◌, ◌++◌, [], ◌∷◌, map, length, Contains, IfOk, OnOk, List, codes, decimal, option_map, option_to_list};
ghost use Rattle.std.specs.String.{string_bytes};
ghost use Rattle.kind_num.specs.declared.Past.{Past as Operation};
ghost use Rattle.proof_steps.specs.StopView.{stop_view};
ghost use Rattle.lus_tree.specs.View.{node_view, program_view};
ghost use Rattle.lus_meaning.specs.Label.{path_text};
ghost use Rattle.lus_meaning.specs.Program.{instance_of};
ghost use Rattle.lus_meaning.specs.TraceView.{spot_view};
ghost use Rattle.lus_properties.specs.Texts.{mark_text};
ghost use Rattle.lus_properties.specs.Views.{property_view};
ghost use Rattle.path_traces.specs.Printed.{place_view, printed_place};
ghost use Rattle.trace_text.specs.Words.{subject_text};
ghost use Rattle.board_core.specs.View.{cause_view};
ghost use Rattle.kind_main.specs.Causes.{because_view};
ghost use Rattle.kind_main.specs.Options.{number_of};
ghost use Rattle.kind_main.specs.Ending.{lines_view};
ghost use Rattle.kind_main.specs.Lines.{past_text};
ghost use Rattle.kind_main.specs.Verdicts.{because_text, engine_text, falsifiable_lines, IsAnalysed, more_text, unknown, halt_text, outcome_view, outcomes_view, place_text, verdict_lines, verdict_report as report_of_verdicts, why_text};

use crate::cause::Because;
use crate::options::EngineName;
use crate::outcome::Outcome;
use crate::text::past_words;
use board_core::Cause;
use kind_num::Past;
use lus_meaning::Spot;
use lus_properties::{Property, label_text};
use lus_streams::owner::Owner;
use lus_tree::{Node, Program};
use path_traces::{Place, place_of};
use proof_steps::Stop;
use std::alloc::{AllocError, Global};

fn past(alloc: Global, past: Past) -> Result<String, AllocError>
    ensures { IfOk result (λ text. string_bytes text ≡ codes "past 128 bits " ++ past_text past) }
{
    let words = past_words(alloc, past)?;
    format!(in alloc; "past 128 bits {words}")
}

/// The budget that was spent, or the operation whose result has more than 128 bits.
fn stop_text(alloc: Global, stop: &Stop) -> Result<String, AllocError>
    ensures { IfOk result (λ text. string_bytes text ≡ halt_text (stop_view stop.now)) }
{
    match stop {
        Stop::Conflicts(clauses, _) => {
            let count = clauses.len();
            format!(in alloc; "conflicts {count}")
        }
        Stop::Splits(pairs) => {
            let count = pairs.len();
            format!(in alloc; "splits {count}")
        }
        Stop::Pivots(start, _) => {
            let count = start.pivots;
            format!(in alloc; "pivots {count}")
        }
        Stop::Past(step, _) => past(alloc, step.past),
    }
}

/// The text, and behind it a number and a dot.
fn with_number(alloc: Global, text: &str, number: u32) -> Result<String, AllocError>
    ensures { IfOk result (λ s. string_bytes s ≡ text.now ++ (decimal number ++ codes ".")) }
{
    format!(in alloc; "{text}{number}.")
}

/// The calls on the way to a frame, each with a dot.
fn way_text(alloc: Global, path: &[u32]) -> Result<String, AllocError>
    ensures { IfOk result (λ s. string_bytes s ≡ path_text path.now) }
{
    let mut text = String::new(alloc);
    for number in path {
        text = with_number(alloc, &text, *number)?;
    }
    Ok(text)
}

/// A name, or `#` and the number of a first value.
fn spot_text(alloc: Global, what: &Spot) -> Result<String, AllocError>
    ensures { IfOk result (λ s. string_bytes s ≡ subject_text (spot_view what.now)) }
{
    match what {
        Spot::Name(name) => format!(in alloc; "{name}"),
        Spot::First(number) => format!(in alloc; "#{number}"),
    }
}

/// A place as a trace has it; nothing where there is none.
fn place_words(alloc: Global, place: &Option<Place>) -> Result<String, AllocError>
    ensures { IfOk result (λ s. string_bytes s ≡ place_text (option_map place_view place.now)) }
{
    match place {
        None => Ok(String::new(alloc)),
        Some(place) => {
            let way = way_text(alloc, &place.path)?;
            let what = spot_text(alloc, &place.what)?;
            format!(in alloc; "{way}{what}")
        }
    }
}

/// The place of the variable of that number in the system of a node, as a trace has it.
fn variable_text(
    alloc: Global,
    program: &Program,
    node: &Node,
    number: u32,
) -> Result<String, AllocError>
    requires { IsAnalysed (program_view program.now) (node_view node.now) }
    ensures { IfOk result (λ s. string_bytes s ≡ place_text
        (printed_place (instance_of (program_view program.now) (node_view node.now)) number)) }
{
    let place = place_of(alloc, program, Owner::Node(node), number)?;
    place_words(alloc, &place)
}

fn cause_text(
    alloc: Global,
    program: &Program,
    node: &Node,
    cause: &Cause,
) -> Result<String, AllocError>
    requires { IsAnalysed (program_view program.now) (node_view node.now) }
    ensures { IfOk result (λ text. string_bytes text ≡ why_text
        (instance_of (program_view program.now) (node_view node.now)) (cause_view cause.now)) }
{
    match cause {
        Cause::Depth(depth) => format!(in alloc; "depth {depth}"),
        Cause::Frames(frames) => format!(in alloc; "frames {frames}"),
        Cause::Blocked(clauses) => format!(in alloc; "blocked {clauses}"),
        Cause::Done(candidates) => format!(in alloc; "done {candidates}"),
        Cause::Stop(stop) => stop_text(alloc, stop),
        Cause::Wide {
            number,
            instant,
            value,
            ..
        } => {
            let place = variable_text(alloc, program, node, *number)?;
            format!(in alloc; "wide {place} at {instant} value {value}")
        }
    }
}

fn engine_word(engine: EngineName) -> &'static str
    ensures { result.now ≡ engine_text (number_of engine) }
{
    match engine {
        EngineName::Bounded => "bounded",
        EngineName::Step => "step",
    }
}

/// An engine and its cause.
fn because_line(
    alloc: Global,
    program: &Program,
    node: &Node,
    because: &Because,
) -> Result<String, AllocError>
    requires { IsAnalysed (program_view program.now) (node_view node.now) }
    ensures { IfOk result (λ text. string_bytes text ≡ because_text
        (instance_of (program_view program.now) (node_view node.now)) (because_view because.now)) }
{
    let engine = engine_word(because.engine);
    let cause = cause_text(alloc, program, node, &because.cause)?;
    format!(in alloc; "{engine} {cause}")
}

/// The second engine and its cause, where there is one.
fn second_text(
    alloc: Global,
    program: &Program,
    node: &Node,
    second: &Option<Because>,
) -> Result<String, AllocError>
    requires { IsAnalysed (program_view program.now) (node_view node.now) }
    ensures { IfOk result (λ text. string_bytes text ≡ more_text
        (instance_of (program_view program.now) (node_view node.now))
        (option_to_list (option_map because_view second.now))) }
{
    match second {
        None => Ok(String::new(alloc)),
        Some(because) => {
            let text = because_line(alloc, program, node, because)?;
            format!(in alloc; "; {text}")
        }
    }
}

/// Adds a line behind two spaces.
fn push_indented(alloc: Global, line: &[u8], lines: &mut Vec<Vec<u8>>) -> Result<(), AllocError>
    ensures { OnOk result (lines_view lines.new.items ≡ lines_view lines.old.items ++ (codes "  " ++ line.now) ∷ []) }
{
    let mut indented = Vec::from_slice(alloc, b"  ")?;
    indented.extend_from_slice(line)?;
    lines.push(indented)?;
    Ok(())
}

/// Adds the lines of a trace, each behind two spaces.
fn push_trace(alloc: Global, trace: &[Vec<u8>], lines: &mut Vec<Vec<u8>>) -> Result<(), AllocError>
    ensures { OnOk result (lines_view lines.new.items ≡ lines_view lines.old.items ++ map (λ l. codes "  " ++ l)
        (lines_view trace.now)) }
{
    for line in trace {
        push_indented(alloc, line, lines)?;
    }
    Ok(())
}

/// Adds a line.
fn push_line(lines: &mut Vec<Vec<u8>>, line: String) -> Result<(), AllocError>
    ensures { OnOk result (lines_view lines.new.items ≡ lines_view lines.old.items ++ string_bytes line ∷ []) }
{
    lines.push(line.into_bytes())?;
    Ok(())
}

/// Adds the lines of a property that a trace breaks.
fn push_falsifiable(
    alloc: Global,
    label: &str,
    last: u32,
    trace: &[Vec<u8>],
    lines: &mut Vec<Vec<u8>>,
) -> Result<(), AllocError>
    ensures { OnOk result (lines_view lines.new.items ≡ lines_view lines.old.items
        ++ falsifiable_lines label.now last (lines_view trace.now)) }
{
    let line = format!(in alloc; "falsifiable {label} at {last}\n")?;
    push_line(lines, line)?;
    push_trace(alloc, trace, lines)?;
    Ok(())
}

/// Adds the line of a property of which neither was found.
fn push_unknown(
    alloc: Global,
    program: &Program,
    node: &Node,
    label: &str,
    first: &Because,
    second: &Option<Because>,
    lines: &mut Vec<Vec<u8>>,
) -> Result<(), AllocError>
    requires { IsAnalysed (program_view program.now) (node_view node.now) }
    ensures { OnOk result (lines_view lines.new.items ≡ lines_view lines.old.items ++ verdict_lines
        (instance_of (program_view program.now) (node_view node.now)) label.now
        (unknown (because_view first.now ∷ option_to_list (option_map because_view second.now)))) }
{
    let first = because_line(alloc, program, node, first)?;
    let second = second_text(alloc, program, node, second)?;
    let line = format!(in alloc; "unknown {label}: {first}{second}\n")?;
    push_line(lines, line)
}

/// Adds the lines of the verdict on the property with this label.
fn push_outcome(
    alloc: Global,
    program: &Program,
    node: &Node,
    label: &str,
    outcome: &Outcome,
    lines: &mut Vec<Vec<u8>>,
) -> Result<(), AllocError>
    requires { IsAnalysed (program_view program.now) (node_view node.now) }
    ensures { OnOk result (lines_view lines.new.items ≡ lines_view lines.old.items ++ verdict_lines
        (instance_of (program_view program.now) (node_view node.now)) label.now (outcome_view outcome.now)) }
{
    match outcome {
        Outcome::Valid => push_line(lines, format!(in alloc; "valid {label}\n")?),
        Outcome::Falsifiable { last, trace } => push_falsifiable(alloc, label, *last, trace, lines),
        Outcome::Unknown { first, second } => {
            push_unknown(alloc, program, node, label, first, second, lines)
        }
    }
}

/// Adds the lines of a property's verdict.
fn push_verdict(
    alloc: Global,
    program: &Program,
    node: &Node,
    property: &Property<'_>,
    outcome: &Outcome,
    lines: &mut Vec<Vec<u8>>,
) -> Result<(), AllocError>
    requires { IsAnalysed (program_view program.now) (node_view node.now) }
    ensures { OnOk result (lines_view lines.new.items ≡ lines_view lines.old.items ++ verdict_lines
        (instance_of (program_view program.now) (node_view node.now)) (mark_text (property_view property.now))
        (outcome_view outcome.now)) }
{
    let label = label_text(alloc, property)?;
    push_outcome(alloc, program, node, label.as_str(), outcome, lines)
}

/// The lines of the verdicts on the properties of a node or function, in order.
pub fn verdict_report(
    alloc: Global,
    program: &Program,
    node: &Node,
    properties: &[Property<'_>],
    outcomes: &[Outcome],
) -> Result<Vec<Vec<u8>>, AllocError>
    requires analysed { IsAnalysed (program_view program.now) (node_view node.now) }
    requires many { length properties.now ≡ length outcomes.now }
    ensures { IfOk result (λ v. lines_view v.items ≡ report_of_verdicts
        (instance_of (program_view program.now) (node_view node.now))
        (map (λ q. mark_text (property_view q)) properties.now) (outcomes_view outcomes.now)) }
{
    let mut lines = Vec::new(alloc);
    for i in 0..outcomes.len() {
        push_verdict(
            alloc,
            program,
            node,
            &properties[i],
            &outcomes[i],
            &mut lines,
        )?;
    }
    Ok(lines)
}
