//! What is said of a property.
ghost use Rattle.std.specs.Prelude.{◌≡◌, true, false, ◌<◌, ◌≤◌, ◌^◌, All, IfOk, length};
ghost use Rattle.lus_tree.specs.View.{node_view, program_view};
ghost use Rattle.lus_meaning.specs.Program.{instance_of};
ghost use Rattle.lus_meaning.specs.Property.{properties};
ghost use Rattle.sys_terms.specs.Fits.{is_narrow};
ghost use Rattle.sys_terms.specs.Paths.{Breaks as PathBreaks};
ghost use Rattle.sys_terms.specs.View.{states_view, system_view};
ghost use Rattle.sys_meaning.specs.System.{system_of};
ghost use Rattle.board_core.specs.Books.{history_of, machine_of};
ghost use Rattle.board_core.specs.Entries.{IsBroken};
ghost use Rattle.board_core.specs.Verdicts.{decides};
ghost use Rattle.kind_engine.specs.Ready.{IsReady};
ghost use Rattle.kind_main.specs.Options.{numbers_of, options_plan};
ghost use Rattle.kind_main.specs.Causes.{because_view};
ghost use Rattle.kind_main.specs.Played.{AreCausesOf, IsBreakAt, IsBreakOf, IsBrokenAt, IsPlayed};
ghost use Rattle.kind_main.specs.Verdicts.{AreOfOneBook, AreTrueVerdicts, IsAnalysed, IsTrueOfNumber, outcome_view, outcomes_view};

use crate::cause::{Because, cause_in};
use crate::options::Options;
use crate::playing::played;
use crate::text_lines::text_lines;
use board_core::laws::verdicts_are_true;
use board_core::{Book, Fact, Verdict};
use lus_streams::owner::Owner;
use lus_tree::{Node, Program};
use path_laws::laws::{each_has_traces, each_verdicts};
use path_traces::trace_of;
use std::alloc::{AllocError, Global};
use sys_terms::{State, System};
use term_laws::laws::{as_many_formulas, small_systems};
use trace_laws::laws::{each_read_back, each_replays, narrow_are_small};
use trace_text::write_trace;
use within_laws::laws::small_runs_stay_within;

/// What is said of a property.
#[derive(Drop)]
pub enum Outcome {
    /// It holds.
    Valid,
    /// A trace breaks it first at this instant, the trace's last. The lines are the trace's text.
    Falsifiable {
        last: u32,
        trace: Vec<Vec<u8>>,
    },
    /// Neither was found, for these causes of the engines, in the order of the options.
    Unknown {
        first: Because,
        second: Option<Because>,
    },
}

/// The trace of a path that breaks a property.
fn broken(
    alloc: Global,
    program: &Program,
    node: &Node,
    path: &[State],
    property: u32,
) -> Result<Outcome, AllocError>
    requires analysed { IsAnalysed (program_view program.now) (node_view node.now) }
    requires broken { IsBroken (system_of (instance_of (program_view program.now) (node_view node.now))) property
        (states_view path.now) }
    ensures { IfOk result (λ o. IsBreakOf (program_view program.now) (node_view node.now) property
        (states_view path.now)
        (outcome_view o)) }
{
    narrow_are_small();
    small_systems();
    each_has_traces();
    each_verdicts();
    each_replays();
    each_read_back();
    small_runs_stay_within();
    let trace = trace_of(alloc, program, Owner::Node(node), path)?;
    let Ok(text) = write_trace(alloc, &trace) else {
        return Err(AllocError);
    };
    let lines = text_lines(alloc, &text)?;
    Ok(Outcome::Falsifiable {
        last: path.len() as u32 - 1,
        trace: lines,
    })
}

/// What the entry at this place says, which breaks the property.
fn broken_at(
    alloc: Global,
    program: &Program,
    node: &Node,
    book: &Book,
    property: u32,
    place: u64,
) -> Result<Outcome, AllocError>
    requires analysed { IsAnalysed (program_view program.now) (node_view node.now) }
    requires system { machine_of book.now ≡ system_of (instance_of (program_view program.now) (node_view node.now)) }
    requires broken { IsBrokenAt book.now property place }
    ensures { IfOk result (λ o. IsBreakAt book.now (program_view program.now) (node_view node.now) property place
        (outcome_view o)) }
{
    match book.entry(place) {
        Fact::Broken(_, path) => broken(alloc, program, node, path, property),
        _ => unreachable!(),
    }
}

/// The causes of the engines for a property that the book leaves undecided.
fn undecided(
    alloc: Global,
    book: &Book,
    options: Options,
    property: u32,
) -> Result<Outcome, AllocError>
    requires played { IsPlayed options book.now }
    requires named { property < length (machine_of book.now).properties }
    requires open { decides property (history_of book.now) ≡ false }
    ensures { IfOk result (λ o. AreCausesOf options book.now property (outcome_view o)) }
{
    let (first, second) = options.engines.names();
    let first = cause_in(alloc, book, first, property)?;
    let second = match second {
        None => None,
        Some(engine) => Some(cause_in(alloc, book, engine, property)?),
    };
    Ok(Outcome::Unknown { first, second })
}

/// What is said of the property of this number, by the book of the node's system.
fn said_of(
    alloc: Global,
    program: &Program,
    node: &Node,
    book: &Book,
    options: Options,
    property: u32,
) -> Result<Outcome, AllocError>
    requires analysed { IsAnalysed (program_view program.now) (node_view node.now) }
    requires system { machine_of book.now ≡ system_of (instance_of (program_view program.now) (node_view node.now)) }
    requires played { IsPlayed options book.now }
    requires named { property < length (machine_of book.now).properties }
    ensures { IfOk result (λ o. IsTrueOfNumber options (program_view program.now) (node_view node.now)
        (history_of book.now) property (outcome_view o)) }
{
    each_verdicts();
    verdicts_are_true();
    match book.verdict(property) {
        Verdict::Valid(_) => Ok(Outcome::Valid),
        Verdict::Falsifiable(place) => broken_at(alloc, program, node, book, property, place),
        Verdict::Unknown => undecided(alloc, book, options, property),
    }
}

/// What is said of each property, in order, by the book of the node's system, which has so many.
fn outcomes_of(
    alloc: Global,
    program: &Program,
    node: &Node,
    book: &Book,
    options: Options,
    count: usize,
) -> Result<Vec<Outcome>, AllocError>
    requires analysed { IsAnalysed (program_view program.now) (node_view node.now) }
    requires system { machine_of book.now ≡ system_of (instance_of (program_view program.now) (node_view node.now)) }
    requires played { IsPlayed options book.now }
    requires counted { count ≡ length (machine_of book.now).properties }
    ensures { IfOk result (λ v. AreTrueVerdicts options (program_view program.now) (node_view node.now)
        (history_of book.now) 0 (properties (instance_of (program_view program.now) (node_view node.now)))
        (outcomes_view v.items)) }
{
    as_many_formulas();
    let mut outcomes = Vec::new(alloc);
    for i in 0..count {
        outcomes.push(said_of(alloc, program, node, book, options, i as u32)?)?;
    }
    Ok(outcomes)
}

/// What is said of each property of a node or function of a program, in order, by one book of its system.
pub fn outcomes(
    alloc: Global,
    program: &Program,
    node: &Node,
    system: System,
    options: Options,
) -> Result<Vec<Outcome>, AllocError>
    requires analysed { IsAnalysed (program_view program.now) (node_view node.now) }
    requires system { system_view system ≡ system_of (instance_of (program_view program.now) (node_view node.now)) }
    requires ready { IsReady (system_view system) (options_plan options) }
    ensures { IfOk result (λ v. AreOfOneBook options (program_view program.now) (node_view node.now)
        (outcomes_view v.items)) }
{
    let count = system.properties.len();
    let book = played(alloc, system, options)?;
    outcomes_of(alloc, program, node, &book, options, count)
}
