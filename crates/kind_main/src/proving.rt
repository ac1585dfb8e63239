//! The command `prove`.
ghost use Rattle.std.specs.Prelude.{◌≡◌, ◌≤◌, IfOk, List, Some, ℕ};
ghost use Rattle.lus_tree.specs.Lookup.{node_at};
ghost use Rattle.lus_tree.specs.View.{node_view, program_view};
ghost use Rattle.lus_checked.specs.Program.{main_of, tree_of};
ghost use Rattle.kind_main.specs.Ending.{IfEnded, lines_view};
ghost use Rattle.kind_main.specs.Options.{IsInRange};
ghost use Rattle.kind_main.specs.Proved.{EndsProof};
ghost use Rattle.kind_main.specs.Proof.{IsProofOf};
ghost use Rattle.kind_main.specs.Verdicts.{IsAnalysed};

use crate::ending::{Report, Stopped};
use crate::fetching::fetch;
use crate::options::Options;
use crate::outcome::outcomes;
use crate::source::read_source;
use crate::tally::{Tally, summary_text};
use crate::verdicts::verdict_report;
use depth_laws::laws::{depth_of_step, whole_causes_are_depths};
use kind_io::Shelf;
use lus_checked::Checked;
use lus_properties::properties;
use lus_streams::owner::Owner;
use lus_tree::{Node, Program};
use source_laws::laws::identified_sources;
use std::alloc::{AllocError, Global};
use sys_frames::system;
use term_laws::laws::{as_many_formulas, mild_systems, small_systems};
use verdict_laws::laws::{depths_of_runs, inductive_runs_hold};

/// What is proved of a node or function of a program.
fn proof_report(
    alloc: Global,
    program: &Program,
    node: &Node,
    options: Options,
) -> Result<Report, AllocError>
    requires analysed { IsAnalysed (program_view program.now) (node_view node.now) }
    requires range { IsInRange options }
    ensures { IfOk result (λ r. IsProofOf options (program_view program.now) (node_view node.now)
        (lines_view r.lines.items) r.status.code) }
{
    mild_systems();
    small_systems();
    as_many_formulas();
    depths_of_runs();
    depth_of_step();
    whole_causes_are_depths();
    inductive_runs_hold();
    let system = system(alloc, program, Owner::Node(node))?;
    let outcomes = outcomes(alloc, program, node, system, options)?;
    let properties = properties(alloc, program, Owner::Node(node))?;
    let mut lines = verdict_report(alloc, program, node, &properties, &outcomes)?;
    let tally = Tally::of(&outcomes);
    let summary = summary_text(alloc, tally)?;
    lines.push(summary.into_bytes())?;
    Ok(Report {
        lines,
        status: tally.status(),
    })
}

/// The main node or function of a program.
fn main_node(checked: &Checked) -> &Node
    ensures { node_at (main_of checked.now) (tree_of checked.now) ≡ Some (node_view result.now) }
{
    match checked.program().node(checked.main()) {
        Some(node) => node,
        None => unreachable!(),
    }
}

/// Decides the properties of a source. What the shelf tells of each name stays the same.
pub fn prove_file<H: Shelf>(
    alloc: Global,
    source: &str,
    options: Options,
    shelf: &mut H,
) -> Result<Report, Stopped>
    requires { IsInRange options }
    ensures ended { IfEnded (EndsProof options (H.told shelf.old) (H.faults shelf.old)
        (H.faults shelf.new) source.now) result }
    ensures names { (name : List ℕ) → H.told shelf.new name ≡ H.told shelf.old name }
{
    identified_sources();
    let bytes = fetch(alloc, source, shelf)?;
    let checked = read_source(alloc, &bytes)?;
    let program = checked.program();
    let node = main_node(&checked);
    Ok(proof_report(alloc, program, node, options)?)
}
