//! What the callers of a declaration have to know of it.

ghost use Rattle.std.specs.Prelude.{◌≡◌, ◌++◌, ◌∷◌, ◌≤◌, [], IfOk, length, map};
ghost use Rattle.lus_tree.specs.View.{param_view};
ghost use Rattle.number_graphs.specs.Graphs.{graph_view};
ghost use Rattle.lus_order.specs.KnownModes.{AreKnown, IsKnown};
ghost use Rattle.lus_order.specs.Library.{known_modes, texts_seen};
ghost use Rattle.lus_order.specs.MarkedNames.{AreFound};
ghost use Rattle.lus_order.specs.OwnRows.{numbers_of};
ghost use Rattle.lus_streams.specs.Owner.{owner_view};
ghost use Rattle.lus_order.specs.Rows.{ModeRows, mode_view, modes_view};
ghost use Rattle.lus_order.specs.Streams.{names_of};

use crate::found::{found_names, numbers_of};
use crate::library::{Known, KnownMode};
use crate::own::Own;
use crate::rows::{Mode, push_numbers};
use lus_streams::owner::Owner;
use lus_tree::Param;
use name_table::NameTable;
use number_graphs::graph::Graph;
use std::alloc::{AllocError, Global};

/// The names of streams.
fn texts_of(alloc: Global, params: &[Param]) -> Result<Vec<&str>, AllocError>
    ensures { IfOk result (λ v. texts_seen v.items ≡ names_of (map param_view params.now)) }
{
    let mut texts = Vec::new(alloc);
    for param in params {
        texts.push(param.name.text.as_str())?;
    }
    Ok(texts)
}

/// A mode of the contract's own, with what its row leads to.
fn known_mode<'a>(
    alloc: Global,
    graph: &mut Graph,
    names: &NameTable,
    mode: &Mode<'a>,
    inputs: &[&str],
    outputs: &[&str],
) -> Result<KnownMode<'a>, AllocError>
    requires { length names.now ≤ length (graph_view graph.old) }
    ensures same { IfOk result (λ _. graph_view graph.new ≡ graph_view graph.old) }
    ensures name { IfOk result (λ k. k.name.now ≡ mode.now.name.now) }
    ensures found { IfOk result (λ k. AreFound (graph_view graph.old) names.now mode.now.row.items
        (texts_seen inputs.now ++ texts_seen outputs.now) k.reads) }
{
    let mut row = Vec::new(alloc);
    push_numbers(&mut row, &mode.row)?;
    let reads = found_names(alloc, graph, names, row, inputs, outputs)?;
    Ok(KnownMode {
        name: mode.name,
        reads,
    })
}

/// The known modes, and behind them that one, where it is the contract's own.
#[tactic(auto, using(crate::proofs::Summarised::known_more, crate::proofs::Summarised::known_skip))]
fn push_known<'a>(
    alloc: Global,
    known: &mut Vec<KnownMode<'a>>,
    graph: &mut Graph,
    names: &NameTable,
    mode: &Mode<'a>,
    inputs: &[&str],
    outputs: &[&str],
) -> Result<(), AllocError>
    requires { length names.now ≤ length (graph_view graph.old) }
    ensures same { IfOk result (λ _. graph_view graph.new ≡ graph_view graph.old) }
    ensures known { IfOk result (λ _. (ms : ModeRows)
        → AreKnown (graph_view graph.old) names.now (texts_seen inputs.now ++ texts_seen outputs.now) ms
        (known_modes known.old.items)
        → AreKnown (graph_view graph.old) names.now (texts_seen inputs.now ++ texts_seen outputs.now)
        (ms ++ mode_view mode.now ∷ []) (known_modes known.new.items)) }
{
    match mode.contract {
        None => {
            let mode = known_mode(alloc, graph, names, mode, inputs, outputs)?;
            known.push(mode)?;
            Ok(())
        }
        Some(_) => Ok(()),
    }
}

/// What the rows of the contract's own modes lead to.
fn known_modes<'a>(
    alloc: Global,
    graph: &mut Graph,
    names: &NameTable,
    modes: &[Mode<'a>],
    inputs: &[&str],
    outputs: &[&str],
) -> Result<Vec<KnownMode<'a>>, AllocError>
    requires { length names.now ≤ length (graph_view graph.old) }
    ensures same { IfOk result (λ _. graph_view graph.new ≡ graph_view graph.old) }
    ensures known { IfOk result (λ v. AreKnown (graph_view graph.old) names.now
        (texts_seen inputs.now ++ texts_seen outputs.now) (modes_view modes.now) (known_modes v.items)) }
{
    let mut known = Vec::new(alloc);
    for mode in modes {
        push_known(alloc, &mut known, graph, names, mode, inputs, outputs)?;
    }
    Ok(known)
}

/// Those of the inputs and outputs to which the outputs lead by one step or several. The graph is as it was.
fn output_names(
    alloc: Global,
    graph: &mut Graph,
    names: &NameTable,
    inputs: &[&str],
    outputs: &[&str],
) -> Result<NameTable, AllocError>
    requires { length names.now ≤ length (graph_view graph.old) }
    ensures same { IfOk result (λ _. graph_view graph.new ≡ graph_view graph.old) }
    ensures found { IfOk result (λ t. AreFound (graph_view graph.old) names.now
        (numbers_of names.now (texts_seen outputs.now))
        (texts_seen inputs.now ++ texts_seen outputs.now) t) }
{
    let row = numbers_of(alloc, names, outputs)?;
    found_names(alloc, graph, names, row, inputs, outputs)
}

/// What the outputs of a declaration lead to, and its modes. The graph is as it was.
fn found_in<'a>(
    alloc: Global,
    own: &mut Own<'a>,
    inputs: &[&str],
    outputs: &[&str],
) -> Result<(NameTable, Vec<KnownMode<'a>>), AllocError>
    requires { length own.old.clocks.names ≤ length (graph_view own.old.graph) }
    ensures same { IfOk result (λ _. graph_view own.new.graph ≡ graph_view own.old.graph) }
    ensures reads { IfOk result (λ k. AreFound (graph_view own.old.graph) own.old.clocks.names
        (numbers_of own.old.clocks.names (texts_seen outputs.now)) (texts_seen inputs.now
        ++ texts_seen outputs.now) k.0) }
    ensures modes { IfOk result (λ k. AreKnown (graph_view own.old.graph) own.old.clocks.names
        (texts_seen inputs.now ++ texts_seen outputs.now) (modes_view own.old.modes.items) (known_modes k.1.items)) }
{
    let names = &own.clocks.names;
    let reads = output_names(alloc, &mut own.graph, names, inputs, outputs)?;
    let modes = known_modes(alloc, &mut own.graph, names, &own.modes, inputs, outputs)?;
    Ok((reads, modes))
}

/// What the callers of a declaration have to know of it. The graph is as it was.
///
/// # Errors
///
/// Want of memory.
pub(crate) fn known_of<'a>(
    alloc: Global,
    own: &mut Own<'a>,
    owner: Owner<'a>,
) -> Result<Known<'a>, AllocError>
    requires { length own.old.clocks.names ≤ length (graph_view own.old.graph) }
    ensures same { IfOk result (λ _. graph_view own.new.graph ≡ graph_view own.old.graph) }
    ensures known { IfOk result (λ k. IsKnown (owner_view owner.entry) (graph_view own.old.graph) own.old.clocks.names
        (modes_view own.old.modes.items) k) }
{
    let inputs = texts_of(alloc, owner.inputs())?;
    let outputs = texts_of(alloc, owner.outputs())?;
    let (reads, modes) = found_in(alloc, own, &inputs, &outputs)?;
    Ok(Known {
        inputs,
        outputs,
        reads,
        modes,
    })
}
