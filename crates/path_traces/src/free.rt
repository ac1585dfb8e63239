//! The streams of a declaration, and those that no equation defines.

ghost use Rattle.std.specs.Prelude.{◌≡◌, ◌++◌, ◌∷◌, [], IfOk, OnOk, map};
ghost use Rattle.lus_tree.specs.View.{contract_item_view, param_view};
ghost use Rattle.lus_meaning.specs.Scene.{ghosts, variables};
ghost use Rattle.lus_meaning.specs.Trace.{free_names};
ghost use Rattle.lus_streams.specs.Owner.{owner_view};
ghost use Rattle.lus_streams.specs.Streams.{params_view};
ghost use Rattle.path_traces.specs.Plans.{unnamed_in};

use crate::defined::add_defined;
use lus_streams::owner::Owner;
use lus_tree::{ContractItem, Param};
use name_table::NameTable;
use std::alloc::{AllocError, Global};

/// The streams, and behind them these.
fn push_all<'a>(streams: &mut Vec<&'a Param>, params: &'a [Param]) -> Result<(), AllocError>
    ensures { OnOk result (params_view streams.new.items ≡ params_view streams.old.items ++ map param_view params.now) }
{
    for param in params {
        streams.push(param)?;
    }
    Ok(())
}

/// The streams, and behind them an item's ghost variable, where it is one.
fn push_ghost<'a>(streams: &mut Vec<&'a Param>, item: &'a ContractItem) -> Result<(), AllocError>
    ensures { OnOk result (params_view streams.new.items ≡ params_view streams.old.items
        ++ ghosts (contract_item_view item.now ∷ [])) }
{
    if let ContractItem::Ghost(param, _) = item {
        streams.push(param)?;
    }
    Ok(())
}

/// The streams, and behind them the ghost variables of a contract.
fn push_ghosts<'a>(
    streams: &mut Vec<&'a Param>,
    items: &'a [ContractItem],
) -> Result<(), AllocError>
    ensures { OnOk result (params_view streams.new.items ≡ params_view streams.old.items
        ++ ghosts (map contract_item_view items.now)) }
{
    for item in items {
        push_ghost(streams, item)?;
    }
    Ok(())
}

/// The streams of a declaration, in the order of its frame.
pub(crate) fn streams_of(alloc: Global, owner: Owner<'_>) -> Result<Vec<&Param>, AllocError>
    ensures { IfOk result (λ v. params_view v.items ≡ variables (owner_view owner.entry)) }
{
    let mut streams = Vec::new(alloc);
    push_all(&mut streams, owner.inputs())?;
    push_all(&mut streams, owner.outputs())?;
    push_all(&mut streams, owner.locals())?;
    push_ghosts(&mut streams, owner.contract())?;
    Ok(streams)
}

/// The streams, and behind them one whose name isn't in the table.
fn push_if_free<'a>(
    streams: &mut Vec<&'a Param>,
    defined: &NameTable,
    param: &'a Param,
) -> Result<(), AllocError>
    ensures { OnOk result (params_view streams.new.items ≡ params_view streams.old.items
        ++ unnamed_in defined.now (param_view param.now ∷ [])) }
{
    if !defined.has(&param.name.text) {
        streams.push(param)?;
    }
    Ok(())
}

/// The streams, and behind them those of these whose names aren't in the table.
fn push_free<'a>(
    streams: &mut Vec<&'a Param>,
    defined: &NameTable,
    params: &'a [Param],
) -> Result<(), AllocError>
    ensures { OnOk result (params_view streams.new.items ≡ params_view streams.old.items
        ++ unnamed_in defined.now (map param_view params.now)) }
{
    for param in params {
        push_if_free(streams, defined, param)?;
    }
    Ok(())
}

/// The outputs and locals whose names aren't in the table.
fn unnamed_in<'a>(
    alloc: Global,
    defined: &NameTable,
    owner: Owner<'a>,
) -> Result<Vec<&'a Param>, AllocError>
    ensures { IfOk result (λ v. params_view v.items ≡ unnamed_in defined.now (owner_view owner.entry).outputs
        ++ unnamed_in defined.now (owner_view owner.entry).locals) }
{
    let mut free = Vec::new(alloc);
    push_free(&mut free, defined, owner.outputs())?;
    push_free(&mut free, defined, owner.locals())?;
    Ok(free)
}

/// The outputs and locals that no equation defines.
#[tactic(auto, using(crate::proofs::FreeNames::both_free))]
pub(crate) fn free_of(alloc: Global, owner: Owner<'_>) -> Result<Vec<&Param>, AllocError>
    ensures { IfOk result (λ v. params_view v.items ≡ free_names (owner_view owner.entry)) }
{
    let mut defined = NameTable::new(alloc);
    add_defined(alloc, &mut defined, owner)?;
    unnamed_in(alloc, &defined, owner)
}

/// The inputs, and behind them these.
pub(crate) fn behind_inputs<'a>(
    alloc: Global,
    inputs: &'a [Param],
    free: &[&'a Param],
) -> Result<Vec<&'a Param>, AllocError>
    ensures { IfOk result (λ v. params_view v.items ≡ map param_view inputs.now ++ params_view free.now) }
{
    let mut listed = Vec::new(alloc);
    push_all(&mut listed, inputs)?;
    listed.extend_from_slice(free)?;
    Ok(listed)
}
