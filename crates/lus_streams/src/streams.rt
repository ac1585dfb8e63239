//! The streams of a declaration by their names.

ghost use Rattle.std.specs.Prelude.{◌∷◌, [], IfOk, map};
ghost use Rattle.lus_tree.specs.View.{contract_item_view, param_view};
ghost use Rattle.lus_meaning.specs.Scene.{ghosts, variables};
ghost use Rattle.lus_streams.specs.Owner.{owner_view};
ghost use Rattle.lus_streams.specs.Streams.{Adds, AreOf};

use crate::owner::Owner;
use lus_tree::{ContractItem, Param};
use name_table::NameTable;
use std::alloc::{AllocError, Global};

/// Streams by their names, the first of each name, in the order of the table's numbers.
#[derive(Drop)]
pub struct Streams<'a> {
    pub numbers: NameTable,
    pub firsts: Vec<&'a Param>,
}

/// Adds a stream, where it is the first of its name.
fn add<'a>(alloc: Global, streams: &mut Streams<'a>, stream: &'a Param) -> Result<(), AllocError>
    ensures { IfOk result (λ _. Adds streams.old streams.new (param_view stream.now ∷ [])) }
{
    if !streams.numbers.add(alloc, &stream.name.text)? {
        return Ok(());
    }
    streams.firsts.push(stream)?;
    Ok(())
}

/// Adds streams.
fn add_all<'a>(alloc: Global, streams: &mut Streams<'a>, all: &'a [Param]) -> Result<(), AllocError>
    ensures { IfOk result (λ _. Adds streams.old streams.new (map param_view all.now)) }
{
    for stream in all {
        add(alloc, streams, stream)?;
    }
    Ok(())
}

/// Adds an item's ghost variable, where it is one.
fn add_ghost<'a>(
    alloc: Global,
    streams: &mut Streams<'a>,
    item: &'a ContractItem,
) -> Result<(), AllocError>
    ensures { IfOk result (λ _. Adds streams.old streams.new (ghosts (contract_item_view item.now ∷ []))) }
{
    if let ContractItem::Ghost(stream, _) = item {
        add(alloc, streams, stream)?;
    }
    Ok(())
}

/// Adds the ghost variables of a contract.
fn add_ghosts<'a>(
    alloc: Global,
    streams: &mut Streams<'a>,
    items: &'a [ContractItem],
) -> Result<(), AllocError>
    ensures { IfOk result (λ _. Adds streams.old streams.new (ghosts (map contract_item_view items.now))) }
{
    for item in items {
        add_ghost(alloc, streams, item)?;
    }
    Ok(())
}

/// The streams of a declaration.
///
/// # Errors
///
/// Want of memory.
pub fn streams_of(alloc: Global, owner: Owner<'_>) -> Result<Streams<'_>, AllocError>
    ensures { IfOk result (λ s. AreOf s (variables (owner_view owner.entry))) }
{
    let mut streams = Streams {
        numbers: NameTable::new(alloc),
        firsts: Vec::new(alloc),
    };
    add_all(alloc, &mut streams, owner.inputs())?;
    add_all(alloc, &mut streams, owner.outputs())?;
    add_all(alloc, &mut streams, owner.locals())?;
    add_ghosts(alloc, &mut streams, owner.contract())?;
    Ok(streams)
}
