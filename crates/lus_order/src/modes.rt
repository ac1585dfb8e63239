//! What the modes of a contract read, by the numbers of the streams.

ghost use Rattle.std.specs.Prelude.{◌≡◌, ◌++◌, ◌∷◌, [], IfOk, length, map};
ghost use Rattle.lus_tree.specs.View.{contract_item_view, expr_view, named_view, word_view};
ghost use Rattle.lus_order.specs.Library.{known_modes, known_view, library_view, texts_seen};
ghost use Rattle.lus_order.specs.Rows.{asked_row, imported_row, imported_rows, listed_row, mode_rows_after, mode_view, modes_view, shared_row};
ghost use Rattle.number_graphs.specs.Visits.{once};

use crate::library::{Known, KnownMode, Library};
use crate::rows::{Mode, push_asked, push_expression, push_number};
use crate::setting::{Callees, Clocks};
use lus_tree::{ContractItem, Expr, Named, PlacedName};
use name_table::NameTable;
use number_graphs::reach::once;
use std::alloc::{AllocError, Global};

/// A mode of the contract itself, by those before it.
fn own_mode<'a>(
    alloc: Global,
    clocks: &Clocks<'a>,
    callees: &Callees,
    modes: &[Mode<'a>],
    name: &'a PlacedName,
    asked: &'a [Named],
) -> Result<Mode<'a>, AllocError>
    ensures { IfOk result (λ m. mode_view m ≡ (
      ([], (word_view name.now).text),
      once (length clocks.now.names)
          (asked_row clocks.now callees.now (modes_view modes.now) (map named_view asked.now)),
    )) }
{
    let mut row = Vec::new(alloc);
    push_asked(alloc, &mut row, clocks, callees, modes, asked)?;
    let row = once(alloc, clocks.names.len(), &row)?;
    Ok(Mode {
        contract: None,
        name: name.text.as_str(),
        row,
    })
}

/// The row, and behind it what those arguments of an import read whose inputs a mode reads.
fn push_listed<'a>(
    alloc: Global,
    row: &mut Vec<usize>,
    clocks: &Clocks<'a>,
    callees: &Callees,
    modes: &[Mode<'a>],
    reads: &NameTable,
    inputs: &[&str],
    arguments: &'a [Expr],
) -> Result<(), AllocError>
    ensures { IfOk result (λ _. row.new.items ≡ row.old.items
        ++ listed_row clocks.now callees.now (modes_view modes.now)
        reads.now (texts_seen inputs.now) (map expr_view arguments.now)) }
{
    let mut place = 0;
    for argument in arguments {
        if place >= inputs.len() {
            break;
        }
        if reads.has(inputs[place]) {
            push_expression(alloc, row, clocks, callees, modes, None, argument)?;
        }
        place += 1;
    }
    Ok(())
}

/// The row, and behind it the numbers of the names that stand for those outputs that a mode reads.
fn push_shared(
    row: &mut Vec<usize>,
    names: &NameTable,
    reads: &NameTable,
    outputs: &[&str],
    words: &[PlacedName],
) -> Result<(), AllocError>
    ensures { IfOk result (λ _. row.new.items ≡ row.old.items
        ++ shared_row names.now reads.now (texts_seen outputs.now) (map word_view words.now)) }
{
    let mut place = 0;
    for word in words {
        if place >= outputs.len() {
            break;
        }
        if reads.has(outputs[place]) {
            push_number(row, names, &word.text)?;
        }
        place += 1;
    }
    Ok(())
}

/// An import: its contract, the arguments, and the names that stand for the contract's outputs.
#[derive(Clone, Copy)]
struct Import<'a> {
    contract: &'a PlacedName,
    arguments: &'a [Expr],
    outputs: &'a [PlacedName],
}

/// A mode of an imported contract, by those before the import.
fn imported_mode<'a>(
    alloc: Global,
    clocks: &Clocks<'a>,
    callees: &Callees,
    modes: &[Mode<'a>],
    import: Import<'a>,
    known: &Known<'a>,
    mode: &KnownMode<'a>,
) -> Result<Mode<'a>, AllocError>
    ensures { IfOk result (λ m. mode_view m ≡ imported_row clocks.now callees.now (modes_view modes.now)
        (word_view import.entry.contract.now).text (known_view known.now) (map expr_view import.entry.arguments.now)
        (map word_view import.entry.outputs.now) (mode.now.name.now, mode.now.reads)) }
{
    let mut row = Vec::new(alloc);
    push_listed(
        alloc,
        &mut row,
        clocks,
        callees,
        modes,
        &mode.reads,
        &known.inputs,
        import.arguments,
    )?;
    push_shared(
        &mut row,
        &clocks.names,
        &mode.reads,
        &known.outputs,
        import.outputs,
    )?;
    let row = once(alloc, clocks.names.len(), &row)?;
    Ok(Mode {
        contract: Some(import.contract.text.as_str()),
        name: mode.name,
        row,
    })
}

/// The modes of an imported contract, by those before the import.
fn imported_modes<'a>(
    alloc: Global,
    clocks: &Clocks<'a>,
    callees: &Callees,
    modes: &[Mode<'a>],
    import: Import<'a>,
    known: &Known<'a>,
) -> Result<Vec<Mode<'a>>, AllocError>
    ensures { IfOk result (λ v. modes_view v.items ≡ imported_rows clocks.now callees.now (modes_view modes.now)
        (word_view import.entry.contract.now).text (known_view known.now) (map expr_view import.entry.arguments.now)
        (map word_view import.entry.outputs.now)) }
{
    let mut imported = Vec::new(alloc);
    for mode in &known.modes {
        imported.push(imported_mode(alloc, clocks, callees, modes, import, known, mode)?)?;
    }
    Ok(imported)
}

/// The modes, and behind them those of an import.
fn push_import<'a>(
    alloc: Global,
    modes: &mut Vec<Mode<'a>>,
    clocks: &Clocks<'a>,
    library: &Library<'a>,
    import: Import<'a>,
) -> Result<(), AllocError>
    ensures { IfOk result (λ _. modes_view modes.new.items ≡ modes_view modes.old.items
        ++ imported_rows clocks.now library.now.callees (modes_view modes.old.items)
        (word_view import.entry.contract.now).text (library_view library.now (word_view import.entry.contract.now).text)
        (map expr_view import.entry.arguments.now) (map word_view import.entry.outputs.now)) }
{
    if let Some(known) = library.known(&import.contract.text) {
        let mut imported = imported_modes(alloc, clocks, &library.callees, modes, import, known)?;
        modes.append(&mut imported)?;
    }
    Ok(())
}

/// The modes, and behind them those of an item, by those before it.
fn push_item<'a>(
    alloc: Global,
    modes: &mut Vec<Mode<'a>>,
    clocks: &Clocks<'a>,
    library: &Library<'a>,
    item: &'a ContractItem,
) -> Result<(), AllocError>
    ensures { IfOk result (λ _. modes_view modes.new.items ≡ mode_rows_after clocks.now library.now.callees
        (library_view library.now) (modes_view modes.old.items) (contract_item_view item.now ∷ [])) }
{
    match item {
        ContractItem::Mode(name, asked, _) => {
            let mode = own_mode(alloc, clocks, &library.callees, modes, name, asked)?;
            modes.push(mode)?;
            Ok(())
        }
        ContractItem::Import(_, contract, arguments, outputs) => {
            let import = Import {
                contract,
                arguments,
                outputs,
            };
            push_import(alloc, modes, clocks, library, import)
        }
        ContractItem::Assume(_)
        | ContractItem::Guarantee(_)
        | ContractItem::Ghost(_, _)
        | ContractItem::Constant(_) => Ok(()),
    }
}

/// What the modes of a contract read.
///
/// # Errors
///
/// Want of memory.
#[tactic(auto, using(crate::proofs::Statements::after_one))]
pub(crate) fn modes_of<'a>(
    alloc: Global,
    clocks: &Clocks<'a>,
    library: &Library<'a>,
    items: &'a [ContractItem],
) -> Result<Vec<Mode<'a>>, AllocError>
    ensures { IfOk result (λ v. modes_view v.items ≡ mode_rows_after clocks.now library.now.callees
        (library_view library.now) [] (map contract_item_view items.now)) }
{
    let mut modes = Vec::new(alloc);
    for item in items {
        push_item(alloc, &mut modes, clocks, library, item)?;
    }
    Ok(modes)
}
