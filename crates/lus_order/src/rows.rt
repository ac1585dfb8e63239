//! What expressions and modes read, by the numbers of the streams.

ghost use Rattle.std.specs.Prelude.{◌≡◌, ◌++◌, IfOk, flat_map, map, option_to_list};
ghost use Rattle.lus_tree.specs.View.{expr_view, named_view};
ghost use Rattle.lus_meaning.specs.Meaning.{mode_key, same_path};
ghost use Rattle.lus_order.specs.Reads.{clock_seen, read_view, reads_view, text_seen};
ghost use Rattle.lus_order.specs.Rows.{asked_row, key_view, known_row, modes_view, number_list, read_row, read_rows, row_in};

use crate::reads::{Read, push_reads};
use crate::setting::{Callees, Clocks};
use lus_tree::{Expr, Named};
use name_table::NameTable;
use std::alloc::{AllocError, Global};

/// A mode, by its name and the import before it, with the numbers of the streams that it reads.
#[derive(Drop)]
pub(crate) struct Mode<'a> {
    pub(crate) contract: Option<&'a str>,
    pub(crate) name: &'a str,
    pub(crate) row: Vec<usize>,
}

/// Whether both are of one import, or both of none.
fn is_same_import(first: Option<&str>, second: Option<&str>) -> bool
    ensures { result ≡ same_path (option_to_list (text_seen first.entry)) (option_to_list (text_seen second.entry)) }
{
    match (first, second) {
        (None, None) => true,
        (Some(contract), Some(other)) => contract == other,
        (None, Some(_)) | (Some(_), None) => false,
    }
}

impl Mode<'_> {
    /// Whether it is the mode of that name and import.
    fn is(&self, contract: Option<&str>, name: &str) -> bool
        ensures { result ≡ mode_key (option_to_list (text_seen contract.entry), name.now) (key_view self.now) }
    {
        is_same_import(contract, self.contract) && name == self.name
    }
}

/// What the first mode of that name and import reads.
fn known_row<'m>(modes: &'m [Mode<'_>], contract: Option<&str>, name: &str) -> &'m [usize]
    ensures { result.now ≡ known_row (modes_view modes.now) (option_to_list (text_seen contract.entry), name.now) }
{
    for mode in modes {
        if mode.is(contract, name) {
            return &mode.row;
        }
    }
    &[]
}

/// The row, and behind it these numbers.
pub(crate) fn push_numbers(row: &mut Vec<usize>, numbers: &[usize]) -> Result<(), AllocError>
    ensures { IfOk result (λ _. row.new.items ≡ row.old.items ++ numbers.now) }
{
    for number in numbers {
        row.push(*number)?;
    }
    Ok(())
}

/// The row, and behind it the number of a name, where it has one.
pub(crate) fn push_number(
    row: &mut Vec<usize>,
    names: &NameTable,
    name: &str,
) -> Result<(), AllocError>
    ensures { IfOk result (λ _. row.new.items ≡ row.old.items ++ number_list names.now name.now) }
{
    if let Some(number) = names.number(name) {
        row.push(number)?;
    }
    Ok(())
}

/// The row, and behind it what is read.
fn push_read(
    row: &mut Vec<usize>,
    names: &NameTable,
    modes: &[Mode<'_>],
    read: Read<'_>,
) -> Result<(), AllocError>
    ensures { IfOk result (λ _. row.new.items
        ≡ row.old.items ++ read_row names.now (modes_view modes.now) (read_view read.entry)) }
{
    match read {
        Read::Name(name) => push_number(row, names, name),
        Read::Mode(contract, name) => push_numbers(row, known_row(modes, contract, name)),
    }
}

/// The row, and behind it all that is read.
fn push_read_all(
    row: &mut Vec<usize>,
    names: &NameTable,
    modes: &[Mode<'_>],
    reads: &[Read<'_>],
) -> Result<(), AllocError>
    ensures { IfOk result (λ _. row.new.items
        ≡ row.old.items ++ read_rows names.now (modes_view modes.now) (reads_view reads.now)) }
{
    for read in reads {
        push_read(row, names, modes, *read)?;
    }
    Ok(())
}

/// The row, and behind it what an expression on that clock reads.
///
/// # Errors
///
/// Want of memory.
pub(crate) fn push_expression<'a>(
    alloc: Global,
    row: &mut Vec<usize>,
    clocks: &Clocks<'a>,
    callees: &Callees,
    modes: &[Mode<'a>],
    clock: Option<&'a str>,
    e: &'a Expr,
) -> Result<(), AllocError>
    ensures { IfOk result (λ _. row.new.items ≡ row.old.items
        ++ row_in clocks.now callees.now (modes_view modes.now) (clock_seen clock.entry) (expr_view e.now)) }
{
    let mut reads = Vec::new(alloc);
    push_reads(&mut reads, clocks, callees, clock, e)?;
    push_read_all(row, &clocks.names, modes, &reads)
}

/// The row, and behind it what these read on the base clock.
///
/// # Errors
///
/// Want of memory.
pub(crate) fn push_asked<'a>(
    alloc: Global,
    row: &mut Vec<usize>,
    clocks: &Clocks<'a>,
    callees: &Callees,
    modes: &[Mode<'a>],
    requires_: &'a [Named],
) -> Result<(), AllocError>
    ensures { IfOk result (λ _. row.new.items ≡ row.old.items
        ++ asked_row clocks.now callees.now (modes_view modes.now) (map named_view requires_.now)) }
{
    for required in requires_ {
        push_expression(alloc, row, clocks, callees, modes, None, &required.value)?;
    }
    Ok(())
}
