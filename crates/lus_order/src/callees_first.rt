//! An order of declarations that is tried first, in which callees stand before their callers.

use crate::declarations::Declaration;
use name_table::NameTable;
use std::alloc::{AllocError, Global};

/// For each declaration how many of its calls and imports wait for what they name, and which
/// declarations wait for it, once for each call.
#[derive(Drop)]
struct Waiting {
    counts: Vec<usize>,
    callers: Vec<Vec<usize>>,
}

/// The names of declarations.
fn names_of(alloc: Global, all: &[Declaration<'_>]) -> Result<NameTable, AllocError> {
    let mut names = NameTable::new(alloc);
    for declared in all {
        let _new = names.add(alloc, declared.owner.name())?;
    }
    Ok(names)
}

/// Nobody waits yet, but each declaration for all that it calls and imports.
fn counted(alloc: Global, all: &[Declaration<'_>]) -> Result<Waiting, AllocError> {
    let mut counts = Vec::new(alloc);
    let mut callers = Vec::new(alloc);
    for declared in all {
        counts.push(declared.calls.len())?;
        callers.push(Vec::new(alloc))?;
    }
    Ok(Waiting { counts, callers })
}

/// Lets a declaration wait for all that it calls and imports.
fn push_caller(
    callers: &mut Vec<Vec<usize>>,
    names: &NameTable,
    declared: &Declaration<'_>,
    number: usize,
) -> Result<(), AllocError> {
    for call in &declared.calls {
        if let Some(callee) = names.number(&call.callee.text) {
            if callee < callers.len() {
                callers[callee].push(number)?;
            }
        }
    }
    Ok(())
}

/// Who waits for whom.
fn waiting_of(alloc: Global, all: &[Declaration<'_>]) -> Result<Waiting, AllocError> {
    let names = names_of(alloc, all)?;
    let mut waiting = counted(alloc, all)?;
    for number in 0..all.len() {
        push_caller(&mut waiting.callers, &names, &all[number], number)?;
    }
    Ok(waiting)
}

/// The declarations that wait for nothing.
fn push_free(order: &mut Vec<usize>, counts: &[usize]) -> Result<(), AllocError> {
    for number in 0..counts.len() {
        if counts[number] == 0 {
            order.push(number)?;
        }
    }
    Ok(())
}

/// Lists those of the callers of what is listed now that wait for nothing any more.
fn push_callers(
    order: &mut Vec<usize>,
    counts: &mut Vec<usize>,
    callers: &[usize],
) -> Result<(), AllocError> {
    for caller in callers {
        if *caller < counts.len() {
            counts[*caller] = counts[*caller].saturating_sub(1);
            if counts[*caller] == 0 {
                order.push(*caller)?;
            }
        }
    }
    Ok(())
}

/// The numbers of declarations, callees before their callers: those that wait for nothing are listed, and
/// behind them, whenever one's turn comes, those that waited for it alone (Kahn, "Topological sorting of large
/// networks", 1962). No contract says so, and nothing rests on it but how long the search for the next one takes.
///
/// # Errors
///
/// Want of memory.
pub(crate) fn callees_first(
    alloc: Global,
    all: &[Declaration<'_>],
) -> Result<Vec<usize>, AllocError> {
    let mut waiting = waiting_of(alloc, all)?;
    let mut order = Vec::new(alloc);
    push_free(&mut order, &waiting.counts)?;
    for turn in 0..all.len() {
        if turn < order.len() {
            let listed = order[turn];
            if listed < waiting.callers.len() {
                push_callers(&mut order, &mut waiting.counts, &waiting.callers[listed])?;
            }
        }
    }
    Ok(order)
}
