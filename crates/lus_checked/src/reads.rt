//! On which inputs the outputs of nodes and functions depend at the same instant.

ghost use Rattle.std.specs.Prelude.{◌≡◌, ◌+◌, ◌^◌, ◌<◌, ◌++◌, IfOk, map, option_map, option_to_list, slice_get};
ghost use Rattle.lus_tree.specs.View.{decl_view};
ghost use Rattle.lus_order.specs.Dependences.{inputs_seen, reads_seen};
ghost use Rattle.lus_checked.specs.Reads.{declaration_reads, node_reads, kept_reads};

use crate::orders::all_narrowed;
use lus_bounds::parts_after;
use lus_order::Dependence;
use lus_tree::Decl;
use std::alloc::{AllocError, Global};

/// The item of that place, counted from 0, if there is one.
fn item_at<T>(items: &[T], place: usize) -> Option<&T>
    ensures { option_map (λ x. x.now) result ≡ slice_get items.now place }
{
    items.get(place)
}

/// What is found of the declaration with parts of that number, if there is one.
fn found_at(found: &[Dependence], number: usize) -> Option<&Dependence>
    ensures { option_map (λ d. inputs_seen d.now) result ≡ slice_get (reads_seen found.now) number }
{
    item_at(found, number)
}

/// Adds on which inputs a declaration's outputs depend, where something is found of it.
fn push_found(
    alloc: Global,
    all: &mut Vec<Vec<Vec<u32>>>,
    dependence: Option<&Dependence>,
) -> Result<(), AllocError>
    ensures { IfOk result (λ _. kept_reads all.new.items ≡ kept_reads all.old.items
        ++ option_to_list (option_map (λ d. inputs_seen d.now) dependence.entry)) }
{
    if let Some(dependence) = dependence {
        all.push(all_narrowed(alloc, &dependence.reads)?)?;
    }
    Ok(())
}

/// Adds on which inputs a declaration's outputs depend, where it is a node or function, behind so many declarations
/// with parts.
fn push_reads(
    alloc: Global,
    all: &mut Vec<Vec<Vec<u32>>>,
    found: &[Dependence],
    before: usize,
    decl: &Decl,
) -> Result<(), AllocError>
    ensures { IfOk result (λ _. kept_reads all.new.items
        ≡ kept_reads all.old.items ++ declaration_reads (reads_seen found.now) before (decl_view decl.now)) }
{
    if let Decl::Node(_) = decl {
        push_found(alloc, all, found_at(found, before))?;
    }
    Ok(())
}

/// On which inputs the outputs of nodes and functions depend, by what is found of all declarations with parts.
///
/// # Errors
///
/// Want of memory, or a number that 32 bits can't hold.
pub(crate) fn all_reads(
    alloc: Global,
    found: &[Dependence],
    decls: &[Decl],
) -> Result<Vec<Vec<Vec<u32>>>, AllocError>
    ensures { IfOk result (λ v. kept_reads v.items ≡ node_reads (reads_seen found.now) 0 (map decl_view decls.now)) }
{
    let mut all = Vec::new(alloc);
    let mut before = 0;
    for decl in decls {
        push_reads(alloc, &mut all, found, before, decl)?;
        before = parts_after(before, decl);
    }
    Ok(all)
}
