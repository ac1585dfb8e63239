//! What callers need of all declarations of a program, noted until nothing is left.

ghost use Rattle.std.specs.Prelude.{◌≡◌, IfOk, None, length, map, replicate};
ghost use Rattle.lus_tree.specs.View.{program_view};
ghost use Rattle.lus_meaning.specs.Refusals.{IsChecked};
ghost use Rattle.lus_limits.specs.Needed.{AreTried, AreTriedFrom, IsSettled};
ghost use Rattle.lus_limits.specs.Tables.{IsTableOf};
ghost use Rattle.lus_streams.specs.Owner.{owner_view};

use crate::needs::{Needs, try_one};
use crate::part::parts_of;
use lus_streams::owner::Owner;
use lus_tree::Program;
use name_table::NameTable;
use std::alloc::{AllocError, Global};

/// Notes the needs of the declarations in turn, and tells whether some are new.
fn round(
    alloc: Global,
    names: &NameTable,
    parts: &[Owner<'_>],
    known: &mut Vec<Option<Needs>>,
) -> Result<bool, AllocError>
    requires known { length known.old.items ≡ length names.now }
    requires parts { length parts.now ≡ length names.now }
    ensures { IfOk result (λ b. AreTried names.now (map owner_view parts.now) known.old.items known.new.items
        (length parts.now) b) }
{
    let mut more = false;
    for number in 0..parts.len() {
        let one = try_one(alloc, names, parts, known, number)?;
        more = more || one;
    }
    Ok(more)
}

/// Notes the needs of the declarations from the last one back, and tells whether some are new.
#[tactic(auto, using(crate::proofs::Settled::tried_back))]
fn round_back(
    alloc: Global,
    names: &NameTable,
    parts: &[Owner<'_>],
    known: &mut Vec<Option<Needs>>,
) -> Result<bool, AllocError>
    requires known { length known.old.items ≡ length names.now }
    requires parts { length parts.now ≡ length names.now }
    ensures { IfOk result (λ b. AreTriedFrom names.now (map owner_view parts.now) known.old.items known.new.items
        0 (length parts.now) b) }
{
    let mut more = false;
    let mut left = parts.len();
    while left > 0 {
        left -= 1;
        let one = try_one(alloc, names, parts, known, left)?;
        more = more || one;
    }
    Ok(more)
}

/// Notes the needs of the declarations in turn, there and back, and tells whether some are new.
#[tactic(auto, using(crate::proofs::Settled::tried_both))]
fn both_rounds(
    alloc: Global,
    names: &NameTable,
    parts: &[Owner<'_>],
    known: &mut Vec<Option<Needs>>,
) -> Result<bool, AllocError>
    requires known { length known.old.items ≡ length names.now }
    requires parts { length parts.now ≡ length names.now }
    ensures { IfOk result (λ b. AreTried names.now (map owner_view parts.now) known.old.items known.new.items
        (length parts.now) b) }
{
    let there = round(alloc, names, parts, known)?;
    let back = round_back(alloc, names, parts, known)?;
    Ok(there || back)
}

/// Notes the needs of the declarations until nothing is left that can be noted.
fn settle(
    alloc: Global,
    names: &NameTable,
    parts: &[Owner<'_>],
    known: &mut Vec<Option<Needs>>,
) -> Result<(), AllocError>
    requires known { length known.old.items ≡ length names.now }
    requires parts { length parts.now ≡ length names.now }
    ensures { IfOk result (λ _. IsSettled names.now (map owner_view parts.now) known.old.items known.new.items) }
{
    while both_rounds(alloc, names, parts, known)? {}
    Ok(())
}

/// The names of declarations.
fn words<'a>(alloc: Global, parts: &[Owner<'a>]) -> Result<Vec<&'a str>, AllocError>
    ensures { IfOk result (λ v. map (λ x. x.now) v.items ≡ map (λ n. n.name.text) (map owner_view parts.now)) }
{
    let mut words = Vec::new(alloc);
    for part in parts {
        words.push(part.name())?;
    }
    Ok(words)
}

/// Of so many declarations nothing is known.
fn none_known(alloc: Global, count: usize) -> Result<Vec<Option<Needs>>, AllocError>
    ensures { IfOk result (λ v. v.items ≡ replicate count None) }
{
    let mut known = Vec::new(alloc);
    for _ in 0..count {
        known.push(None)?;
    }
    Ok(known)
}

/// The declarations of a program by their names, and what callers need of each.
#[derive(Drop)]
pub(crate) struct Table<'a> {
    pub(crate) names: NameTable,
    pub(crate) parts: Vec<Owner<'a>>,
    pub(crate) known: Vec<Option<Needs>>,
}

/// What callers need of all declarations of a program.
///
/// # Errors
///
/// Want of memory.
pub(crate) fn all_needs(alloc: Global, program: &Program) -> Result<Table<'_>, AllocError>
    requires checked { IsChecked (program_view program.now) }
    ensures { IfOk result (λ t. IsTableOf (program_view program.now) t) }
{
    let parts = parts_of(alloc, program)?;
    let words = words(alloc, &parts)?;
    let names = NameTable::distinct(alloc, &words)?.unwrap();
    let mut known = none_known(alloc, parts.len())?;
    settle(alloc, &names, &parts, &mut known)?;
    Ok(Table {
        names,
        parts,
        known,
    })
}
