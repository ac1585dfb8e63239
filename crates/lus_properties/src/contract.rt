//! The items of a contract, with those of its imports at the import's place.

ghost use Rattle.std.specs.Prelude.{◌≡◌, ◌++◌, IfOk, OnOk, map};
ghost use Rattle.lus_tree.specs.View.{contract_item_view, program_view};
ghost use Rattle.lus_limits.specs.Calls.{call_view};
ghost use Rattle.lus_streams.specs.Owner.{owner_view};
ghost use Rattle.lus_properties.specs.Marks.{at_number, item_marks, marks_below, marks_within};
ghost use Rattle.lus_properties.specs.Views.{property_view};

use crate::declared::{callee_at, declared};
use crate::items::{ItemKind, push_assumption, push_guarantee, push_mode};
use crate::property::{Property, push_behind};
use lus_limits::{Call, calls_of};
use lus_streams::owner::Owner;
use lus_tree::{ContractItem, Program};
use std::alloc::{AllocError, Global};

/// Adds what an item of a contract states, where imports are followed to that depth.
#[cycle(contract)]
fn push_item<'a>(
    alloc: Global,
    program: &'a Program,
    kind: ItemKind,
    depth: usize,
    calls: &[Call<'a>],
    item: &'a ContractItem,
    properties: &mut Vec<Property<'a>>,
) -> Result<(), AllocError>
    ensures { OnOk result (map property_view properties.new.items ≡ map property_view properties.old.items
        ++ item_marks kind (at_number (marks_below depth kind (program_view program.now)) (map call_view calls.now))
        (contract_item_view item.now)) }
{
    match item {
        ContractItem::Assume(named) => push_assumption(alloc, kind, named, properties),
        ContractItem::Guarantee(named) => push_guarantee(alloc, kind, named, properties),
        ContractItem::Mode(name, _, promised) => push_mode(alloc, kind, name, promised, properties),
        ContractItem::Import(number, _, _, _) => {
            if let Some(name) = callee_at(calls, *number) {
                let inner = callee_items(alloc, program, kind, depth, name)?;
                push_behind(alloc, *number, &inner, properties)?;
            }
            Ok(())
        }
        ContractItem::Ghost(_, _) | ContractItem::Constant(_) => Ok(()),
    }
}

/// Adds what the contract of a declaration states, where imports are followed to that depth.
///
/// # Errors
///
/// Want of memory.
#[cycle(contract)]
pub(crate) fn push_contract<'a>(
    alloc: Global,
    program: &'a Program,
    kind: ItemKind,
    depth: usize,
    owner: Owner<'a>,
    properties: &mut Vec<Property<'a>>,
) -> Result<(), AllocError>
    ensures { OnOk result (map property_view properties.new.items ≡ map property_view properties.old.items
        ++ marks_within depth kind (program_view program.now) (owner_view owner.entry)) }
{
    let calls = calls_of(alloc, owner)?;
    for item in owner.contract() {
        push_item(alloc, program, kind, depth, &calls, item, properties)?;
    }
    Ok(())
}

/// What the contract of the declaration with that name states, where it is reached within that depth.
///
/// # Errors
///
/// Want of memory.
#[cycle(contract)]
#[tactic(auto, using(crate::proofs::Depths::step_below, crate::proofs::Depths::none_there, crate::proofs::Depths::none_below))]
pub(crate) fn callee_items<'a>(
    alloc: Global,
    program: &'a Program,
    kind: ItemKind,
    depth: usize,
    name: &str,
) -> Result<Vec<Property<'a>>, AllocError>
    ensures { IfOk result (λ v. map property_view v.items
        ≡ marks_below depth kind (program_view program.now) name.now) }
{
    if depth == 0 {
        return Ok(Vec::new(alloc));
    }
    match declared(program, name) {
        Some(owner) => {
            let mut properties = Vec::new(alloc);
            push_contract(alloc, program, kind, depth - 1, owner, &mut properties)?;
            Ok(properties)
        }
        None => Ok(Vec::new(alloc)),
    }
}
