//! The properties of a declaration.

ghost use Rattle.std.specs.Prelude.{◌≡◌, ◌++◌, ◌∷◌, [], IfOk, OnOk, map, flat_map};
ghost use Rattle.lus_tree.specs.View.{program_view};
ghost use Rattle.lus_limits.specs.Calls.{call_view};
ghost use Rattle.lus_meaning.specs.Program.{instance_of};
ghost use Rattle.lus_meaning.specs.Property.{properties as properties_of};
ghost use Rattle.lus_streams.specs.Owner.{owner_view};
ghost use Rattle.lus_properties.specs.Marks.{call_owes, mark_of, one_mode_marks, promised_within};
ghost use Rattle.lus_properties.specs.Views.{property_view};

use crate::contract::{callee_items, push_contract};
use crate::items::{ItemKind, push_body};
use crate::property::{Property, PropertyKind, push_behind};
use lus_limits::{Call, Way, calls_of};
use lus_streams::owner::Owner;
use lus_tree::{Pos, Program};
use std::alloc::{AllocError, Global};

/// The place of a declaration's name.
fn name_place(owner: Owner<'_>) -> Pos
    ensures { result ≡ (owner_view owner.entry).name.at }
{
    match owner {
        Owner::Node(node) => node.name.at,
        Owner::Contract(contract) => contract.name.at,
    }
}

/// Adds that one mode is active, where there is a mode.
fn push_one_mode<'a>(
    alloc: Global,
    at: Pos,
    modes: &[Property<'a>],
    properties: &mut Vec<Property<'a>>,
) -> Result<(), AllocError>
    ensures { OnOk result (map property_view properties.new.items ≡ map property_view properties.old.items
        ++ one_mode_marks at (map property_view modes.now)) }
{
    if !modes.is_empty() {
        properties.push(Property {
            kind: PropertyKind::OneMode,
            path: Vec::new(alloc),
            label: None,
            at,
        })?;
    }
    Ok(())
}

/// Adds what a call owes its callee.
fn push_owed<'a>(
    alloc: Global,
    program: &'a Program,
    depth: usize,
    call: &Call<'a>,
    properties: &mut Vec<Property<'a>>,
) -> Result<(), AllocError>
    ensures { OnOk result (map property_view properties.new.items ≡ map property_view properties.old.items
        ++ call_owes depth (program_view program.now) (call_view call.now)) }
{
    match call.way {
        Way::Plain | Way::Condition => {
            let name = &call.callee.text;
            let inner = callee_items(alloc, program, ItemKind::Assumptions, depth, name)?;
            push_behind(alloc, call.number, &inner, properties)
        }
        Way::Import => Ok(()),
    }
}

/// Adds what calls owe their callees.
fn push_all_owed<'a>(
    alloc: Global,
    program: &'a Program,
    depth: usize,
    calls: &[Call<'a>],
    properties: &mut Vec<Property<'a>>,
) -> Result<(), AllocError>
    ensures { OnOk result (map property_view properties.new.items ≡ map property_view properties.old.items
        ++ flat_map (call_owes depth (program_view program.now)) (map call_view calls.now)) }
{
    for call in calls {
        push_owed(alloc, program, depth, call, properties)?;
    }
    Ok(())
}

/// Adds what the contract of a declaration promises, where imports are followed to that depth: its guarantees, its
/// ensures, and that one mode is active.
fn push_promises<'a>(
    alloc: Global,
    program: &'a Program,
    depth: usize,
    owner: Owner<'a>,
    properties: &mut Vec<Property<'a>>,
) -> Result<(), AllocError>
    ensures { OnOk result (map property_view properties.new.items ≡ map property_view properties.old.items
        ++ promised_within depth (program_view program.now) (owner_view owner.entry)) }
{
    push_contract(
        alloc,
        program,
        ItemKind::Guarantees,
        depth,
        owner,
        properties,
    )?;
    push_contract(alloc, program, ItemKind::Ensures, depth, owner, properties)?;
    let mut modes = Vec::new(alloc);
    push_contract(alloc, program, ItemKind::Modes, depth, owner, &mut modes)?;
    push_one_mode(alloc, name_place(owner), &modes, properties)?;
    Ok(())
}

/// The properties of a declaration of a program, in order: those of its body, its guarantees, the ensures of its modes,
/// that one mode is active, where it has a mode, and for each call by number, but for imports, the assumptions of the
/// callee. Items of imported contracts stand at the import's place.
///
/// # Errors
///
/// Want of memory.
pub fn properties<'a>(
    alloc: Global,
    program: &'a Program,
    owner: Owner<'a>,
) -> Result<Vec<Property<'a>>, AllocError>
    ensures { IfOk result (λ v. map property_view v.items
        ≡ map mark_of (properties_of (instance_of (program_view program.now) (owner_view owner.entry)))) }
{
    let depth = program.decls.len();
    let calls = calls_of(alloc, owner)?;
    let mut properties = Vec::new(alloc);
    push_body(alloc, owner.body(), &mut properties)?;
    push_promises(alloc, program, depth, owner, &mut properties)?;
    push_all_owed(alloc, program, depth, &calls, &mut properties)?;
    Ok(properties)
}
