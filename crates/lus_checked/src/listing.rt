//! The properties of nodes and functions with their labels as text.

ghost use Rattle.std.specs.Prelude.{◌≡◌, IfOk, map};
ghost use Rattle.lus_tree.specs.Lookup.{nodes_of};
ghost use Rattle.lus_tree.specs.View.{node_view, program_view};
ghost use Rattle.lus_properties.specs.Views.{kind_view, property_view};
ghost use Rattle.lus_checked.specs.Properties.{listed_in, listed_mark, lists_seen, plain_kind, property_seen};

use crate::property::{Property, PropertyKind};
use lus_properties::{Property as Mark, PropertyKind as MarkKind, label_text, properties};
use lus_streams::owner::Owner;
use lus_tree::{Decl, Node, Program};
use std::alloc::{AllocError, Global};

/// What a property is of, without the name of an ensure's mode.
fn plain_kind(kind: MarkKind<'_>) -> PropertyKind
    ensures { result ≡ plain_kind (kind_view kind.entry) }
{
    match kind {
        MarkKind::Body => PropertyKind::Body,
        MarkKind::Guarantee => PropertyKind::Guarantee,
        MarkKind::Ensure(_) => PropertyKind::Ensure,
        MarkKind::OneMode => PropertyKind::OneMode,
        MarkKind::CalleeAssume => PropertyKind::CalleeAssume,
    }
}

/// The property with its label as text.
fn listed(alloc: Global, property: &Mark<'_>) -> Result<Property, AllocError>
    ensures { IfOk result (λ q. property_seen q ≡ listed_mark (property_view property.now)) }
{
    let label = label_text(alloc, property)?;
    Ok(Property {
        label,
        kind: plain_kind(property.kind),
    })
}

/// The properties with their labels as text.
fn all_listed(alloc: Global, found: &[Mark<'_>]) -> Result<Vec<Property>, AllocError>
    ensures { IfOk result (λ v. map property_seen v.items ≡ map listed_mark (map property_view found.now)) }
{
    let mut all = Vec::new(alloc);
    for property in found {
        all.push(listed(alloc, property)?)?;
    }
    Ok(all)
}

/// The properties of a node or function.
fn node_properties(
    alloc: Global,
    program: &Program,
    node: &Node,
) -> Result<Vec<Property>, AllocError>
    ensures { IfOk result (λ v. map property_seen v.items
        ≡ listed_in (program_view program.now) (node_view node.now)) }
{
    let found = properties(alloc, program, Owner::Node(node))?;
    all_listed(alloc, &found)
}

/// The properties of all nodes and functions, in text order.
///
/// # Errors
///
/// Want of memory.
pub(crate) fn all_properties(
    alloc: Global,
    program: &Program,
) -> Result<Vec<Vec<Property>>, AllocError>
    ensures { IfOk result (λ v. lists_seen v.items
        ≡ map (listed_in (program_view program.now)) (nodes_of (program_view program.now))) }
{
    let mut all = Vec::new(alloc);
    for decl in &program.decls {
        if let Decl::Node(node) = decl {
            all.push(node_properties(alloc, program, node)?)?;
        }
    }
    Ok(all)
}
