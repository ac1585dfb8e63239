//! Declarations with parts, and what stands in them.

ghost use Rattle.std.specs.Prelude.{◌≡◌, ◌++◌, ◌∷◌, [], IfOk, is_none, map, not};
ghost use Rattle.lus_tree.specs.View.{decl_view, program_view};
ghost use Rattle.lus_meaning.specs.ClockFaults.{components};
ghost use Rattle.lus_streams.specs.Owner.{owner_view};

use lus_streams::owner::Owner;
use lus_tree::{Decl, Program};
use std::alloc::{AllocError, Global};

/// Whether a declaration has a contract.
pub(crate) fn has_contract(part: Owner<'_>) -> bool
    ensures { result ≡ not (is_none (owner_view part.entry).contract) }
{
    match part {
        Owner::Node(node) => node.contract.is_some(),
        Owner::Contract(_) => true,
    }
}

/// The declarations, and behind them one with parts.
fn push_part<'a>(parts: &mut Vec<Owner<'a>>, decl: &'a Decl) -> Result<(), AllocError>
    ensures { IfOk result (λ _. map owner_view parts.new.items ≡ map owner_view parts.old.items
        ++ components (decl_view decl.now ∷ [])) }
{
    match decl {
        Decl::Constant(_) => {}
        Decl::Node(node) => {
            parts.push(Owner::Node(node))?;
        }
        Decl::Contract(contract) => {
            parts.push(Owner::Contract(contract))?;
        }
    }
    Ok(())
}

/// The declarations of a program with parts, in text order.
///
/// # Errors
///
/// Want of memory.
pub(crate) fn parts_of(alloc: Global, program: &Program) -> Result<Vec<Owner<'_>>, AllocError>
    ensures { IfOk result (λ v. map owner_view v.items ≡ components (program_view program.now)) }
{
    let mut parts = Vec::new(alloc);
    for decl in &program.decls {
        push_part(&mut parts, decl)?;
    }
    Ok(parts)
}
