//! The declarations of a program, each with what it calls and imports.

ghost use Rattle.std.specs.Prelude.{◌≡◌, ◌++◌, ◌∷◌, [], IfOk, map};
ghost use Rattle.lus_tree.specs.View.{decl_view, program_view};
ghost use Rattle.lus_meaning.specs.ClockFaults.{components};
ghost use Rattle.lus_order.specs.Declarations.{declared_view, with_calls};
ghost use Rattle.lus_streams.specs.Owner.{owner_view};

use lus_limits::{Call, calls_of};
use lus_streams::owner::Owner;
use lus_tree::{Decl, Program};
use std::alloc::{AllocError, Global};

/// A declaration, and what it calls and imports.
#[derive(Drop)]
pub(crate) struct Declaration<'a> {
    pub(crate) owner: Owner<'a>,
    pub(crate) calls: Vec<Call<'a>>,
}

/// The declarations, and behind them one with streams.
fn push_owner<'a>(owners: &mut Vec<Owner<'a>>, decl: &'a Decl) -> Result<(), AllocError>
    ensures { IfOk result (λ _. map owner_view owners.new.items ≡ map owner_view owners.old.items
        ++ components (decl_view decl.now ∷ [])) }
{
    match decl {
        Decl::Constant(_) => {}
        Decl::Node(node) => {
            owners.push(Owner::Node(node))?;
        }
        Decl::Contract(contract) => {
            owners.push(Owner::Contract(contract))?;
        }
    }
    Ok(())
}

/// The declarations of a program with streams, in text order.
///
/// # Errors
///
/// Want of memory.
pub(crate) fn owners_of(alloc: Global, program: &Program) -> Result<Vec<Owner<'_>>, AllocError>
    ensures { IfOk result (λ v. map owner_view v.items ≡ components (program_view program.now)) }
{
    let mut owners = Vec::new(alloc);
    for decl in &program.decls {
        push_owner(&mut owners, decl)?;
    }
    Ok(owners)
}

/// A declaration with what it calls and imports.
fn declaration_of(alloc: Global, owner: Owner<'_>) -> Result<Declaration<'_>, AllocError>
    ensures { IfOk result (λ d. declared_view d ≡ with_calls (owner_view owner.entry)) }
{
    let calls = calls_of(alloc, owner)?;
    Ok(Declaration { owner, calls })
}

/// The declarations, and behind them one with what it calls and imports.
fn push_with_calls<'a>(
    alloc: Global,
    all: &mut Vec<Declaration<'a>>,
    owner: Owner<'a>,
) -> Result<(), AllocError>
    ensures { IfOk result (λ _. map declared_view all.new.items ≡ map declared_view all.old.items
        ++ with_calls (owner_view owner.entry) ∷ []) }
{
    let declaration = declaration_of(alloc, owner)?;
    all.push(declaration)?;
    Ok(())
}

/// The declarations with what they call and import.
///
/// # Errors
///
/// Want of memory.
pub(crate) fn with_calls<'a>(
    alloc: Global,
    owners: &[Owner<'a>],
) -> Result<Vec<Declaration<'a>>, AllocError>
    ensures { IfOk result (λ v. map declared_view v.items ≡ map (λ o. with_calls (owner_view o)) owners.now) }
{
    let mut all = Vec::new(alloc);
    for owner in owners {
        push_with_calls(alloc, &mut all, *owner)?;
    }
    Ok(all)
}
