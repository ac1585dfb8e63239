//! The items of a contract.

ghost use Rattle.std.specs.Prelude.{◌≡◌, ◌++◌, IfOk, OnOk};
ghost use Rattle.sys_terms.specs.View.{terms_view};
ghost use Rattle.sys_contracts.specs.Items.{no_items};
ghost use Rattle.sys_contracts.specs.Views.{items_view};

use std::alloc::{AllocError, Global};
use sys_terms::Term;
use sys_texts::sight::Mode;

/// The assumptions, the guarantees and the modes of a contract with those of its imports, each kind in text order.
#[derive(Drop)]
pub struct Items<'a> {
    pub assumes: Vec<Term>,
    pub guarantees: Vec<Term>,
    pub modes: Vec<Mode<'a>>,
}

/// No items.
pub fn no_items<'a>(alloc: Global) -> Items<'a>
    ensures { items_view result ≡ no_items }
{
    Items {
        assumes: Vec::new(alloc),
        guarantees: Vec::new(alloc),
        modes: Vec::new(alloc),
    }
}

/// The formulas, and behind them equal ones of these.
///
/// # Errors
///
/// Want of memory.
pub fn push_copies(alloc: Global, formulas: &mut Vec<Term>, more: &[Term]) -> Result<(), AllocError>
    ensures { OnOk result (terms_view formulas.new.items ≡ terms_view formulas.old.items ++ terms_view more.now) }
{
    for formula in more {
        let copy = formula.copied(alloc)?;
        formulas.push(copy)?;
    }
    Ok(())
}

/// Equal formulas.
pub(crate) fn copies(alloc: Global, formulas: &[Term]) -> Result<Vec<Term>, AllocError>
    ensures { IfOk result (λ v. terms_view v.items ≡ terms_view formulas.now) }
{
    let mut copies = Vec::new(alloc);
    push_copies(alloc, &mut copies, formulas)?;
    Ok(copies)
}
