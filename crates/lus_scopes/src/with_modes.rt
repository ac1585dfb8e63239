//! A contract node with its modes.

ghost use Rattle.std.specs.Prelude.{◌≡◌, ◌++◌, ◌∷◌, [], map, IfOk};
ghost use Rattle.lus_tree.specs.View.{contract_item_view};
ghost use Rattle.lus_meaning.specs.Scope.{mode_names};

use crate::counted::Counted;
use lus_tree::{ContractItem, ContractNode};
use std::alloc::{AllocError, Global};

/// A contract node, and its modes in text order.
#[derive(Drop)]
pub(crate) struct WithModes<'a> {
    pub(crate) contract: &'a ContractNode,
    pub(crate) modes: Counted<'a>,
    ghost listed: { modes ≡ mode_names (map contract_item_view contract.now.items.items) },
}

/// The modes, and behind them an item that is one.
fn push_mode<'a>(modes: &mut Counted<'a>, item: &'a ContractItem) -> Result<(), AllocError>
    ensures { IfOk result (λ _. modes.new ≡ modes.old ++ mode_names (contract_item_view item.now ∷ [])) }
{
    if let ContractItem::Mode(mode, _, _) = item {
        modes.push(mode.text.as_str())?;
    }
    Ok(())
}

/// The modes, and behind them those of these items.
fn push_modes<'a>(modes: &mut Counted<'a>, items: &'a [ContractItem]) -> Result<(), AllocError>
    ensures { IfOk result (λ _. modes.new ≡ modes.old ++ mode_names (map contract_item_view items.now)) }
{
    for item in items {
        push_mode(modes, item)?;
    }
    Ok(())
}

impl<'a> WithModes<'a> {
    /// A contract node with its modes.
    ///
    /// # Errors
    ///
    /// Want of memory.
    pub(crate) fn of(alloc: Global, contract: &'a ContractNode) -> Result<Self, AllocError>
        ensures { IfOk result (λ c. c.contract.now ≡ contract.now) }
    {
        let mut modes = Counted::new(alloc);
        push_modes(&mut modes, &contract.items)?;
        Ok(WithModes { contract, modes })
    }
}
