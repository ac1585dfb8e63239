//! What of a declaration stands before a place, and the scope there.

ghost use Rattle.std.specs.Prelude.{◌≡◌, ◌++◌, ◌∷◌, [], IfOk, List, length};
ghost use Rattle.lus_tree.specs.Tree.{Constant, ContractStatement};
ghost use Rattle.lus_tree.specs.View.{contract_item_view, definition_view};
ghost use Rattle.lus_meaning.specs.Program.{contract_statement_constants};
ghost use Rattle.lus_meaning.specs.Scope.{contract_statement_scope, scope_with};
ghost use Rattle.lus_types.specs.Before.{earlier, earlier_view, home_view, one_behind, scope_at};
ghost use Rattle.lus_scopes.specs.Scopes.{scope_view};

use crate::home::Home;
use lus_scopes::counted::Counted;
use lus_scopes::scope::{Extent, Scope};
use lus_tree::{ContractItem, Definition};
use std::alloc::{AllocError, Global};

/// What of a declaration stands before a place: constants, modes and imports.
#[derive(Drop)]
pub(crate) struct Before<'a> {
    pub(crate) constants: Vec<&'a Definition>,
    pub(crate) modes: Counted<'a>,
    pub(crate) imports: Counted<'a>,
}

impl<'a> Before<'a> {
    /// Nothing.
    pub(crate) fn new(alloc: Global) -> Self
        ensures { earlier_view result ≡ earlier [] [] }
    {
        Before {
            constants: Vec::new(alloc),
            modes: Counted::new(alloc),
            imports: Counted::new(alloc),
        }
    }

    /// A constant of the body behind.
    pub(crate) fn push_constant(&mut self, definition: &'a Definition) -> Result<(), AllocError>
        ensures { IfOk result (λ _. earlier_view self.new ≡ one_behind (earlier_view self.old)
            (earlier [] (definition_view definition.now ∷ []))) }
    {
        self.constants.push(definition)?;
        Ok(())
    }

    /// An item of the contract behind.
    pub(crate) fn push_item(&mut self, item: &'a ContractItem) -> Result<(), AllocError>
        ensures { IfOk result (λ _. earlier_view self.new ≡ one_behind (earlier_view self.old)
            (earlier (contract_item_view item.now ∷ []) [])) }
    {
        match item {
            ContractItem::Constant(definition) => {
                self.constants.push(definition)?;
                Ok(())
            }
            ContractItem::Mode(mode, _, _) => { self.modes.push(mode.text.as_str()) }
            ContractItem::Import(_, contract, _, _) => { self.imports.push(contract.text.as_str()) }
            ContractItem::Assume(_) | ContractItem::Guarantee(_) | ContractItem::Ghost(_, _) => {
                Ok(())
            }
        }
    }
}

/// The scope of the place behind.
fn scope_behind<'b>(before: &'b Before<'_>, home: &'b Home<'_>, hidden: bool) -> Scope<'b>
    ensures { scope_view result ≡ scope_at (home_view home.now) (earlier_view before.now) hidden }
{
    Scope {
        declarations: home.declarations,
        owner: home.owner,
        own: home.own.within(Extent::First(before.constants.len())),
        outer: home.outer,
        hidden,
        modes: Some(&before.modes),
        imports: Some(&before.imports),
    }
}

/// The scope of a place of the contract.
pub(crate) fn contract_scope<'b>(before: &'b Before<'_>, home: &'b Home<'_>) -> Scope<'b>
    ensures { (cs : List ContractStatement) → earlier_view before.now ≡ earlier cs []
        → scope_view result ≡ contract_statement_scope (home_view home.now) cs }
{
    scope_behind(before, home, true)
}

/// The scope of a place of the body.
pub(crate) fn body_scope<'b>(before: &'b Before<'_>, home: &'b Home<'_>) -> Scope<'b>
    ensures { (cs : List ContractStatement) (ds : List Constant) → earlier_view before.now ≡ earlier cs ds
        → scope_view result ≡ scope_with (home_view home.now) (length (contract_statement_constants cs ++ ds)) cs }
{
    scope_behind(before, home, false)
}
