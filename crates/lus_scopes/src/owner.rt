//! The parts of a declaration.

ghost use Rattle.std.specs.Prelude.{◌≡◌, map};
ghost use Rattle.lus_tree.specs.View.{contract_item_view, definition_view, item_view, node_view, param_view};
ghost use Rattle.lus_meaning.specs.Scene.{contract_statements};
ghost use Rattle.lus_scopes.specs.Scopes.{owner_view};

use crate::scope::Owner;
use lus_tree::{ContractItem, Definition, Item, Node, Param};

/// The contract of a node.
fn contract_of(node: &Node) -> &[ContractItem]
    ensures { map contract_item_view result.now ≡ contract_statements (node_view node.now) }
{
    match &node.contract {
        Some(items) => items,
        None => &[],
    }
}

impl<'a> Owner<'a> {
    /// Its inputs, in text order. Nothing has none.
    pub fn inputs(self) -> &'a [Param]
        ensures { map param_view result.now ≡ (owner_view self.entry).inputs }
    {
        match self {
            Owner::Nothing => &[],
            Owner::Node(node) => &node.inputs,
            Owner::Contract(contract) => &contract.inputs,
        }
    }

    /// Its outputs, in text order. Nothing has none.
    pub fn outputs(self) -> &'a [Param]
        ensures { map param_view result.now ≡ (owner_view self.entry).outputs }
    {
        match self {
            Owner::Nothing => &[],
            Owner::Node(node) => &node.outputs,
            Owner::Contract(contract) => &contract.outputs,
        }
    }

    /// Its locals, in text order. A contract node has none.
    pub fn locals(self) -> &'a [Param]
        ensures { map param_view result.now ≡ (owner_view self.entry).locals }
    {
        match self {
            Owner::Node(node) => &node.locals,
            Owner::Nothing | Owner::Contract(_) => &[],
        }
    }

    /// The constants of its body, in text order. A contract node has none.
    pub fn constants(self) -> &'a [Definition]
        ensures { map definition_view result.now ≡ (owner_view self.entry).constants }
    {
        match self {
            Owner::Node(node) => &node.consts,
            Owner::Nothing | Owner::Contract(_) => &[],
        }
    }

    /// The items of its contract, in text order. A node without a contract has none.
    pub fn contract(self) -> &'a [ContractItem]
        ensures { map contract_item_view result.now ≡ contract_statements (owner_view self.entry) }
    {
        match self {
            Owner::Nothing => &[],
            Owner::Node(node) => contract_of(node),
            Owner::Contract(contract) => &contract.items,
        }
    }

    /// The items of its body, in text order. A contract node has none.
    pub fn body(self) -> &'a [Item]
        ensures { map item_view result.now ≡ (owner_view self.entry).body }
    {
        match self {
            Owner::Node(node) => &node.items,
            Owner::Nothing | Owner::Contract(_) => &[],
        }
    }

    /// Whether it is a function.
    pub fn is_function(self) -> bool
        ensures { result ≡ (owner_view self.entry).function }
    {
        match self {
            Owner::Node(node) => node.function,
            Owner::Nothing | Owner::Contract(_) => false,
        }
    }
}
