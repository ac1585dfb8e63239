//! Declarations with streams.

ghost use Rattle.std.specs.Prelude.{◌≡◌, map};
ghost use Rattle.lus_tree.specs.View.{contract_item_view, definition_view, item_view, node_view, param_view};
ghost use Rattle.lus_meaning.specs.Scene.{contract_statements};
ghost use Rattle.lus_streams.specs.Owner.{owner_view};

use lus_tree::{ContractItem, ContractNode, Definition, Item, Node, Param};

/// A declaration with streams.
#[derive(Clone, Copy)]
pub enum Owner<'a> {
    Node(&'a Node),
    Contract(&'a ContractNode),
}

/// The contract of a node.
fn contract_of(node: &Node) -> &[ContractItem]
    ensures { map contract_item_view result.now ≡ contract_statements (node_view node.now) }
{
    match &node.contract {
        Some(items) => items,
        None => &[],
    }
}

impl<'a> Owner<'a> {
    /// The name of the declaration.
    pub fn name(self) -> &'a str
        ensures { result.now ≡ (owner_view self.entry).name.text }
    {
        match self {
            Owner::Node(node) => &node.name.text,
            Owner::Contract(contract) => &contract.name.text,
        }
    }

    /// The inputs, in text order.
    pub fn inputs(self) -> &'a [Param]
        ensures { map param_view result.now ≡ (owner_view self.entry).inputs }
    {
        match self {
            Owner::Node(node) => &node.inputs,
            Owner::Contract(contract) => &contract.inputs,
        }
    }

    /// The outputs, in text order.
    pub fn outputs(self) -> &'a [Param]
        ensures { map param_view result.now ≡ (owner_view self.entry).outputs }
    {
        match self {
            Owner::Node(node) => &node.outputs,
            Owner::Contract(contract) => &contract.outputs,
        }
    }

    /// The locals, in text order; a contract node has none.
    pub fn locals(self) -> &'a [Param]
        ensures { map param_view result.now ≡ (owner_view self.entry).locals }
    {
        match self {
            Owner::Node(node) => &node.locals,
            Owner::Contract(_) => &[],
        }
    }

    /// The items of the contract; none where there is no contract.
    pub fn contract(self) -> &'a [ContractItem]
        ensures { map contract_item_view result.now ≡ contract_statements (owner_view self.entry) }
    {
        match self {
            Owner::Node(node) => contract_of(node),
            Owner::Contract(contract) => &contract.items,
        }
    }

    /// The constants of a node, in text order; a contract node has its own in its contract.
    pub fn constants(self) -> &'a [Definition]
        ensures { map definition_view result.now ≡ (owner_view self.entry).constants }
    {
        match self {
            Owner::Node(node) => &node.consts,
            Owner::Contract(_) => &[],
        }
    }

    /// The items of the body; a contract node has none.
    pub fn body(self) -> &'a [Item]
        ensures { map item_view result.now ≡ (owner_view self.entry).body }
    {
        match self {
            Owner::Node(node) => &node.items,
            Owner::Contract(_) => &[],
        }
    }
}
