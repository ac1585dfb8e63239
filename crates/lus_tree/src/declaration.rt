//! Declarations and programs.

ghost use Rattle.std.specs.Prelude.{◌≡◌, IfOk, option_map};
ghost use Rattle.std.specs.String.{string_bytes};
ghost use Rattle.lus_tree.specs.Tree.{Constant, ContractStatement, Declaration, Labelled, Statement};
ghost use Rattle.lus_tree.specs.View.{contract_item_view, contract_node_view, contract_view, decl_view, definition_view, item_view, named_view, node_view, program_view};

use crate::copies::{Copied, copied_list};
use crate::expression::{Expr, copied_exprs};
use crate::place::{Param, PlacedName, Pos, Sort};
use std::alloc::{AllocError, Global};

/// A constant's definition, `const NAME [: sort] = value;`.
#[derive(Drop)]
pub struct Definition {
    pub name: PlacedName,
    pub sort: Option<Sort>,
    pub value: Expr,
}

/// An expression with a label. `at` is the place of the word that begins the item.
#[derive(Drop)]
pub struct Named {
    pub label: Option<String>,
    pub at: Pos,
    pub value: Expr,
}

/// An item of a body.
#[derive(Drop)]
pub enum Item {
    /// `left = right;`, with one left name or several.
    Equation(Vec<PlacedName>, Expr),
    /// `assert e;`
    Assert(Expr),
    /// `--%PROPERTY ["label"] e;` or `check ["label"] e;`.
    Property(Named),
    /// `--%MAIN`
    Main(Pos),
}

/// An item of a contract.
#[derive(Drop)]
pub enum ContractItem {
    /// `assume ["label"] e;`
    Assume(Named),
    /// `guarantee ["label"] e;`
    Guarantee(Named),
    /// `var NAME : sort = e;`
    Ghost(Param, Expr),
    /// `const ..;`
    Constant(Definition),
    /// `mode NAME (..);`: its requires and its ensures, each kind in text order.
    Mode(PlacedName, Vec<Named>, Vec<Named>),
    /// `import NAME (arguments) returns (outputs);`. Its number counts among the calls.
    Import(u32, PlacedName, Vec<Expr>, Vec<PlacedName>),
}

/// A node, or a function, which is a node without state.
#[derive(Drop)]
pub struct Node {
    pub name: PlacedName,
    pub function: bool,
    pub inputs: Vec<Param>,
    pub outputs: Vec<Param>,
    pub locals: Vec<Param>,
    pub consts: Vec<Definition>,
    pub contract: Option<Vec<ContractItem>>,
    pub items: Vec<Item>,
}

/// A contract node.
#[derive(Drop)]
pub struct ContractNode {
    pub name: PlacedName,
    pub inputs: Vec<Param>,
    pub outputs: Vec<Param>,
    pub items: Vec<ContractItem>,
}

/// A declaration of a program.
#[derive(Drop)]
pub enum Decl {
    Constant(Definition),
    Node(Node),
    Contract(ContractNode),
}

/// A program: its declarations in text order.
#[derive(Drop)]
pub struct Program {
    pub decls: Vec<Decl>,
}

impl Definition {
    /// An equal definition.
    pub fn copied(&self, alloc: Global) -> Result<Definition, AllocError>
        ensures { IfOk result (λ c. definition_view c ≡ definition_view self.now) }
    {
        Ok(Definition {
            name: self.name.copied(alloc)?,
            sort: self.sort,
            value: self.value.copied(alloc)?,
        })
    }
}

impl Copied for Definition {
    ghost View = { Constant };

    ghost view = { definition_view };

    fn copy(&self, alloc: Global) -> Result<Definition, AllocError> {
        self.copied(alloc)
    }
}

impl Named {
    /// An equal expression with an equal label.
    pub fn copied(&self, alloc: Global) -> Result<Named, AllocError>
        ensures { IfOk result (λ c. named_view c ≡ named_view self.now) }
    {
        Ok(Named {
            label: copied_label(&self.label, alloc)?,
            at: self.at,
            value: self.value.copied(alloc)?,
        })
    }
}

fn copied_label(label: &Option<String>, alloc: Global) -> Result<Option<String>, AllocError>
    ensures { IfOk result (λ o. option_map string_bytes o ≡ option_map string_bytes label.now) }
{
    match label {
        Some(text) => Ok(Some(String::from_str(alloc, text)?)),
        None => Ok(None),
    }
}

impl Copied for Named {
    ghost View = { Labelled };

    ghost view = { named_view };

    fn copy(&self, alloc: Global) -> Result<Named, AllocError> {
        self.copied(alloc)
    }
}

impl Item {
    /// An equal item.
    pub fn copied(&self, alloc: Global) -> Result<Item, AllocError>
        ensures { IfOk result (λ c. item_view c ≡ item_view self.now) }
    {
        match self {
            Item::Equation(left, right) => {
                let left = copied_list(left, alloc)?;
                Ok(Item::Equation(left, right.copied(alloc)?))
            }
            Item::Assert(condition) => Ok(Item::Assert(condition.copied(alloc)?)),
            Item::Property(property) => Ok(Item::Property(property.copied(alloc)?)),
            Item::Main(at) => Ok(Item::Main(*at)),
        }
    }
}

impl Copied for Item {
    ghost View = { Statement };

    ghost view = { item_view };

    fn copy(&self, alloc: Global) -> Result<Item, AllocError> {
        self.copied(alloc)
    }
}

impl ContractItem {
    /// An equal item.
    pub fn copied(&self, alloc: Global) -> Result<ContractItem, AllocError>
        ensures { IfOk result (λ c. contract_item_view c ≡ contract_item_view self.now) }
    {
        match self {
            ContractItem::Assume(condition) => Ok(ContractItem::Assume(condition.copied(alloc)?)),
            ContractItem::Guarantee(condition) => {
                Ok(ContractItem::Guarantee(condition.copied(alloc)?))
            }
            ContractItem::Ghost(param, value) => {
                let param = param.copied(alloc)?;
                Ok(ContractItem::Ghost(param, value.copied(alloc)?))
            }
            ContractItem::Constant(definition) => {
                Ok(ContractItem::Constant(definition.copied(alloc)?))
            }
            ContractItem::Mode(name, required, ensured) => Ok(ContractItem::Mode(
                name.copied(alloc)?,
                copied_list(required, alloc)?,
                copied_list(ensured, alloc)?,
            )),
            ContractItem::Import(number, contract, arguments, outputs) => Ok(ContractItem::Import(
                *number,
                contract.copied(alloc)?,
                copied_exprs(arguments, alloc)?,
                copied_list(outputs, alloc)?,
            )),
        }
    }
}

impl Copied for ContractItem {
    ghost View = { ContractStatement };

    ghost view = { contract_item_view };

    fn copy(&self, alloc: Global) -> Result<ContractItem, AllocError> {
        self.copied(alloc)
    }
}

impl Node {
    /// An equal node.
    pub fn copied(&self, alloc: Global) -> Result<Node, AllocError>
        ensures { IfOk result (λ c. node_view c ≡ node_view self.now) }
    {
        Ok(Node {
            name: self.name.copied(alloc)?,
            function: self.function,
            inputs: copied_list(&self.inputs, alloc)?,
            outputs: copied_list(&self.outputs, alloc)?,
            locals: copied_list(&self.locals, alloc)?,
            consts: copied_list(&self.consts, alloc)?,
            contract: copied_contract(&self.contract, alloc)?,
            items: copied_list(&self.items, alloc)?,
        })
    }
}

fn copied_contract(
    contract: &Option<Vec<ContractItem>>,
    alloc: Global,
) -> Result<Option<Vec<ContractItem>>, AllocError>
    ensures { IfOk result (λ c. contract_view c ≡ contract_view contract.now) }
{
    match contract {
        Some(items) => Ok(Some(copied_list(items, alloc)?)),
        None => Ok(None),
    }
}

impl ContractNode {
    /// An equal contract node.
    pub fn copied(&self, alloc: Global) -> Result<ContractNode, AllocError>
        ensures { IfOk result (λ c. contract_node_view c ≡ contract_node_view self.now) }
    {
        Ok(ContractNode {
            name: self.name.copied(alloc)?,
            inputs: copied_list(&self.inputs, alloc)?,
            outputs: copied_list(&self.outputs, alloc)?,
            items: copied_list(&self.items, alloc)?,
        })
    }
}

impl Decl {
    /// An equal declaration.
    pub fn copied(&self, alloc: Global) -> Result<Decl, AllocError>
        ensures { IfOk result (λ c. decl_view c ≡ decl_view self.now) }
    {
        match self {
            Decl::Constant(definition) => Ok(Decl::Constant(definition.copied(alloc)?)),
            Decl::Node(node) => Ok(Decl::Node(node.copied(alloc)?)),
            Decl::Contract(contract) => Ok(Decl::Contract(contract.copied(alloc)?)),
        }
    }
}

impl Copied for Decl {
    ghost View = { Declaration };

    ghost view = { decl_view };

    fn copy(&self, alloc: Global) -> Result<Decl, AllocError> {
        self.copied(alloc)
    }
}

impl Program {
    /// An equal program.
    pub fn copied(&self, alloc: Global) -> Result<Program, AllocError>
        ensures { IfOk result (λ c. program_view c ≡ program_view self.now) }
    {
        Ok(Program {
            decls: copied_list(&self.decls, alloc)?,
        })
    }
}
