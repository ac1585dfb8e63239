//! The declarations of a program, by their names.

ghost use Rattle.std.specs.Prelude.{◌≡◌, ◌∷◌, [], option_map, IfOk, OnOk, map};
ghost use Rattle.std.specs.Option.{option_or};
ghost use Rattle.lus_tree.specs.Tree.{Name};
ghost use Rattle.lus_tree.specs.View.{contract_node_view, decl_view, node_view, program_view};
ghost use Rattle.lus_meaning.specs.Scope.{contract_named, node_named};
ghost use Rattle.lus_meaning.specs.ExpressionFaults.{has_mode};
ghost use Rattle.lus_scopes.specs.Meanings.{by_name, callee_view, first_named};

use crate::callee::Callee;
use crate::firsts::note;
use crate::with_modes::WithModes;
use indexmap::IndexMap;
use lus_tree::{ContractNode, Decl, Node, Program};
use std::alloc::{AllocError, Global};
use std::marker::Model;

/// A program, and a table of its declarations with parts: of each name the first. Contracts see the
/// program.
#[derive(Drop)]
pub struct Declarations<'a> {
    program: &'a Program,
    table: IndexMap<&'a str, Callee<'a>>,
}

impl<'a> Model for Declarations<'a> {
    ghost use Rattle.std.specs.Prelude.{◌≡◌};
    ghost use Rattle.std.specs.Option.{option_and_then};
    ghost use Rattle.std.specs.Coded.{codes};
    ghost use Rattle.lus_tree.specs.declared.declaration.Program.{Program};
    ghost use Rattle.lus_tree.specs.contracts.declaration.Program as e;
    ghost use Rattle.lus_tree.specs.Tree.{Name};
    ghost use Rattle.lus_tree.specs.View.{program_view};
    ghost use Rattle.lus_meaning.specs.Scope.{contract_named, node_named};
    ghost use Rattle.lus_scopes.specs.Meanings.{as_contract, as_node, by_name};

    ghost Value = { Program };

    ghost coded = { Prim.hlevel (codes, e.the_row.coded) };

    ghost view = { λ d. d.program.now };

    ghost invariant = { λ d. ((x : Name) → node_named (program_view d.program.now) x
        ≡ option_and_then as_node (by_name d.table x))
        × ((x : Name) → contract_named (program_view d.program.now) x ≡ option_and_then as_contract (by_name d.table x)) };
}

/// Notes a declaration with parts.
fn note_declaration<'a>(
    alloc: Global,
    table: &mut IndexMap<&'a str, Callee<'a>>,
    decl: &'a Decl,
) -> Result<(), AllocError>
    ensures { OnOk result ((x : Name) → option_map callee_view (by_name table.new x)
        ≡ option_or (option_map callee_view (by_name table.old x)) (first_named (decl_view decl.now ∷ []) x)) }
{
    match decl {
        Decl::Constant(_) => Ok(()),
        Decl::Node(node) => note(table, &node.name.text, Callee::Node(node)),
        Decl::Contract(contract) => {
            let callee = Callee::Contract(WithModes::of(alloc, contract)?);
            note(table, &contract.name.text, callee)
        }
    }
}

/// Notes the declarations with parts.
fn note_declarations<'a>(
    alloc: Global,
    table: &mut IndexMap<&'a str, Callee<'a>>,
    decls: &'a [Decl],
) -> Result<(), AllocError>
    ensures { OnOk result ((x : Name) → option_map callee_view (by_name table.new x)
        ≡ option_or (option_map callee_view (by_name table.old x)) (first_named (map decl_view decls.now) x)) }
{
    for decl in decls {
        note_declaration(alloc, table, decl)?;
    }
    Ok(())
}

/// A table of the declarations with parts.
fn table_of(alloc: Global, program: &Program) -> Result<IndexMap<&str, Callee<'_>>, AllocError>
    ensures { IfOk result (λ m. (x : Name) → option_map callee_view (by_name m x)
        ≡ first_named (program_view program.now) x) }
{
    let mut table = IndexMap::new(alloc);
    note_declarations(alloc, &mut table, &program.decls)?;
    Ok(table)
}

impl<'a> Declarations<'a> {
    /// Those of a program.
    ///
    /// # Errors
    ///
    /// Want of memory.
    #[tactic(auto, using(crate::proofs::FirstNamed::nodes_by, crate::proofs::FirstNamed::contracts_by))]
    pub fn of(alloc: Global, program: &'a Program) -> Result<Self, AllocError>
        ensures { IfOk result (λ d. d ≡ program.now) }
    {
        let table = table_of(alloc, program)?;
        Ok(Declarations { program, table })
    }

    /// The program.
    pub fn program(&self) -> &'a Program
        ensures { result.now ≡ self.now }
    {
        self.program
    }

    /// The first declaration with parts of this name, where it is a node or function.
    pub fn node(&self, name: &str) -> Option<&'a Node>
        ensures { option_map (λ n. node_view n.now) result ≡ node_named (program_view self.now) name.now }
    {
        match self.table.get(name) {
            Some(Callee::Node(node)) => Some(*node),
            Some(Callee::Contract(_)) | None => None,
        }
    }

    /// The first declaration with parts of this name, where it is a contract node.
    pub fn contract(&self, name: &str) -> Option<&'a ContractNode>
        ensures { option_map (λ n. contract_node_view n.now) result
            ≡ contract_named (program_view self.now) name.now }
    {
        match self.table.get(name) {
            Some(Callee::Contract(found)) => Some(found.contract),
            Some(Callee::Node(_)) | None => None,
        }
    }

    /// Whether the first declaration with parts of this name is a contract node that has this mode.
    pub fn has_mode(&self, contract: &str, mode: &str) -> bool
        ensures { result ≡ has_mode mode.now (contract_named (program_view self.now) contract.now) }
    {
        match self.table.get(contract) {
            Some(Callee::Contract(found)) => found.modes.has(mode),
            Some(Callee::Node(_)) | None => false,
        }
    }
}
