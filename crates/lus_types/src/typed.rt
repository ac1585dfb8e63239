//! A program whose names, types and numbers are right.

ghost use Rattle.std.specs.Prelude.{◌≡◌, IfErr, IfOk, IsErr, Some, option_map, true};
ghost use Rattle.lus_tree.specs.Reason.{Refused, refusal_view};
ghost use Rattle.lus_tree.specs.View.{expr_view, program_view};
ghost use Rattle.lus_meaning.specs.Faults.{IsFirst};
ghost use Rattle.lus_meaning.specs.NameFaults.{typing_faults};
ghost use Rattle.lus_meaning.specs.Refusals.{IsTyped, IsTypingFault};
ghost use Rattle.lus_scopes.specs.Least.{IsLeast, least_view};
ghost use Rattle.lus_types.specs.Names.{HaveNames, constant_in, declaration_named, found_view, name_in, named_view, sort_in};
ghost use Rattle.lus_types.specs.Refusals.{IsRefusal};
ghost use Rattle.lus_types.specs.Standing.{StandsIn, has_one_value};

use crate::found::{Found, Named};
use crate::place::Place;
use crate::tables::{Tables, found};
use crate::walk::{Checked, first_fault};
use lus_scopes::memory::no_memory;
use lus_tree::{Expr, Program, Refusal, Sort};
use std::alloc::Global;
use std::marker::Model;

/// A program that breaks no rule of names, types and numbers, as `types` makes it, with tables of its
/// names. Contracts see the program.
#[derive(Drop)]
pub struct Typed {
    program: Program,
    tables: Tables,
}

impl Model for Typed {
    ghost use Rattle.lus_tree.specs.declared.declaration.Program.{Program};
    ghost use Rattle.lus_tree.specs.contracts.declaration.Program as e;
    ghost use Rattle.std.specs.Coded.{codes};
    ghost use Rattle.lus_tree.specs.View.{program_view};
    ghost use Rattle.lus_meaning.specs.Refusals.{IsTyped};
    ghost use Rattle.lus_types.specs.Names.{HaveNames};

    ghost Value = { Program };

    ghost coded = { Prim.hlevel (codes, e.the_row.coded) };

    ghost view = { λ c. c.program };

    ghost invariant = { λ c. IsTyped (program_view c.program) × HaveNames (program_view c.program) c.tables };
}

impl Typed {
    /// The program, of which the caller knows that it breaks no such rule, with its tables.
    fn of(program: Program, tables: Tables) -> Self
        requires typed { IsTyped (program_view program) }
        requires names { HaveNames (program_view program) tables }
        ensures { program_view result ≡ program_view program }
    {
        Typed { program, tables }
    }

    /// The program. Its names, types and numbers are right.
    pub fn program(&self) -> &Program
        ensures same { program_view result.now ≡ program_view self.now }
        ensures typed { IsTyped (program_view self.now) }
    {
        &self.program
    }

    /// The same program.
    pub fn into_program(self) -> Program
        ensures same { program_view result ≡ program_view self }
        ensures typed { IsTyped (program_view result) }
    {
        self.program
    }

    /// What a name is that is declared in the declaration of that number, constants included, counted
    /// from 0 in text order: the first of that name. None exactly where there is none; a constant of
    /// the program declares no names of its own.
    pub fn name(&self, declaration: u32, name: &str) -> Option<Named>
        ensures { option_map named_view result ≡ name_in (program_view self.now) declaration name.now }
    {
        let _ = &self.program;
        match self.own_name(declaration, name) {
            Some(found) => Some(found.typed()),
            None => None,
        }
    }

    /// The same, with its type where it has one.
    fn own_name(&self, declaration: u32, name: &str) -> Option<Found>
        ensures { option_map found_view result ≡ name_in (program_view self.now) declaration name.now }
    {
        match self.tables.own.get(declaration as usize) {
            Some(own) => found(own, name),
            None => None,
        }
    }

    /// What a constant of the program is: the first of that name. None exactly where there is none.
    pub fn constant(&self, name: &str) -> Option<Named>
        ensures { option_map named_view result ≡ constant_in (program_view self.now) name.now }
    {
        match found(&self.tables.constants, name) {
            Some(found) => Some(found.typed()),
            None => None,
        }
    }

    /// The number of the first declaration with parts of that name, constants included, counted from 0
    /// in text order. None exactly where there is none.
    pub fn declaration(&self, name: &str) -> Option<usize>
        ensures { result ≡ declaration_named (program_view self.now) name.now }
    {
        self.tables.declared.get(name).copied()
    }

    /// The type of an expression where the right sides of the body of the declaration of that number
    /// stand, or where the value of that constant stands. None exactly where it has none.
    pub fn type_of(&self, declaration: u32, e: &Expr) -> Option<Sort>
        ensures { result ≡ sort_in (program_view self.now) declaration (expr_view e.now) }
    {
        match self.tables.own.get(declaration as usize) {
            Some(own) => {
                let place = Place {
                    own,
                    tables: &self.tables,
                    decls: &self.program.decls,
                };
                place.sort_of(e)
            }
            None => None,
        }
    }

    /// The type of an expression of the declaration of that number, in which it stands, and which has
    /// one value.
    pub fn sort(&self, declaration: u32, e: &Expr) -> Sort
        requires stands { StandsIn (program_view self.now) declaration (expr_view e.now) }
        requires one { has_one_value (program_view self.now) (expr_view e.now) ≡ true }
        ensures { sort_in (program_view self.now) declaration (expr_view e.now) ≡ Some result }
    {
        let _ = &self.program;
        self.type_of(declaration, e).unwrap()
    }
}

/// The program where none of its faults was found, with the tables that were made.
fn with_names(program: Program, found: Checked) -> Result<Typed, Refusal>
    requires least { IsLeast (least_view found.least) (typing_faults (program_view program)) }
    requires names { HaveNames (program_view program) found.tables }
    ensures same { IfOk result (λ t. program_view t ≡ program_view program) }
    ensures typed { IfOk result (λ _. IsTyped (program_view program)) }
    ensures first { IfErr result (λ e. IsFirst (IsTypingFault (program_view program)) (refusal_view e)) }
{
    let Checked { least, tables } = found;
    least.into_result()?;
    Ok(Typed::of(program, tables))
}

/// The program, with the fact that it breaks no rule of names, types and numbers.
///
/// # Errors
///
/// The first of its faults by place, and at one place that of the rule with the smallest number:
/// `NameTwice` to `Heavy`, and `NodeRecursion` to `NoNode`, and `ModeUnknown`. Or `Memory`, at 1:1.
/// The program is then dropped.
pub fn types(alloc: Global, program: Program) -> Result<Typed, Refusal>
    ensures same { IfOk result (λ t. program_view t ≡ program_view program) }
    ensures typed { IfOk result (λ _. IsTyped (program_view program)) }
    ensures faulty { (r : Refused) → IsTypingFault (program_view program) r → IsErr result }
    ensures refused { IfErr result (λ e. IsRefusal (program_view program) (refusal_view e)) }
{
    match first_fault(alloc, &program) {
        Ok(found) => with_names(program, found),
        Err(_) => Err(no_memory()),
    }
}
