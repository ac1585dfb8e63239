//! A program whose clocks are right.

ghost use Rattle.std.specs.Prelude.{◌≡◌, IfErr, IfOk, IsErr, Some, true, unwrap_or};
ghost use Rattle.lus_tree.specs.Reason.{Refused, refusal_view};
ghost use Rattle.lus_tree.specs.View.{expr_view, program_view};
ghost use Rattle.lus_meaning.specs.ClockFaults.{clock_faults};
ghost use Rattle.lus_meaning.specs.Faults.{IsFirst};
ghost use Rattle.lus_meaning.specs.Refusals.{IsClockFault, IsClocked, IsTyped};
ghost use Rattle.lus_meaning.specs.Scene.{base};
ghost use Rattle.lus_scopes.specs.Least.{IsLeast, least_view};
ghost use Rattle.lus_types.specs.Names.{sort_in};
ghost use Rattle.lus_types.specs.Standing.{StandsIn, has_one_value};
ghost use Rattle.lus_clocks.specs.Cells.{clock_given};
ghost use Rattle.lus_clocks.specs.Program.{IsRefusal, KeepAll, program_clock};

use crate::cells::Sampling;
use crate::occurrence::Occurrence;
use crate::program::{Found, checked};
use crate::table::Table;
use lus_scopes::memory::no_memory;
use lus_tree::{Expr, Program, Refusal, Sort};
use lus_types::Typed;
use std::alloc::Global;
use std::marker::Model;

/// A program that breaks no rule of names, types, numbers and clocks, as `clocks` makes it. Contracts
/// see the program.
#[derive(Drop)]
pub struct Clocked {
    typed: Typed,
    tables: Vec<Table>,
}

impl Model for Clocked {
    ghost use Rattle.lus_tree.specs.declared.declaration.Program.{Program};
    ghost use Rattle.lus_tree.specs.contracts.declaration.Program as e;
    ghost use Rattle.std.specs.Coded.{codes};
    ghost use Rattle.lus_tree.specs.View.{program_view};
    ghost use Rattle.lus_meaning.specs.Refusals.{IsClocked};
    ghost use Rattle.lus_clocks.specs.Program.{KeepAll};

    ghost Value = { Program };

    ghost coded = { Prim.hlevel (codes, e.the_row.coded) };

    ghost view = { λ c. c.typed };

    ghost invariant = { λ c. IsClocked (program_view c.typed) × KeepAll c.tables.items (program_view c.typed) };
}

impl Clocked {
    /// The program, of which the caller knows that it breaks no such rule, with its clocks.
    fn of(typed: Typed, tables: Vec<Table>) -> Self
        requires clocked { IsClocked (program_view typed) }
        requires kept { KeepAll tables.items (program_view typed) }
        ensures { program_view result ≡ program_view typed }
    {
        Clocked { typed, tables }
    }

    /// The program. Its names, types, numbers and clocks are right.
    pub fn program(&self) -> &Program
        ensures same { program_view result.now ≡ program_view self.now }
        ensures clocked { IsClocked (program_view self.now) }
    {
        self.typed.program()
    }

    /// The same program.
    pub fn into_program(self) -> Program
        ensures same { program_view result ≡ program_view self }
        ensures clocked { IsClocked (program_view result) }
    {
        self.typed.into_program()
    }

    /// The program with what is known of its names and types.
    pub fn typed(&self) -> &Typed
        ensures { program_view result.now ≡ program_view self.now }
    {
        &self.typed
    }

    /// The type of an expression of the declaration of that number, constants included, counted from 0 in
    /// text order. It stands there, and has one value.
    pub fn sort(&self, declaration: u32, e: &Expr) -> Sort
        requires stands { StandsIn (program_view self.now) declaration (expr_view e.now) }
        requires one { has_one_value (program_view self.now) (expr_view e.now) ≡ true }
        ensures { sort_in (program_view self.now) declaration (expr_view e.now) ≡ Some result }
    {
        self.typed.sort(declaration, e)
    }

    /// The clock of the place of a numbered occurrence, in the declaration of that number, constants
    /// included, counted from 0 in text order. None exactly where it is the base clock, and where
    /// the declaration has no such occurrence.
    pub fn clock(&self, declaration: u32, occurrence: Occurrence) -> Option<&Sampling>
        ensures { clock_given result ≡ unwrap_or (program_clock (program_view self.now) declaration occurrence) base }
    {
        match self.tables.get(declaration as usize) {
            Some(table) => table.clock(occurrence),
            None => None,
        }
    }
}

/// The program where none of its faults was found, with the clocks that were.
fn with_clocks(typed: Typed, found: Found) -> Result<Clocked, Refusal>
    requires typed { IsTyped (program_view typed) }
    requires least { IsLeast (least_view found.least) (clock_faults (program_view typed)) }
    requires kept { KeepAll found.tables.items (program_view typed) }
    ensures same { IfOk result (λ c. program_view c ≡ program_view typed) }
    ensures clocked { IfOk result (λ _. IsClocked (program_view typed)) }
    ensures first { IfErr result (λ e. IsFirst (IsClockFault (program_view typed)) (refusal_view e)) }
{
    let Found { least, tables } = found;
    least.into_result()?;
    Ok(Clocked::of(typed, tables))
}

/// The program, with the fact that it breaks no rule of clocks, and the clocks of its numbered
/// occurrences.
///
/// # Errors
///
/// `ClockClash` at the first of its faults by place. Or `Memory` at 1:1. The program is then dropped.
pub fn clocks(alloc: Global, typed: Typed) -> Result<Clocked, Refusal>
    ensures same { IfOk result (λ c. program_view c ≡ program_view typed) }
    ensures clocked { IfOk result (λ _. IsClocked (program_view typed)) }
    ensures faulty { (r : Refused) → IsClockFault (program_view typed) r → IsErr result }
    ensures refused { IfErr result (λ e. IsRefusal (program_view typed) (refusal_view e)) }
{
    match checked(alloc, typed.program()) {
        Ok(found) => with_clocks(typed, found),
        Err(_) => Err(no_memory()),
    }
}
