//! The limits of a program.

ghost use Rattle.std.specs.Prelude.{◌≡◌, Contains, IfErr, IfOk, IsErr, List, MatchResult, map};
ghost use Rattle.lus_tree.specs.Reason.{Refused, refusal_view};
ghost use Rattle.lus_tree.specs.View.{program_view};
ghost use Rattle.lus_meaning.specs.ClockFaults.{components};
ghost use Rattle.lus_meaning.specs.Faults.{IsFirst};
ghost use Rattle.lus_meaning.specs.Limits.{size_faults};
ghost use Rattle.lus_meaning.specs.Refusals.{HasNone, IsChecked, IsLimitFault, IsWithinLimits};
ghost use Rattle.lus_limits.specs.SystemSizes.{system_size};
ghost use Rattle.lus_scopes.specs.Least.{IsLeast, least_view};
ghost use Rattle.lus_bounds.specs.Checked.{IsRefusal};
ghost use Rattle.lus_bounds.specs.Passed.{name_seen};
ghost use Rattle.lus_bounds.specs.Widths.{cut_widths, widths};

use crate::faults::{node_widths, note_limits, note_main};
use lus_limits::{SystemSize, system_sizes};
use lus_scopes::least::Least;
use lus_scopes::memory::no_memory;
use lus_tree::{Program, Refusal};
use std::alloc::{AllocError, Global};

/// What is found of a program: the least of its faults of limits, and how many variables the systems of its nodes and
/// functions have, cut.
#[derive(Drop)]
struct Found {
    least: Least,
    widths: Vec<usize>,
}

/// The least of the faults of limits, by the sizes of all systems.
fn least_fault(program: &Program, sizes: &[SystemSize], main: Option<&str>) -> Least
    requires { sizes.now ≡ map (system_size (program_view program.now)) (components (program_view program.now)) }
    ensures { IsLeast (least_view result) (size_faults (program_view program.now) (name_seen main.entry)) }
{
    let mut least = Least::new();
    note_main(&mut least, program, main);
    note_limits(&mut least, sizes, &program.decls);
    least
}

/// The least of the faults of limits, and the numbers of variables.
fn checked(alloc: Global, program: &Program, main: Option<&str>) -> Result<Found, AllocError>
    requires checked { IsChecked (program_view program.now) }
    ensures least { IfOk result (λ f. IsLeast (least_view f.least)
        (size_faults (program_view program.now) (name_seen main.entry))) }
    ensures widths { IfOk result (λ f. f.widths.items ≡ cut_widths (program_view program.now)) }
{
    let sizes = system_sizes(alloc, program)?;
    let least = least_fault(program, &sizes, main);
    let widths = node_widths(alloc, &sizes, &program.decls)?;
    Ok(Found { least, widths })
}

/// The numbers of variables, where no fault was noted.
fn unless_faulty(least: Least, numbers: Vec<usize>) -> Result<Vec<usize>, Refusal>
    ensures told { (fs : List Refused) → IsLeast (least_view least) fs
        → MatchResult result (λ _. HasNone (Contains fs)) (λ e. IsFirst (Contains fs) (refusal_view e)) }
    ensures widths { IfOk result (λ v. v.items ≡ numbers.items) }
{
    match least.into_result() {
        Ok(()) => Ok(numbers),
        Err(refusal) => Err(refusal),
    }
}

/// Whether a checked program is within the limits: it has at most 500 declarations, constants left out; each declares
/// at most 2,000 names; and each node and function has at most 500 properties, and its system at most 20,000 variables
/// and terms of at most 4,000 levels and 1,000,000 parts. `main` is the name of the analysed node, where one is given.
/// Then the answer is how many variables the system of each node and function has, in text order.
///
/// # Errors
///
/// A first of the faults of limits: `MainUnknown` at 1:1 where `main` names no node and no function, or `TooMany` with
/// the first of these limits that a declaration passes, at its name. Or `Memory` at 1:1.
pub fn limits(alloc: Global, program: &Program, main: Option<&str>) -> Result<Vec<usize>, Refusal>
    requires checked { IsChecked (program_view program.now) }
    ensures within { IfOk result (λ _. IsWithinLimits (program_view program.now) (name_seen main.entry)) }
    ensures faulty { (r : Refused) → IsLimitFault (program_view program.now) (name_seen main.entry) r → IsErr result }
    ensures refused { IfErr result (λ e. IsRefusal (program_view program.now) (name_seen main.entry) (refusal_view e)) }
    ensures widths { IfOk result (λ v. v.items ≡ widths (program_view program.now)) }
{
    match checked(alloc, program, main) {
        Ok(found) => unless_faulty(found.least, found.widths),
        Err(_) => Err(no_memory()),
    }
}
