//! The rules of equations of a program.

ghost use Rattle.std.specs.Prelude.{◌≡◌, IfErr, IfOk, IsErr, MatchResult, Contains, map};
ghost use Rattle.lus_tree.specs.Reason.{Refused, refusal_view};
ghost use Rattle.lus_tree.specs.Tree.{Component, Program as ProgramTree};
ghost use Rattle.lus_tree.specs.View.{program_view};
ghost use Rattle.lus_meaning.specs.ClockFaults.{components};
ghost use Rattle.lus_meaning.specs.EquationFaults.{IsEquationFault};
ghost use Rattle.lus_meaning.specs.Faults.{IsFirst};
ghost use Rattle.lus_meaning.specs.Grammatical.{IsGrammatical};
ghost use Rattle.lus_meaning.specs.Refusals.{HasNone, IsTyped};
ghost use Rattle.lus_meaning.specs.Scene.{variables};
ghost use Rattle.lus_meaning.specs.WellMade.{AreDistinct};
ghost use Rattle.lus_scopes.specs.Least.{least_view};
ghost use Rattle.lus_order.specs.Checked.{AllNoted, AreLeastOrders, AreOrdered, IsCheckedBy, IsRefusal};
ghost use Rattle.lus_order.specs.Dependences.{orders_seen, reads_seen};
ghost use Rattle.lus_order.specs.Library.{library_view};
ghost use Rattle.lus_order.specs.OutputReads.{AreAllReads, AreReadsByOwn};
ghost use Rattle.lus_streams.specs.Owner.{owner_view};
ghost use Rattle.lus_order.specs.OwnReads.{AreFlagsOf};
ghost use Rattle.lus_order.specs.Reads.{callees_view};
ghost use Rattle.lus_order.specs.Streams.{names_of};

use crate::declarations::owners_of;
use crate::dependence::Dependence;
use crate::learned::library_of;
use crate::left_names::left_names;
use crate::library::Library;
use crate::ordered::ordered;
use lus_scopes::least::Least;
use lus_scopes::memory::no_memory;
use lus_streams::owner::Owner;
use lus_tree::{Program, Refusal};
use std::alloc::{AllocError, Global};

/// Notes the faults of circles of declarations, and gives the order of the equations of each and what its outputs read.
fn all_ordered<'a>(
    alloc: Global,
    least: &mut Least,
    library: &Library<'a>,
    owners: &[Owner<'a>],
) -> Result<Vec<Dependence>, AllocError>
    requires distinct { (n : Component) → Contains (map owner_view owners.now) n → AreDistinct
        (names_of (variables n)) }
    requires flags { AreFlagsOf (library_view library.now) (callees_view library.now.callees) }
    ensures noted { IfOk result (λ _. AllNoted (map owner_view owners.now) (library_view library.now)
        (least_view least.old) (least_view least.new)) }
    ensures orders { IfOk result (λ v. AreOrdered (library_view library.now) (map owner_view owners.now)
        (orders_seen v.items)) }
    ensures reads { IfOk result (λ v. AreReadsByOwn (library_view library.now) (map owner_view owners.now)
        (reads_seen v.items)) }
{
    let mut all = Vec::new(alloc);
    for owner in owners {
        let dependence = ordered(alloc, least, library, *owner)?;
        all.push(dependence)?;
    }
    Ok(all)
}

/// The first fault of a program's equations, and what is found of its declarations.
#[derive(Drop)]
struct Found {
    least: Least,
    all: Vec<Dependence>,
}

/// What is found in a program.
fn checked(alloc: Global, program: &Program) -> Result<Found, AllocError>
    requires grammatical { IsGrammatical (program_view program.now) }
    requires typed { IsTyped (program_view program.now) }
    ensures checked { IfOk result (λ f. IsCheckedBy (program_view program.now) (least_view f.least)
        (orders_seen f.all.items)) }
    ensures reads { IfOk result (λ f. AreAllReads (program_view program.now) (components (program_view program.now))
        (reads_seen f.all.items)) }
{
    let mut least = Least::new();
    left_names(alloc, program, &mut least)?;
    let library = library_of(alloc, program)?;
    let owners = owners_of(alloc, program)?;
    let all = all_ordered(alloc, &mut least, &library, &owners)?;
    Ok(Found { least, all })
}

/// What is found of the declarations, where no fault was found.
fn with_orders(found: Found) -> Result<Vec<Dependence>, Refusal>
    ensures judged { (p : ProgramTree) → IsCheckedBy p (least_view found.least) (orders_seen found.all.items)
        → MatchResult result (λ v. HasNone (IsEquationFault p) × AreLeastOrders p (components p) (orders_seen v.items))
        (λ e. IsFirst (IsEquationFault p) (refusal_view e)) }
    ensures reads { IfOk result (λ v. reads_seen v.items ≡ reads_seen found.all.items) }
{
    let Found { least, all } = found;
    match least.into_result() {
        Ok(()) => Ok(all),
        Err(fault) => Err(fault),
    }
}

/// Of each of a program's declarations, constants left out, in text order: the least order of the numbers of its
/// equations, ghost ones first, in which each stands behind all that it needs at its instant; and for each output the
/// numbers of the inputs on which it depends at the same instant, ascending.
///
/// # Errors
///
/// A first of the faults of equations: a name that stands on the left twice or is neither output nor local, an equation
/// that depends on itself at one instant, or a stream whose clocks go in a circle. Or `Memory` at 1:1.
pub fn equations(alloc: Global, program: &Program) -> Result<Vec<Dependence>, Refusal>
    requires grammatical { IsGrammatical (program_view program.now) }
    requires typed { IsTyped (program_view program.now) }
    ensures orders { IfOk result (λ v. AreLeastOrders (program_view program.now) (components (program_view program.now))
        (orders_seen v.items)) }
    ensures reads { IfOk result (λ v. AreAllReads (program_view program.now) (components (program_view program.now))
        (reads_seen v.items)) }
    ensures sound { IfOk result (λ _. HasNone (IsEquationFault (program_view program.now))) }
    ensures faulty { (r : Refused) → IsEquationFault (program_view program.now) r → IsErr result }
    ensures refused { IfErr result (λ e. IsRefusal (program_view program.now) (refusal_view e)) }
{
    match checked(alloc, program) {
        Ok(found) => with_orders(found),
        Err(_) => Err(no_memory()),
    }
}
