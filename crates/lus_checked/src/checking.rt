//! Whether a program follows the rules of equations and passes no limit.

ghost use Rattle.std.specs.Prelude.{◌≡◌, IfErr, IfOk, Some, map};
ghost use Rattle.lus_tree.specs.Reason.{refusal_view};
ghost use Rattle.lus_tree.specs.View.{program_view};
ghost use Rattle.lus_meaning.specs.ClockFaults.{components};
ghost use Rattle.lus_meaning.specs.Grammatical.{IsGrammatical};
ghost use Rattle.lus_meaning.specs.Refusals.{IsChecked, IsClocked, IsWithinLimits};
ghost use Rattle.lus_order.specs.Checked.{AreLeastOrders};
ghost use Rattle.lus_order.specs.Dependences.{orders_seen, reads_seen};
ghost use Rattle.lus_order.specs.OutputReads.{AreAllReads};
ghost use Rattle.lus_bounds.specs.Passed.{name_seen};
ghost use Rattle.lus_bounds.specs.Widths.{widths as widths_of};
ghost use Rattle.lus_checked.specs.Main.{main_node};
ghost use Rattle.lus_checked.specs.Program.{IsCheckedWith, main_of, tree_of};
ghost use Rattle.lus_checked.specs.Refusals.{IsRefusal};

use crate::checked_program::Checked;
use crate::kept::Kept;
use crate::listing::all_properties;
use crate::main_node::main_number;
use crate::orders::{all_orders, narrowed};
use crate::reads::all_reads;
use lus_bounds::limits;
use lus_clocks::Clocked;
use lus_order::{Dependence, equations};
use lus_scopes::memory::no_memory;
use lus_tree::{Program, Refusal};
use std::alloc::{AllocError, Global};

/// The number of the main node of a program within the limits.
///
/// # Errors
///
/// A number that 32 bits can't hold.
fn checked_main(program: &Program, main: Option<&str>) -> Result<u32, AllocError>
    requires checked { IsChecked (program_view program.now) }
    requires within { IsWithinLimits (program_view program.now) (name_seen main) }
    ensures { IfOk result (λ k. main_node (program_view program.now) (name_seen main.entry) ≡ Some k) }
{
    let Some(number) = main_number(program, main) else {
        unreachable!();
    };
    match u32::try_from(number) {
        Ok(number) => Ok(number),
        Err(_) => Err(AllocError),
    }
}

/// What is kept of a program within the limits, by what its declarations depend on, and its widths.
fn kept(
    alloc: Global,
    program: &Program,
    found: &[Dependence],
    widths: &[usize],
    main: Option<&str>,
) -> Result<Kept, AllocError>
    requires checked { IsChecked (program_view program.now) }
    requires within { IsWithinLimits (program_view program.now) (name_seen main) }
    requires orders { AreLeastOrders (program_view program.now) (components (program_view program.now))
        (orders_seen found.now) }
    requires reads { AreAllReads (program_view program.now) (components (program_view program.now))
        (reads_seen found.now) }
    requires widths { widths.now ≡ widths_of (program_view program.now) }
    ensures kept { IfOk result (λ k. IsCheckedWith (program_view program.now) k) }
    ensures main { IfOk result (λ k. main_node (program_view program.now) (name_seen main.entry) ≡ Some k.main) }
{
    let main = checked_main(program, main)?;
    let orders = all_orders(alloc, found)?;
    let widths = narrowed(alloc, widths)?;
    let properties = all_properties(alloc, program)?;
    let reads = all_reads(alloc, found, &program.decls)?;
    Ok(Kept {
        main,
        orders,
        widths,
        properties,
        reads,
    })
}

/// What is kept of a program, where it breaks no rule of equations and passes no limit.
#[tactic(auto, using(crate::proofs::Joined::followed, crate::proofs::Joined::whole))]
fn judged(alloc: Global, program: &Program, main: Option<&str>) -> Result<Kept, Refusal>
    requires grammatical { IsGrammatical (program_view program.now) }
    requires clocked { IsClocked (program_view program.now) }
    ensures kept { IfOk result (λ k. IsCheckedWith (program_view program.now) k) }
    ensures within { IfOk result (λ _. IsWithinLimits (program_view program.now) (name_seen main.entry)) }
    ensures main { IfOk result (λ k. main_node (program_view program.now) (name_seen main.entry) ≡ Some k.main) }
    ensures refused { IfErr result (λ e. IsRefusal (program_view program.now) (name_seen main.entry) (refusal_view e)) }
{
    let found = equations(alloc, program)?;
    let widths = limits(alloc, program, main)?;
    match kept(alloc, program, &found, &widths, main) {
        Ok(kept) => Ok(kept),
        Err(_) => Err(no_memory()),
    }
}

/// The program, with the fact that it breaks no rule and passes no limit, the orders of its equations and its main
/// node: the one that is named, else the first with a mark, else the last.
///
/// # Errors
///
/// Where it has a fault of equations a first of these: `EquationTwice`, `InputDefined` or `Cycle`. Else, where it
/// passes a limit, a first of these faults: `MainUnknown` at 1:1, or `TooMany` with the limit. Or `Memory` at 1:1.
/// The program is then dropped.
pub fn checked(alloc: Global, clocked: Clocked, main: Option<&str>) -> Result<Checked, Refusal>
    requires grammatical { IsGrammatical (program_view clocked) }
    ensures same { IfOk result (λ c. tree_of c ≡ program_view clocked) }
    ensures rules { IfOk result (λ _. IsChecked (program_view clocked)) }
    ensures within { IfOk result (λ _. IsWithinLimits (program_view clocked) (name_seen main.entry)) }
    ensures main { IfOk result (λ c. main_node (program_view clocked) (name_seen main.entry) ≡ Some (main_of c)) }
    ensures refused { IfErr result (λ e. IsRefusal (program_view clocked) (name_seen main.entry) (refusal_view e)) }
{
    match judged(alloc, clocked.program(), main) {
        Ok(kept) => Ok(Checked::of(clocked, kept)),
        Err(refusal) => Err(refusal),
    }
}
