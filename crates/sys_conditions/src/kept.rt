//! What is kept from a state to the next.

ghost use Rattle.std.specs.Prelude.{◌≡◌, ◌++◌, IfOk, OnOk, map};
ghost use Rattle.sys_meaning.specs.Part.{all_of};
ghost use Rattle.sys_parts.specs.Parts.{part_view};
ghost use Rattle.sys_terms.specs.View.{term_view, terms_view};
ghost use Rattle.sys_texts.specs.Views.{modes_view, output_view, sight_view};
ghost use Rattle.sys_conditions.specs.Conditioned.{at_first, becomes, held_condition, held_conditions, kept, memory_condition, memory_conditions, so_far_condition, start_condition, start_conditions, waits, where_active};
ghost use Rattle.sys_conditions.specs.Views.{memory_view, start_view};

use crate::assertions::where_active;
use crate::occurrences::{Memory, Start};
use lus_tree::Sort;
use std::alloc::{AllocError, Global};
use sys_parts::choices::{choose_part, equal_parts};
use sys_parts::formulas::{both, flag, negation};
use sys_parts::joins::all_of;
use sys_parts::parts::{Part, variable, variable_in};
use sys_terms::Term;
use sys_texts::outputs::latest_part;
use sys_texts::presence::present;
use sys_texts::sight::{Mode, Output, Sight, memory, start};
use sys_texts::sorts::sort_of;
use sys_texts::texts::part_of;

/// The variable of the next state is the part.
fn becomes(alloc: Global, sort: Sort, number: u32, part: Part) -> Result<Term, AllocError>
    ensures { IfOk result (λ t. term_view t ≡ becomes sort number (part_view part)) }
{
    equal_parts(alloc, variable_in(true, sort, number), part)
}

/// A memory is the operand where its clock is on, else what it was.
fn kept(alloc: Global, sort: Sort, number: u32, on: Term, operand: Part) -> Result<Term, AllocError>
    ensures { IfOk result (λ t. term_view t ≡ kept sort number (term_view on) (part_view operand)) }
{
    let part = choose_part(alloc, on, operand, variable(sort, number))?;
    becomes(alloc, sort, number, part)
}

/// What holds of the memory of a `pre`.
#[tactic(auto, unfolding(crate::specs::Conditioned::memory_condition))]
fn memory_condition(
    alloc: Global,
    sight: &Sight<'_>,
    modes: &[Mode<'_>],
    occurrence: &Memory<'_>,
) -> Result<Term, AllocError>
    ensures { IfOk result (λ t. term_view t ≡ memory_condition (sight_view sight.now) (modes_view modes.now)
        (memory_view occurrence.now)) }
{
    let on = present(alloc, sight, occurrence.clock)?;
    let operand = part_of(alloc, sight, modes, occurrence.operand)?;
    let number = memory(sight, occurrence.number);
    kept(
        alloc,
        sort_of(sight, occurrence.operand),
        number,
        on,
        operand,
    )
}

/// The formulas, and behind them what holds of these memories.
///
/// # Errors
///
/// Want of memory.
pub fn push_memories(
    alloc: Global,
    formulas: &mut Vec<Term>,
    sight: &Sight<'_>,
    modes: &[Mode<'_>],
    memories: &[Memory<'_>],
) -> Result<(), AllocError>
    ensures { OnOk result (terms_view formulas.new.items ≡ terms_view formulas.old.items
        ++ memory_conditions (sight_view sight.now) (modes_view modes.now) (map memory_view memories.now)) }
{
    for occurrence in memories {
        let condition = memory_condition(alloc, sight, modes, occurrence)?;
        formulas.push(condition)?;
    }
    Ok(())
}

/// A start is over once its clock was on.
fn waits(alloc: Global, number: u32, on: Term) -> Result<Term, AllocError>
    ensures { IfOk result (λ t. term_view t ≡ waits number (term_view on)) }
{
    let off = negation(alloc, on)?;
    let still = both(alloc, flag(number), off)?;
    becomes(alloc, Sort::Bool, number, Part::Flag(still))
}

/// What holds of the start of a `->`.
fn start_condition(
    alloc: Global,
    sight: &Sight<'_>,
    occurrence: &Start<'_>,
) -> Result<Term, AllocError>
    ensures { IfOk result (λ t. term_view t ≡ start_condition (sight_view sight.now) (start_view occurrence.now)) }
{
    let on = present(alloc, sight, occurrence.clock)?;
    waits(alloc, start(sight, occurrence.number), on)
}

/// The formulas, and behind them what holds of these starts.
///
/// # Errors
///
/// Want of memory.
pub fn push_starts(
    alloc: Global,
    formulas: &mut Vec<Term>,
    sight: &Sight<'_>,
    starts: &[Start<'_>],
) -> Result<(), AllocError>
    ensures { OnOk result (terms_view formulas.new.items ≡ terms_view formulas.old.items
        ++ start_conditions (sight_view sight.now) (map start_view starts.now)) }
{
    for occurrence in starts {
        let condition = start_condition(alloc, sight, occurrence)?;
        formulas.push(condition)?;
    }
    Ok(())
}

/// The formulas, and behind them that these are at their start.
///
/// # Errors
///
/// Want of memory.
pub fn push_at_first(
    formulas: &mut Vec<Term>,
    sight: &Sight<'_>,
    starts: &[Start<'_>],
) -> Result<(), AllocError>
    ensures { OnOk result (terms_view formulas.new.items ≡ terms_view formulas.old.items
        ++ at_first (sight_view sight.now) (map start_view starts.now)) }
{
    for occurrence in starts {
        formulas.push(flag(start(sight, occurrence.number)))?;
    }
    Ok(())
}

/// Where the frame is not active, or all these are true.
fn kept_so_far(alloc: Global, sight: &Sight<'_>, assumes: &[Term]) -> Result<Term, AllocError>
    ensures { IfOk result (λ t. term_view t ≡ where_active (sight_view sight.now).beat
        (all_of (terms_view assumes.now))) }
{
    let all = all_of(alloc, assumes)?;
    where_active(alloc, sight.beat, all)
}

/// What holds of the variable of this number, which says whether the assumptions were true so far.
///
/// # Errors
///
/// Want of memory.
pub fn so_far_condition(
    alloc: Global,
    sight: &Sight<'_>,
    number: u32,
    assumes: &[Term],
) -> Result<Term, AllocError>
    ensures { IfOk result (λ t. term_view t ≡ so_far_condition (sight_view sight.now) number (terms_view assumes.now)) }
{
    let now = kept_so_far(alloc, sight, assumes)?;
    let always = both(alloc, flag(number), now)?;
    becomes(alloc, Sort::Bool, number, Part::Flag(always))
}

/// What holds of the variable that holds an output.
fn held_condition(alloc: Global, beat: u32, output: Output) -> Result<Term, AllocError>
    ensures { IfOk result (λ t. term_view t ≡ held_condition beat (output_view output)) }
{
    let latest = latest_part(alloc, beat, output)?;
    becomes(alloc, output.sort, output.held, latest)
}

/// The formulas, and behind them what holds of what holds these outputs of a call.
///
/// # Errors
///
/// Want of memory.
pub fn push_held(
    alloc: Global,
    formulas: &mut Vec<Term>,
    beat: u32,
    outputs: &[Output],
) -> Result<(), AllocError>
    ensures { OnOk result (terms_view formulas.new.items ≡ terms_view formulas.old.items
        ++ held_conditions beat (map output_view outputs.now)) }
{
    for output in outputs {
        let condition = held_condition(alloc, beat, *output)?;
        formulas.push(condition)?;
    }
    Ok(())
}
