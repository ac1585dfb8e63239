//! Calls: where their frames are active, and what is held of them at first.

ghost use Rattle.std.specs.Prelude.{◌≡◌, ◌++◌, ◌∷◌, [], IfOk, OnOk, map};
ghost use Rattle.lus_tree.specs.View.{expr_view};
ghost use Rattle.lus_meaning.specs.Scene.{while_true};
ghost use Rattle.lus_streams.specs.Clocks.{clock_seen};
ghost use Rattle.sys_meaning.specs.Part.{equal_parts, fixed, variable};
ghost use Rattle.sys_parts.specs.Constants.{constant_view};
ghost use Rattle.sys_terms.specs.View.{term_view, terms_view};
ghost use Rattle.sys_texts.specs.Views.{modes_view, output_view, sight_view};
ghost use Rattle.sys_conditions.specs.Conditioned.{held_at_first, runs_where};
ghost use Rattle.sys_conditions.specs.Views.{manner_view};

use crate::occurrences::Manner;
use lus_streams::clock::Clock;
use lus_tree::Expr;
use std::alloc::{AllocError, Global};
use sys_parts::choices::equal_parts;
use sys_parts::constant::Constant;
use sys_parts::formulas::{both, flag};
use sys_parts::parts::{fixed, variable};
use sys_parts::values::no_value;
use sys_terms::Term;
use sys_texts::presence::present;
use sys_texts::sight::{Mode, Output, Sight};
use sys_texts::texts::formula;

/// Where a clock is on and a condition is true.
fn present_while(
    alloc: Global,
    sight: &Sight<'_>,
    modes: &[Mode<'_>],
    clock: Clock<'_>,
    condition: &Expr,
) -> Result<Term, AllocError>
    ensures { IfOk result (λ t. term_view t ≡ runs_where (sight_view sight.now) (modes_view modes.now)
        (clock_seen clock.entry) (while_true (expr_view condition.now))) }
{
    let on = present(alloc, sight, clock)?;
    let holds = formula(alloc, sight, modes, condition)?;
    both(alloc, on, holds)
}

/// Where a call's frame is active.
///
/// # Errors
///
/// Want of memory.
pub fn runs_where(
    alloc: Global,
    sight: &Sight<'_>,
    modes: &[Mode<'_>],
    clock: Clock<'_>,
    manner: Manner<'_>,
) -> Result<Term, AllocError>
    ensures { IfOk result (λ t. term_view t ≡ runs_where (sight_view sight.now) (modes_view modes.now)
        (clock_seen clock.entry) (manner_view manner.entry)) }
{
    match manner {
        Manner::Plain => present(alloc, sight, clock),
        Manner::While(condition) => present_while(alloc, sight, modes, clock, condition),
        Manner::Import(_) => Ok(flag(sight.beat)),
    }
}

/// That an output is held to be a value.
fn held_as(alloc: Global, output: Output, value: Constant) -> Result<Term, AllocError>
    ensures { IfOk result (λ t. term_view t ≡ equal_parts
        (variable (output_view output).sort (output_view output).held) (fixed (constant_view value))) }
{
    equal_parts(alloc, variable(output.sort, output.held), fixed(value))
}

/// The formulas, and behind them that an output is held to be the first of these values.
fn push_held_as(
    alloc: Global,
    formulas: &mut Vec<Term>,
    output: Output,
    values: &[Constant],
) -> Result<(), AllocError>
    ensures { OnOk result (terms_view formulas.new.items ≡ terms_view formulas.old.items
        ++ held_at_first (output_view output ∷ []) (map constant_view values.now)) }
{
    let value = match values {
        [] => no_value(),
        [value, ..] => *value,
    };
    let condition = held_as(alloc, output, value)?;
    formulas.push(condition)?;
    Ok(())
}

/// The formulas, and behind them that these outputs are held to be these values; where there are fewer values the
/// others are held to be none.
///
/// # Errors
///
/// Want of memory.
pub fn push_held_at_first(
    alloc: Global,
    formulas: &mut Vec<Term>,
    outputs: &[Output],
    values: &[Constant],
) -> Result<(), AllocError>
    ensures { OnOk result (terms_view formulas.new.items ≡ terms_view formulas.old.items
        ++ held_at_first (map output_view outputs.now) (map constant_view values.now)) }
{
    match outputs {
        [] => Ok(()),
        [output, others @ ..] => {
            push_held_as(alloc, formulas, *output, values)?;
            let rest = match values {
                [] => values,
                [_, rest @ ..] => rest,
            };
            push_held_at_first(alloc, formulas, others, rest)
        }
    }
}
