//! The calls of expressions.

ghost use Rattle.std.specs.Prelude.{◌≡◌, ◌++◌, ◌∷◌, [], IfOk, map, flat_map};
ghost use Rattle.lus_tree.specs.View.{contract_item_view, expr_view, exprs_view, joined, word_view};
ghost use Rattle.lus_limits.specs.Calls.{call_view, calls_among, calls_in, condition_call, found_calls, import_call, with_defaults};
ghost use Rattle.lus_streams.specs.Owner.{owner_view};
ghost use Rattle.lus_limits.specs.Parts.{sides_view};

use crate::texts::sides_of;
use lus_streams::owner::Owner;
use lus_tree::{ContractItem, Expr, Form, PlacedName};
use std::alloc::{AllocError, Global};

/// How a call runs: on its clock, where besides a condition is true, or as an import.
#[derive(Clone, Copy)]
pub enum Way {
    Plain,
    Condition,
    Import,
}

/// A call or an import: its number, what it names, how it runs, and how many defaults it has.
#[derive(Clone, Copy)]
pub struct Call<'a> {
    pub number: u32,
    pub callee: &'a PlacedName,
    pub way: Way,
    pub defaults: usize,
}

/// The calls, and behind them one under a condition, with so many defaults.
fn push_counted<'a>(
    calls: &mut Vec<Call<'a>>,
    number: u32,
    callee: &'a PlacedName,
    defaults: usize,
) -> Result<(), AllocError>
    ensures { IfOk result (λ _. map call_view calls.new.items ≡ map call_view calls.old.items
        ++ with_defaults number (word_view callee.now) defaults ∷ []) }
{
    calls.push(Call {
        number,
        callee,
        way: Way::Condition,
        defaults,
    })?;
    Ok(())
}

/// The calls, and behind them one under a condition.
fn push_condition<'a>(
    calls: &mut Vec<Call<'a>>,
    number: u32,
    callee: &'a PlacedName,
    defaults: &[Expr],
) -> Result<(), AllocError>
    ensures { IfOk result (λ _. map call_view calls.new.items ≡ map call_view calls.old.items
        ++ condition_call number (word_view callee.now) (joined (exprs_view defaults.now)) ∷ []) }
{
    push_counted(calls, number, callee, defaults.len())?;
    Ok(())
}

/// The calls, and behind them those of an expression.
#[cycle(calls)]
#[tactic(auto, using(lus_tree::proofs::Views::form_views))]
fn push_calls<'a>(calls: &mut Vec<Call<'a>>, e: &'a Expr) -> Result<(), AllocError>
    ensures { IfOk result (λ _. map call_view calls.new.items ≡ map call_view calls.old.items
        ++ calls_in (expr_view e.now)) }
{
    match &e.form {
        Form::Not(a) | Form::Minus(a) | Form::Pre(_, a) | Form::When(a, _, _) => {
            push_calls(calls, a)
        }
        Form::Arrow(_, a, b) | Form::Binary(_, a, b) | Form::Merge(_, a, b) => {
            push_calls_of_two(calls, a, b)
        }
        Form::If(a, b, c) => push_calls_of_three(calls, a, b, c),
        Form::Call(number, callee, arguments) => {
            calls.push(Call {
                number: *number,
                callee,
                way: Way::Plain,
                defaults: 0,
            })?;
            push_calls_among(calls, arguments)
        }
        Form::Condact(number, a, callee, arguments, defaults) => {
            push_condition(calls, *number, callee, defaults)?;
            push_calls(calls, a)?;
            push_calls_among(calls, arguments)?;
            push_calls_among(calls, defaults)
        }
        Form::Truth(_) | Form::Number(_) | Form::Name(_) | Form::ModeName(_, _) => Ok(()),
    }
}

/// The calls, and behind them those of two expressions.
#[cycle(calls)]
fn push_calls_of_two<'a>(
    calls: &mut Vec<Call<'a>>,
    first: &'a Expr,
    second: &'a Expr,
) -> Result<(), AllocError>
    ensures { IfOk result (λ _. map call_view calls.new.items ≡ map call_view calls.old.items
        ++ (calls_in (expr_view first.now) ++ calls_in (expr_view second.now))) }
{
    push_calls(calls, first)?;
    push_calls(calls, second)
}

/// The calls, and behind them those of three expressions.
#[cycle(calls)]
fn push_calls_of_three<'a>(
    calls: &mut Vec<Call<'a>>,
    first: &'a Expr,
    second: &'a Expr,
    third: &'a Expr,
) -> Result<(), AllocError>
    ensures { IfOk result (λ _. map call_view calls.new.items ≡ map call_view calls.old.items
        ++ (calls_in (expr_view first.now) ++ (calls_in (expr_view second.now) ++ calls_in (expr_view third.now)))) }
{
    push_calls(calls, first)?;
    push_calls_of_two(calls, second, third)
}

/// The calls, and behind them those of these expressions.
#[cycle(calls)]
fn push_calls_among<'a>(calls: &mut Vec<Call<'a>>, values: &'a [Expr]) -> Result<(), AllocError>
    ensures { IfOk result (λ _. map call_view calls.new.items ≡ map call_view calls.old.items
        ++ calls_among (joined (exprs_view values.now))) }
{
    for value in values {
        push_calls(calls, value)?;
    }
    Ok(())
}

/// The calls, and behind them those of a declaration's expressions.
fn push_calls_of_sides<'a>(calls: &mut Vec<Call<'a>>, sides: &[&'a Expr]) -> Result<(), AllocError>
    ensures { IfOk result (λ _. map call_view calls.new.items ≡ map call_view calls.old.items
        ++ flat_map calls_in (sides_view sides.now)) }
{
    for side in sides {
        push_calls(calls, *side)?;
    }
    Ok(())
}

/// The calls, and behind them an import.
fn push_import<'a>(calls: &mut Vec<Call<'a>>, item: &'a ContractItem) -> Result<(), AllocError>
    ensures { IfOk result (λ _. map call_view calls.new.items ≡ map call_view calls.old.items
        ++ import_call (contract_item_view item.now)) }
{
    match item {
        ContractItem::Import(number, callee, _, _) => {
            calls.push(Call {
                number: *number,
                callee,
                way: Way::Import,
                defaults: 0,
            })?;
            Ok(())
        }
        ContractItem::Assume(_)
        | ContractItem::Guarantee(_)
        | ContractItem::Ghost(_, _)
        | ContractItem::Constant(_)
        | ContractItem::Mode(_, _, _) => Ok(()),
    }
}

/// The calls, and behind them the imports of a contract.
fn push_imports<'a>(calls: &mut Vec<Call<'a>>, items: &'a [ContractItem]) -> Result<(), AllocError>
    ensures { IfOk result (λ _. map call_view calls.new.items ≡ map call_view calls.old.items
        ++ flat_map import_call (map contract_item_view items.now)) }
{
    for item in items {
        push_import(calls, item)?;
    }
    Ok(())
}

/// The calls and imports of a declaration.
///
/// # Errors
///
/// Want of memory.
pub(crate) fn found_calls(alloc: Global, part: Owner<'_>) -> Result<Vec<Call<'_>>, AllocError>
    ensures { IfOk result (λ v. map call_view v.items ≡ found_calls (owner_view part.entry)) }
{
    let sides = sides_of(alloc, part)?;
    let mut calls = Vec::new(alloc);
    push_calls_of_sides(&mut calls, &sides)?;
    push_imports(&mut calls, part.contract())?;
    Ok(calls)
}
