//! The numbers of the calls that stand in the texts that are evaluated with a frame.

ghost use Rattle.std.specs.Prelude.{◌≡◌, ◌++◌, IfOk, OnOk, flat_map, map};
ghost use Rattle.lus_tree.specs.View.{contract_item_view, expr_view, exprs_view, item_view, joined};
ghost use Rattle.lus_streams.specs.Owner.{owner_view};
ghost use Rattle.evaluation_parts.specs.CallNumbers.{call_numbers, call_numbers_among, clause_numbers, has_number, is_import_or, numbers_evaluated, statement_numbers};
ghost use Rattle.evaluation_parts.specs.Views.{manner_view};

use crate::frame::Manner;
use lus_streams::owner::Owner;
use lus_tree::{ContractItem, Expr, Form, Item};
use std::alloc::{AllocError, Global};

/// The numbers, and behind them those of the calls of an expression.
#[cycle(numbers)]
#[tactic(auto, using(lus_tree::proofs::Views::form_views))]
fn push_numbers(numbers: &mut Vec<u32>, e: &Expr) -> Result<(), AllocError>
    ensures { OnOk result (numbers.new.items ≡ numbers.old.items ++ call_numbers (expr_view e.now)) }
{
    match &e.form {
        Form::Not(a) | Form::Minus(a) | Form::Pre(_, a) | Form::When(a, _, _) => {
            push_numbers(numbers, a)
        }
        Form::Arrow(_, a, b) | Form::Binary(_, a, b) | Form::Merge(_, a, b) => {
            push_numbers(numbers, a)?;
            push_numbers(numbers, b)
        }
        Form::If(a, b, c) => {
            push_numbers(numbers, a)?;
            push_numbers(numbers, b)?;
            push_numbers(numbers, c)
        }
        Form::Call(number, _, arguments) => {
            numbers.push(*number)?;
            push_numbers_among(numbers, arguments)
        }
        Form::Condact(number, a, _, arguments, defaults) => {
            numbers.push(*number)?;
            push_numbers(numbers, a)?;
            push_numbers_among(numbers, arguments)?;
            push_numbers_among(numbers, defaults)
        }
        Form::Truth(_) | Form::Number(_) | Form::Name(_) | Form::ModeName(_, _) => Ok(()),
    }
}

/// The numbers, and behind them those of the calls of these expressions.
#[cycle(numbers)]
fn push_numbers_among(numbers: &mut Vec<u32>, values: &[Expr]) -> Result<(), AllocError>
    ensures { OnOk result (numbers.new.items
        ≡ numbers.old.items ++ call_numbers_among (joined (exprs_view values.now))) }
{
    for value in values {
        push_numbers(numbers, value)?;
    }
    Ok(())
}

/// The numbers, and behind them those of the calls of the arguments of an import.
fn push_numbers_each(numbers: &mut Vec<u32>, values: &[Expr]) -> Result<(), AllocError>
    ensures { OnOk result (numbers.new.items ≡ numbers.old.items ++ flat_map call_numbers (exprs_view values.now)) }
{
    for value in values {
        push_numbers(numbers, value)?;
    }
    Ok(())
}

/// The numbers, and behind them those of the calls of a ghost variable or an import.
fn push_clause(numbers: &mut Vec<u32>, item: &ContractItem) -> Result<(), AllocError>
    ensures { OnOk result (numbers.new.items ≡ numbers.old.items ++ clause_numbers (contract_item_view item.now)) }
{
    match item {
        ContractItem::Ghost(_, right) => push_numbers(numbers, right),
        ContractItem::Import(_, _, arguments, _) => push_numbers_each(numbers, arguments),
        ContractItem::Assume(_)
        | ContractItem::Guarantee(_)
        | ContractItem::Constant(_)
        | ContractItem::Mode(_, _, _) => Ok(()),
    }
}

/// The numbers, and behind them those of the calls of an equation or an assertion.
fn push_statement(numbers: &mut Vec<u32>, item: &Item) -> Result<(), AllocError>
    ensures { OnOk result (numbers.new.items ≡ numbers.old.items ++ statement_numbers (item_view item.now)) }
{
    match item {
        Item::Equation(_, right) => push_numbers(numbers, right),
        Item::Assert(value) => push_numbers(numbers, value),
        Item::Property(_) | Item::Main(_) => Ok(()),
    }
}

/// The numbers, and behind them those of the calls of a contract.
fn push_clauses(numbers: &mut Vec<u32>, items: &[ContractItem]) -> Result<(), AllocError>
    ensures { OnOk result (numbers.new.items
        ≡ numbers.old.items ++ flat_map clause_numbers (map contract_item_view items.now)) }
{
    for item in items {
        push_clause(numbers, item)?;
    }
    Ok(())
}

/// The numbers, and behind them those of the calls of a body.
fn push_statements(numbers: &mut Vec<u32>, items: &[Item]) -> Result<(), AllocError>
    ensures { OnOk result (numbers.new.items
        ≡ numbers.old.items ++ flat_map statement_numbers (map item_view items.now)) }
{
    for item in items {
        push_statement(numbers, item)?;
    }
    Ok(())
}

/// The numbers of the calls that stand in the ghost variables, imports, equations and assertions of a declaration.
pub(crate) fn numbers_evaluated(alloc: Global, owner: Owner<'_>) -> Result<Vec<u32>, AllocError>
    ensures { IfOk result (λ v. v.items ≡ numbers_evaluated (owner_view owner.entry)) }
{
    let mut numbers = Vec::new(alloc);
    push_clauses(&mut numbers, owner.contract())?;
    push_statements(&mut numbers, owner.body())?;
    Ok(numbers)
}

/// Whether a number is listed.
fn has_number(numbers: &[u32], number: u32) -> bool
    ensures { result ≡ has_number numbers.now number }
{
    for listed in numbers {
        if *listed == number {
            return true;
        }
    }
    false
}

/// Whether a call is an import, or its number is listed.
pub(crate) fn is_import_or(numbers: &[u32], number: u32, manner: Manner<'_>) -> bool
    ensures { result ≡ is_import_or numbers.now number (manner_view manner.entry) }
{
    match manner {
        Manner::Import(_) => true,
        Manner::Plain | Manner::While(_) => has_number(numbers, number),
    }
}
