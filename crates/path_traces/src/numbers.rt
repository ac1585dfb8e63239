//! The numbers of the occurrences of `pre` and of `->`.

ghost use Rattle.std.specs.Prelude.{◌≡◌, ◌++◌, IfOk, OnOk, length, map, flat_map};
ghost use Rattle.lus_tree.specs.Numbers.{a_pre, all_numbers, an_arrow, contract_statement_expressions, if_same, numbers_among, own_number, statement_expressions};
ghost use Rattle.lus_tree.specs.View.{contract_item_view, definition_view, expr_view, exprs_view, item_view, joined, named_view};
ghost use Rattle.lus_streams.specs.Owner.{owner_view};
ghost use Rattle.path_traces.specs.Kinds.{kind_view, numbers_of};

use lus_streams::owner::Owner;
use lus_tree::{ContractItem, Definition, Expr, Form, Item, Named};
use std::alloc::{AllocError, Global};

/// What is numbered.
#[derive(Clone, Copy)]
pub(crate) enum Kind {
    Pre,
    Arrow,
}

/// The numbers, and behind them that of a `pre`, where it is of the kind.
fn push_pre(numbers: &mut Vec<u32>, kind: Kind, number: u32) -> Result<(), AllocError>
    ensures { OnOk result (numbers.new.items ≡ numbers.old.items ++ if_same (kind_view kind) a_pre number) }
{
    match kind {
        Kind::Pre => {
            numbers.push(number)?;
            Ok(())
        }
        Kind::Arrow => Ok(()),
    }
}

/// The numbers, and behind them that of a `->`, where it is of the kind.
fn push_arrow(numbers: &mut Vec<u32>, kind: Kind, number: u32) -> Result<(), AllocError>
    ensures { OnOk result (numbers.new.items ≡ numbers.old.items ++ if_same (kind_view kind) an_arrow number) }
{
    match kind {
        Kind::Pre => Ok(()),
        Kind::Arrow => {
            numbers.push(number)?;
            Ok(())
        }
    }
}

/// The numbers, and behind them those of an expression.
#[cycle(numbers)]
#[tactic(auto, using(lus_tree::proofs::Views::form_views))]
fn push_numbers(numbers: &mut Vec<u32>, kind: Kind, e: &Expr) -> Result<(), AllocError>
    ensures { OnOk result (numbers.new.items ≡ numbers.old.items ++ numbers_of kind (expr_view e.now)) }
{
    match &e.form {
        Form::Pre(number, a) => {
            push_pre(numbers, kind, *number)?;
            push_numbers(numbers, kind, a)
        }
        Form::Arrow(number, a, b) => {
            push_numbers(numbers, kind, a)?;
            push_arrow(numbers, kind, *number)?;
            push_numbers(numbers, kind, b)
        }
        Form::Not(a) | Form::Minus(a) | Form::When(a, _, _) => push_numbers(numbers, kind, a),
        Form::Binary(_, a, b) | Form::Merge(_, a, b) => {
            push_numbers(numbers, kind, a)?;
            push_numbers(numbers, kind, b)
        }
        Form::If(a, b, c) => {
            push_numbers(numbers, kind, a)?;
            push_numbers(numbers, kind, b)?;
            push_numbers(numbers, kind, c)
        }
        Form::Call(_, _, arguments) => push_among(numbers, kind, arguments),
        Form::Condact(_, a, _, arguments, defaults) => {
            push_numbers(numbers, kind, a)?;
            push_among(numbers, kind, arguments)?;
            push_among(numbers, kind, defaults)
        }
        Form::Truth(_) | Form::Number(_) | Form::Name(_) | Form::ModeName(_, _) => Ok(()),
    }
}

/// The numbers, and behind them those of these expressions.
#[cycle(numbers)]
fn push_among(numbers: &mut Vec<u32>, kind: Kind, values: &[Expr]) -> Result<(), AllocError>
    ensures { OnOk result (numbers.new.items ≡ numbers.old.items
        ++ numbers_among (own_number (kind_view kind)) (joined (exprs_view values.now))) }
{
    for value in values {
        push_numbers(numbers, kind, value)?;
    }
    Ok(())
}

/// The numbers, and behind them those of these expressions.
fn push_each(numbers: &mut Vec<u32>, kind: Kind, values: &[Expr]) -> Result<(), AllocError>
    ensures { OnOk result (numbers.new.items ≡ numbers.old.items
        ++ flat_map (numbers_of kind) (map expr_view values.now)) }
{
    for value in values {
        push_numbers(numbers, kind, value)?;
    }
    Ok(())
}

/// The numbers, and behind them those of the expressions with these labels.
fn push_labelled(numbers: &mut Vec<u32>, kind: Kind, labelled: &[Named]) -> Result<(), AllocError>
    ensures { OnOk result (numbers.new.items ≡ numbers.old.items
        ++ flat_map (numbers_of kind) (map (λ l. l.value) (map named_view labelled.now))) }
{
    for named in labelled {
        push_numbers(numbers, kind, &named.value)?;
    }
    Ok(())
}

/// The numbers, and behind them those of the values of these constants.
fn push_constants(
    numbers: &mut Vec<u32>,
    kind: Kind,
    constants: &[Definition],
) -> Result<(), AllocError>
    ensures { OnOk result (numbers.new.items ≡ numbers.old.items
        ++ flat_map (numbers_of kind) (map (λ c. c.value) (map definition_view constants.now))) }
{
    for constant in constants {
        push_numbers(numbers, kind, &constant.value)?;
    }
    Ok(())
}

/// The numbers, and behind them those of an item of a contract.
fn push_contract_item(
    numbers: &mut Vec<u32>,
    kind: Kind,
    item: &ContractItem,
) -> Result<(), AllocError>
    ensures { OnOk result (numbers.new.items ≡ numbers.old.items
        ++ flat_map (numbers_of kind) (contract_statement_expressions (contract_item_view item.now))) }
{
    match item {
        ContractItem::Assume(named) | ContractItem::Guarantee(named) => {
            push_numbers(numbers, kind, &named.value)
        }
        ContractItem::Ghost(_, value) => push_numbers(numbers, kind, value),
        ContractItem::Constant(constant) => push_numbers(numbers, kind, &constant.value),
        ContractItem::Mode(_, required, ensured) => {
            push_labelled(numbers, kind, required)?;
            push_labelled(numbers, kind, ensured)
        }
        ContractItem::Import(_, _, arguments, _) => push_each(numbers, kind, arguments),
    }
}

/// The numbers, and behind them those of the items of a contract.
fn push_contract(
    numbers: &mut Vec<u32>,
    kind: Kind,
    items: &[ContractItem],
) -> Result<(), AllocError>
    ensures { OnOk result (numbers.new.items ≡ numbers.old.items
        ++ flat_map (numbers_of kind) (flat_map contract_statement_expressions (map contract_item_view items.now))) }
{
    for item in items {
        push_contract_item(numbers, kind, item)?;
    }
    Ok(())
}

/// The numbers, and behind them those of an item of a body.
fn push_item(numbers: &mut Vec<u32>, kind: Kind, item: &Item) -> Result<(), AllocError>
    ensures { OnOk result (numbers.new.items ≡ numbers.old.items
        ++ flat_map (numbers_of kind) (statement_expressions (item_view item.now))) }
{
    match item {
        Item::Equation(_, value) | Item::Assert(value) => push_numbers(numbers, kind, value),
        Item::Property(named) => push_numbers(numbers, kind, &named.value),
        Item::Main(_) => Ok(()),
    }
}

/// The numbers, and behind them those of the items of a body.
fn push_body(numbers: &mut Vec<u32>, kind: Kind, items: &[Item]) -> Result<(), AllocError>
    ensures { OnOk result (numbers.new.items ≡ numbers.old.items
        ++ flat_map (numbers_of kind) (flat_map statement_expressions (map item_view items.now))) }
{
    for item in items {
        push_item(numbers, kind, item)?;
    }
    Ok(())
}

/// How many numbers of that kind a declaration has.
///
/// # Errors
///
/// Want of memory.
pub(crate) fn count_of(alloc: Global, kind: Kind, owner: Owner<'_>) -> Result<usize, AllocError>
    ensures { IfOk result (λ n. n ≡ length (all_numbers (own_number (kind_view kind)) (owner_view owner.entry))) }
{
    let mut numbers = Vec::new(alloc);
    push_contract(&mut numbers, kind, owner.contract())?;
    push_constants(&mut numbers, kind, owner.constants())?;
    push_body(&mut numbers, kind, owner.body())?;
    Ok(numbers.len())
}
