//! The names that expressions read at their own instant, in text order.

ghost use Rattle.std.specs.Prelude.{◌≡◌, ◌∷◌, [], IfOk, map, flat_map};
ghost use Rattle.lus_tree.specs.View.{contract_item_view, expr_view, word_view};
ghost use Rattle.lus_meaning.specs.NameFaults.{restricted};
ghost use Rattle.lus_types.specs.Reads.{ReadsOn, read_in, read_of, read_view};
ghost use Rattle.lus_types.specs.Sides.{sides_view};

use crate::parts::parts_now;
use lus_tree::{ContractItem, Expr, Form, PlacedName, Pos};
use std::alloc::{AllocError, Global};

/// A name that is read, and where.
#[derive(Clone, Copy)]
pub(crate) struct Read<'a> {
    pub(crate) text: &'a str,
    pub(crate) at: Pos,
}

/// The reads, and behind them that of a word.
fn push_word<'a>(reads: &mut Vec<Read<'a>>, word: &'a PlacedName) -> Result<(), AllocError>
    ensures { IfOk result (λ _. ReadsOn reads.old.items reads.new.items (word_view word.now ∷ [])) }
{
    let read = Read {
        text: word.text.as_str(),
        at: word.at,
    };
    reads.push(read)?;
    Ok(())
}

/// The reads, and behind them that of an expression itself.
#[tactic(auto, using(lus_tree::proofs::Views::form_views))]
fn push_read<'a>(reads: &mut Vec<Read<'a>>, e: &'a Expr) -> Result<(), AllocError>
    ensures { IfOk result (λ _. ReadsOn reads.old.items reads.new.items (read_of (expr_view e.now))) }
{
    match &e.form {
        Form::Name(x) => {
            let read = Read {
                text: x.as_str(),
                at: e.at,
            };
            reads.push(read)?;
            Ok(())
        }
        Form::When(_, _, clock) | Form::Merge(clock, _, _) => push_word(reads, clock),
        Form::Truth(_)
        | Form::Number(_)
        | Form::Not(_)
        | Form::Minus(_)
        | Form::Pre(_, _)
        | Form::Arrow(_, _, _)
        | Form::Binary(_, _, _)
        | Form::If(_, _, _)
        | Form::Call(_, _, _)
        | Form::Condact(_, _, _, _, _)
        | Form::ModeName(_, _) => Ok(()),
    }
}

/// The reads, and behind them those of these expressions, their parts left aside.
fn push_reads_of<'a>(reads: &mut Vec<Read<'a>>, all: &[&'a Expr]) -> Result<(), AllocError>
    ensures { IfOk result (λ _. ReadsOn reads.old.items reads.new.items (flat_map read_of (sides_view all.now))) }
{
    for e in all {
        push_read(reads, e)?;
    }
    Ok(())
}

/// The reads, and behind them those of an expression.
#[tactic(auto, using(crate::proofs::Occurring::reads_are))]
pub(crate) fn push_reads<'a>(
    alloc: Global,
    reads: &mut Vec<Read<'a>>,
    e: &'a Expr,
) -> Result<(), AllocError>
    ensures { IfOk result (λ _. ReadsOn reads.old.items reads.new.items (read_in (expr_view e.now))) }
{
    let all = parts_now(alloc, e)?;
    push_reads_of(reads, &all)
}

/// The reads, and behind them those of the arguments of an import.
fn push_argument_reads<'a>(
    alloc: Global,
    reads: &mut Vec<Read<'a>>,
    arguments: &'a [Expr],
) -> Result<(), AllocError>
    ensures { IfOk result
        (λ _. ReadsOn reads.old.items reads.new.items (flat_map read_in (map expr_view arguments.now))) }
{
    for argument in arguments {
        push_reads(alloc, reads, argument)?;
    }
    Ok(())
}

/// The reads, and behind them those of an item that restricts inputs: an assumption, or an import.
fn push_restricted<'a>(
    alloc: Global,
    reads: &mut Vec<Read<'a>>,
    item: &'a ContractItem,
) -> Result<(), AllocError>
    ensures { IfOk result
        (λ _. ReadsOn reads.old.items reads.new.items (flat_map read_in (restricted (contract_item_view item.now)))) }
{
    match item {
        ContractItem::Assume(named) => push_reads(alloc, reads, &named.value),
        ContractItem::Import(_, _, arguments, _) => push_argument_reads(alloc, reads, arguments),
        ContractItem::Guarantee(_)
        | ContractItem::Ghost(_, _)
        | ContractItem::Constant(_)
        | ContractItem::Mode(_, _, _) => Ok(()),
    }
}

/// What the items of a contract read that restrict inputs.
pub(crate) fn restricted_reads(
    alloc: Global,
    items: &[ContractItem],
) -> Result<Vec<Read<'_>>, AllocError>
    ensures { IfOk result (λ v. map read_view v.items
        ≡ flat_map (λ c. flat_map read_in (restricted c)) (map contract_item_view items.now)) }
{
    let mut reads = Vec::new(alloc);
    for item in items {
        push_restricted(alloc, &mut reads, item)?;
    }
    Ok(reads)
}
