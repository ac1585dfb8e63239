//! What expressions read at their instant.

ghost use Rattle.std.specs.Prelude.{◌≡◌, ◌∷◌, ◌++◌, [], IfOk, map, option_map, option_to_list};
ghost use Rattle.lus_tree.specs.Tree.{text_of};
ghost use Rattle.lus_tree.specs.View.{expr_view, exprs_view, joined, word_view};
ghost use Rattle.lus_order.specs.Reads.{Gains, a_mode, a_name, callees_view, clock_seen, clocks_view, names_read, read_arguments, read_each, read_in};

use crate::setting::{Callees, Clocks};
use lus_tree::{Expr, Form, PlacedName};
use std::alloc::{AllocError, Global};

/// What is read: a stream or a constant by its name, or a mode by its name and the import before it.
#[derive(Clone, Copy)]
pub(crate) enum Read<'a> {
    Name(&'a str),
    Mode(Option<&'a str>, &'a str),
}

/// The reads, and behind them that of a clock.
fn push_clock<'a>(reads: &mut Vec<Read<'a>>, clock: Option<&'a str>) -> Result<(), AllocError>
    ensures { IfOk result (λ _. Gains reads.old.items reads.new.items (names_read (clock_seen clock.entry))) }
{
    if let Some(name) = clock {
        reads.push(Read::Name(name))?;
    }
    Ok(())
}

/// The reads, and behind them a name and that of its clock.
fn push_name<'a>(
    reads: &mut Vec<Read<'a>>,
    name: &'a str,
    clock: Option<&'a str>,
) -> Result<(), AllocError>
    ensures { IfOk result (λ _. Gains reads.old.items reads.new.items
        (a_name name.now ∷ names_read (clock_seen clock.entry))) }
{
    reads.push(Read::Name(name))?;
    push_clock(reads, clock)
}

/// The reads, and behind them that of a mode.
fn push_mode<'a>(
    reads: &mut Vec<Read<'a>>,
    contract: &'a Option<PlacedName>,
    mode: &'a PlacedName,
) -> Result<(), AllocError>
    ensures { IfOk result (λ _. Gains reads.old.items reads.new.items
        (a_mode (option_to_list (option_map text_of (option_map word_view contract.now)), (word_view mode.now).text) ∷ [])) }
{
    let import = match contract {
        Some(word) => Some(word.text.as_str()),
        None => None,
    };
    reads.push(Read::Mode(import, mode.text.as_str()))?;
    Ok(())
}

/// The reads, and behind them those of an expression on that clock.
///
/// # Errors
///
/// Want of memory.
#[cycle(reads)]
#[tactic(auto, using(lus_tree::proofs::Views::form_views))]
pub(crate) fn push_reads<'a>(
    reads: &mut Vec<Read<'a>>,
    clocks: &Clocks<'a>,
    callees: &Callees,
    clock: Option<&'a str>,
    e: &'a Expr,
) -> Result<(), AllocError>
    ensures { IfOk result (λ _. Gains reads.old.items reads.new.items
        (read_in (clocks_view clocks.now) (callees_view callees.now) (clock_seen clock.entry) (expr_view e.now))) }
{
    match &e.form {
        Form::Truth(_) | Form::Number(_) | Form::Pre(_, _) => push_clock(reads, clock),
        Form::Name(x) => push_name(reads, x, clock),
        Form::Not(a) | Form::Minus(a) => {
            push_clock(reads, clock)?;
            push_reads(reads, clocks, callees, clock, a)
        }
        Form::Arrow(_, a, b) | Form::Binary(_, a, b) => {
            push_clock(reads, clock)?;
            push_reads(reads, clocks, callees, clock, a)?;
            push_reads(reads, clocks, callees, clock, b)
        }
        Form::If(a, b, c) => {
            push_clock(reads, clock)?;
            push_reads(reads, clocks, callees, clock, a)?;
            push_reads(reads, clocks, callees, clock, b)?;
            push_reads(reads, clocks, callees, clock, c)
        }
        Form::When(a, _, word) => {
            reads.push(Read::Name(word.text.as_str()))?;
            push_reads(reads, clocks, callees, clocks.clock(&word.text), a)
        }
        Form::Merge(word, a, b) => {
            let sampled = Some(word.text.as_str());
            reads.push(Read::Name(word.text.as_str()))?;
            push_reads(reads, clocks, callees, sampled, a)?;
            push_reads(reads, clocks, callees, sampled, b)
        }
        Form::Call(_, callee, values) => push_call(reads, clocks, callees, clock, callee, values),
        Form::Condact(_, a, callee, arguments, defaults) => {
            push_clock(reads, clock)?;
            push_reads(reads, clocks, callees, clock, a)?;
            let flags = callees.flags(&callee.text);
            push_arguments(reads, clocks, callees, clock, flags, arguments)?;
            push_each(reads, clocks, callees, clock, defaults)
        }
        Form::ModeName(contract, mode) => push_mode(reads, contract, mode),
    }
}

/// The reads, and behind them those of a call.
#[cycle(reads)]
fn push_call<'a>(
    reads: &mut Vec<Read<'a>>,
    clocks: &Clocks<'a>,
    callees: &Callees,
    clock: Option<&'a str>,
    callee: &PlacedName,
    arguments: &'a [Expr],
) -> Result<(), AllocError>
    ensures { IfOk result (λ _. Gains reads.old.items reads.new.items (names_read (clock_seen clock.entry)
        ++ read_arguments (clocks_view clocks.now) (callees_view callees.now) (clock_seen clock.entry)
        (callees_view callees.now (word_view callee.now).text) (joined (exprs_view arguments.now)))) }
{
    push_clock(reads, clock)?;
    let flags = callees.flags(&callee.text);
    push_arguments(reads, clocks, callees, clock, flags, arguments)
}

/// The reads, and behind them those of these expressions.
#[cycle(reads)]
fn push_each<'a>(
    reads: &mut Vec<Read<'a>>,
    clocks: &Clocks<'a>,
    callees: &Callees,
    clock: Option<&'a str>,
    values: &'a [Expr],
) -> Result<(), AllocError>
    ensures { IfOk result (λ _. Gains reads.old.items reads.new.items
        (read_each (clocks_view clocks.now) (callees_view callees.now) (clock_seen clock.entry)
        (joined (exprs_view values.now)))) }
{
    for value in values {
        push_reads(reads, clocks, callees, clock, value)?;
    }
    Ok(())
}

/// The reads, and behind them those of the arguments that are flagged.
#[cycle(reads)]
fn push_arguments<'a>(
    reads: &mut Vec<Read<'a>>,
    clocks: &Clocks<'a>,
    callees: &Callees,
    clock: Option<&'a str>,
    flags: &[bool],
    arguments: &'a [Expr],
) -> Result<(), AllocError>
    ensures { IfOk result (λ _. Gains reads.old.items reads.new.items (read_arguments (clocks_view clocks.now)
        (callees_view callees.now) (clock_seen clock.entry) flags.now (joined (exprs_view arguments.now)))) }
{
    let mut place = 0;
    for argument in arguments {
        if place >= flags.len() {
            break;
        }
        if flags[place] {
            push_reads(reads, clocks, callees, clock, argument)?;
        }
        place += 1;
    }
    Ok(())
}
