//! The clocks of the numbered occurrences in an expression.

ghost use Rattle.std.specs.Prelude.{◌≡◌, IfOk};
ghost use Rattle.lus_tree.specs.Tree.{Place};
ghost use Rattle.lus_tree.specs.View.{expr_view, exprs_view, form_view, joined};
ghost use Rattle.lus_meaning.specs.ClockFaults.{or_else};
ghost use Rattle.lus_streams.specs.Clocks.{clock_seen};
ghost use Rattle.lus_streams.specs.Names.{names_view};
ghost use Rattle.lus_clocks.specs.Sought.{clock_at, clock_at_among};
ghost use Rattle.lus_clocks.specs.Table.{Writes};

use crate::table::Table;
use lus_streams::clock::Clock;
use lus_streams::names::Names;
use lus_tree::{Expr, Form};
use std::alloc::{AllocError, Global};

/// Writes the clocks of the places of all numbered occurrences in an expression, which is at a place
/// of the given clock.
#[cycle(write)]
#[tactic(auto, using(lus_tree::proofs::Views::form_views))]
pub(crate) fn write(
    alloc: Global,
    names: Names<'_, '_>,
    table: &mut Table,
    clock: Clock<'_>,
    e: &Expr,
) -> Result<(), AllocError>
    ensures { IfOk result (λ _. Writes table.old table.new
        (λ s. clock_at (names_view names.entry) s (clock_seen clock.entry) (expr_view e.now))) }
{
    write_form(alloc, names, table, clock, &e.form)
}

/// The same of a form.
#[cycle(write)]
#[tactic(auto, using(lus_tree::proofs::Views::form_views, crate::proofs::Elses::or_elses))]
fn write_form(
    alloc: Global,
    names: Names<'_, '_>,
    table: &mut Table,
    clock: Clock<'_>,
    form: &Form,
) -> Result<(), AllocError>
    ensures { (p : Place) → IfOk result (λ _. Writes table.old table.new
        (λ s. clock_at (names_view names.entry) s (clock_seen clock.entry) (form_view form.now p))) }
{
    match form {
        Form::Truth(_) | Form::Number(_) | Form::Name(_) | Form::ModeName(_, _) => Ok(()),
        Form::Not(a) => write(alloc, names, table, clock, a),
        Form::Minus(a) => write(alloc, names, table, clock, a),
        Form::Pre(number, a) => {
            table.pre(alloc, *number, clock)?;
            write(alloc, names, table, clock, a)
        }
        Form::Arrow(number, a, b) => {
            write(alloc, names, table, clock, a)?;
            table.arrow(alloc, *number, clock)?;
            write(alloc, names, table, clock, b)
        }
        Form::Binary(_, a, b) => {
            write(alloc, names, table, clock, a)?;
            write(alloc, names, table, clock, b)
        }
        Form::If(a, b, c) => {
            write(alloc, names, table, clock, a)?;
            write(alloc, names, table, clock, b)?;
            write(alloc, names, table, clock, c)
        }
        Form::When(a, _, word) => write(alloc, names, table, names.clock_or_base(&word.text), a),
        Form::Merge(word, a, b) => {
            write(alloc, names, table, Clock::Sampled(true, word), a)?;
            write(alloc, names, table, Clock::Sampled(false, word), b)
        }
        Form::Call(number, _, arguments) => {
            table.call(alloc, *number, clock)?;
            write_all(alloc, names, table, clock, arguments)
        }
        Form::Condact(number, a, _, arguments, defaults) => {
            table.call(alloc, *number, clock)?;
            write(alloc, names, table, clock, a)?;
            write_all(alloc, names, table, clock, arguments)?;
            write_all(alloc, names, table, clock, defaults)
        }
    }
}

/// The same of values.
#[cycle(write)]
fn write_all(
    alloc: Global,
    names: Names<'_, '_>,
    table: &mut Table,
    clock: Clock<'_>,
    values: &[Expr],
) -> Result<(), AllocError>
    ensures { IfOk result (λ _. Writes table.old table.new
        (λ s. clock_at_among (names_view names.entry) s (clock_seen clock.entry) (joined (exprs_view values.now)))) }
{
    for value in values {
        write(alloc, names, table, clock, value)?;
    }
    Ok(())
}
