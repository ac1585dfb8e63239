//! The `->` of a declaration.

ghost use Rattle.std.specs.Prelude.{◌≡◌, ◌++◌, IfOk, OnOk, map};
ghost use Rattle.lus_tree.specs.View.{expr_view, exprs_view, joined};
ghost use Rattle.lus_meaning.specs.Occurrences.{starts};
ghost use Rattle.lus_streams.specs.Clocks.{clock_seen};
ghost use Rattle.lus_streams.specs.Names.{names_view};
ghost use Rattle.sys_conditions.specs.Views.{start_view};
ghost use Rattle.sys_occurrences.specs.Occurring.{starts_among, starts_in, starts_of};
ghost use Rattle.sys_occurrences.specs.Views.{placed_view};

use crate::places::{Placed, places_of};
use lus_streams::clock::Clock;
use lus_streams::names::Names;
use lus_tree::{Expr, Form};
use std::alloc::{AllocError, Global};
use sys_conditions::occurrences::Start;

/// The `->`, and behind them those of an expression on that clock.
#[cycle(starts)]
#[tactic(auto, using(lus_tree::proofs::Views::form_views))]
fn push_starts<'a>(
    starts: &mut Vec<Start<'a>>,
    names: Names<'a, '_>,
    clock: Clock<'a>,
    e: &'a Expr,
) -> Result<(), AllocError>
    ensures { OnOk result (map start_view starts.new.items ≡ map start_view starts.old.items
        ++ starts_in (names_view names.entry) (clock_seen clock.entry) (expr_view e.now)) }
{
    match &e.form {
        Form::Not(a) | Form::Minus(a) | Form::Pre(_, a) => push_starts(starts, names, clock, a),
        Form::Arrow(number, a, b) => {
            push_starts(starts, names, clock, a)?;
            starts.push(Start {
                number: *number,
                clock,
            })?;
            push_starts(starts, names, clock, b)
        }
        Form::Binary(_, a, b) => {
            push_starts(starts, names, clock, a)?;
            push_starts(starts, names, clock, b)
        }
        Form::If(a, b, c) => {
            push_starts(starts, names, clock, a)?;
            push_starts(starts, names, clock, b)?;
            push_starts(starts, names, clock, c)
        }
        Form::When(a, _, x) => {
            let outer = names.clock_or_base(&x.text);
            push_starts(starts, names, outer, a)
        }
        Form::Merge(x, a, b) => {
            push_starts(starts, names, Clock::Sampled(true, x), a)?;
            push_starts(starts, names, Clock::Sampled(false, x), b)
        }
        Form::Call(_, _, arguments) => push_starts_among(starts, names, clock, arguments),
        Form::Condact(_, a, _, arguments, defaults) => {
            push_starts(starts, names, clock, a)?;
            push_starts_among(starts, names, clock, arguments)?;
            push_starts_among(starts, names, clock, defaults)
        }
        Form::Truth(_) | Form::Number(_) | Form::Name(_) | Form::ModeName(_, _) => Ok(()),
    }
}

/// The `->`, and behind them those of these expressions on that clock.
#[cycle(starts)]
fn push_starts_among<'a>(
    starts: &mut Vec<Start<'a>>,
    names: Names<'a, '_>,
    clock: Clock<'a>,
    values: &'a [Expr],
) -> Result<(), AllocError>
    ensures { OnOk result (map start_view starts.new.items ≡ map start_view starts.old.items
        ++ starts_among (names_view names.entry) (clock_seen clock.entry) (joined (exprs_view values.now))) }
{
    for value in values {
        push_starts(starts, names, clock, value)?;
    }
    Ok(())
}

/// The `->` of these places.
fn found<'a>(
    alloc: Global,
    names: Names<'a, '_>,
    places: &[Placed<'a>],
) -> Result<Vec<Start<'a>>, AllocError>
    ensures { IfOk result (λ v. map start_view v.items
        ≡ starts_of (names_view names.entry) (map placed_view places.now)) }
{
    let mut starts = Vec::new(alloc);
    for place in places {
        push_starts(&mut starts, names, place.clock, place.expression)?;
    }
    Ok(starts)
}

/// The `->` of a declaration, in the order of the tree, each with the clock of its place.
///
/// # Errors
///
/// Want of memory.
#[tactic(auto, using(crate::proofs::Occurring::starts_are))]
pub fn starts<'a>(alloc: Global, names: Names<'a, '_>) -> Result<Vec<Start<'a>>, AllocError>
    ensures { IfOk result (λ v. map start_view v.items ≡ starts (names_view names.entry)) }
{
    let places = places_of(alloc, names)?;
    found(alloc, names, &places)
}
