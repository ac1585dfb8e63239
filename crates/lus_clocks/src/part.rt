//! The clock and the faults of an expression, its parts first.

ghost use Rattle.std.specs.Prelude.{◌≡◌, ◌++◌, None};
ghost use Rattle.lus_tree.specs.Tree.{Place};
ghost use Rattle.lus_tree.specs.View.{expr_view, exprs_view, form_view, joined};
ghost use Rattle.lus_meaning.specs.ClockFaults.{clock_among, clock_in, or_else};
ghost use Rattle.lus_scopes.specs.Least.{least_view, noted_all};
ghost use Rattle.lus_streams.specs.Clocks.{clocks_seen};
ghost use Rattle.lus_streams.specs.Names.{names_view};
ghost use Rattle.lus_clocks.specs.Parts.{IsPart, fits_on};
ghost use Rattle.lus_clocks.specs.Walk.{walk, walk_among, walk_each};

use crate::found::Part;
use crate::notes::{branches, fits_on, pair, stands_on, triple};
use lus_scopes::least::Least;
use lus_streams::clock::{Clock, or_base, or_else};
use lus_streams::names::Names;
use lus_tree::{Expr, Form};

/// Notes the faults of an expression, and gives what is known of it. The faults of its parts are
/// noted before its own.
#[cycle(part)]
#[tactic(auto, using(lus_tree::proofs::Views::form_views, crate::proofs::Begins::begins))]
pub(crate) fn part<'a>(names: Names<'a, '_>, least: &mut Least, e: &'a Expr) -> Part<'a>
    ensures part { IsPart (names_view names.entry) (expr_view e.now) result }
    ensures least { least_view least.new ≡ noted_all (least_view least.old)
        (walk (names_view names.entry) (expr_view e.now)) }
{
    let clock = form_clock(names, least, &e.form);
    Part {
        from: e.from,
        clock,
    }
}

/// The same of a form: its clock.
#[cycle(part)]
#[tactic(auto, using(lus_tree::proofs::Views::form_views))]
fn form_clock<'a>(names: Names<'a, '_>, least: &mut Least, form: &'a Form) -> Option<Clock<'a>>
    ensures clock { (p : Place) → clocks_seen result ≡ clock_in (names_view names.entry) (form_view form.now p) }
    ensures least { (p : Place) → least_view least.new ≡ noted_all (least_view least.old)
        (walk (names_view names.entry) (form_view form.now p)) }
{
    match form {
        Form::Truth(_) | Form::Number(_) => None,
        Form::Name(x) => names.clock(x),
        Form::Not(a) => part(names, least, a).clock,
        Form::Minus(a) => part(names, least, a).clock,
        Form::Pre(_, a) => part(names, least, a).clock,
        Form::Arrow(_, a, b) => {
            let initial = part(names, least, a);
            let later = part(names, least, b);
            pair(least, &initial, &later)
        }
        Form::Binary(_, a, b) => {
            let left = part(names, least, a);
            let right = part(names, least, b);
            pair(least, &left, &right)
        }
        Form::If(a, b, c) => {
            let condition = part(names, least, a);
            let chosen = part(names, least, b);
            let otherwise = part(names, least, c);
            triple(least, &condition, &chosen, &otherwise)
        }
        Form::When(a, truth, word) => {
            let sampled = part(names, least, a);
            stands_on(least, names.clock_or_base(&word.text), &sampled);
            Some(Clock::Sampled(*truth, word))
        }
        Form::Merge(word, a, b) => {
            let on = part(names, least, a);
            let off = part(names, least, b);
            branches(least, word, &on, &off);
            Some(names.clock_or_base(&word.text))
        }
        Form::Call(_, _, arguments) => Some(or_base(among(names, least, arguments))),
        Form::Condact(_, a, _, arguments, defaults) => {
            let active = part(names, least, a);
            let clock = or_base(among(names, least, arguments));
            each(names, least, defaults);
            stands_on(least, clock, &active);
            Some(clock)
        }
        Form::ModeName(_, _) => Some(Clock::Base),
    }
}

/// Values that are to be on one clock, and that clock.
#[cycle(part)]
fn among<'a>(names: Names<'a, '_>, least: &mut Least, values: &'a [Expr]) -> Option<Clock<'a>>
    ensures clock { clocks_seen result ≡ clock_among (names_view names.entry) (joined (exprs_view values.now)) }
    ensures least { least_view least.new ≡ noted_all (least_view least.old)
        (walk_among (names_view names.entry) None (joined (exprs_view values.now))) }
{
    let mut clock = None;
    for value in values {
        clock = one_among(names, least, clock, value);
    }
    clock
}

/// A value behind others, of which the clock is known or not.
#[cycle(part)]
fn one_among<'a>(
    names: Names<'a, '_>,
    least: &mut Least,
    clock: Option<Clock<'a>>,
    value: &'a Expr,
) -> Option<Clock<'a>>
    ensures clock { clocks_seen result
        ≡ or_else (clocks_seen clock.entry) (clock_in (names_view names.entry) (expr_view value.now)) }
    ensures least { least_view least.new ≡ noted_all (least_view least.old)
        (walk (names_view names.entry) (expr_view value.now) ++ fits_on (names_view names.entry)
        (or_else (clocks_seen clock.entry) (clock_in (names_view names.entry) (expr_view value.now)))
        (expr_view value.now)) }
{
    let found = part(names, least, value);
    let wanted = or_else(clock, found.clock);
    fits_on(least, wanted, &found);
    wanted
}

/// Values by themselves.
#[cycle(part)]
fn each(names: Names<'_, '_>, least: &mut Least, values: &[Expr])
    ensures { least_view least.new ≡ noted_all (least_view least.old)
        (walk_each (names_view names.entry) (joined (exprs_view values.now))) }
{
    for value in values {
        part(names, least, value);
    }
}
