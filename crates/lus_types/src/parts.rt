//! The expressions of a declaration and their parts, in the order in which they occur.

ghost use Rattle.std.specs.Prelude.{◌≡◌, IfOk, false, true, flat_map};
ghost use Rattle.lus_tree.specs.Tree.{Place};
ghost use Rattle.lus_tree.specs.View.{expr_view, exprs_view, form_view, joined};
ghost use Rattle.lus_scopes.specs.Scopes.{owner_view};
ghost use Rattle.lus_types.specs.Sides.{SidesOn, all_parts, parts_among, parts_below, parts_of, sides_view};

use crate::sides::{push_side, sides_of};
use lus_scopes::scope::Owner;
use lus_tree::{Expr, Form};
use std::alloc::{AllocError, Global};

/// The expressions, and behind them one with its parts. Those under `pre` come along where `delayed`.
#[cycle(parts)]
#[tactic(auto, using(lus_tree::proofs::Views::form_views))]
fn push_parts<'a>(all: &mut Vec<&'a Expr>, delayed: bool, e: &'a Expr) -> Result<(), AllocError>
    ensures { IfOk result (λ _. SidesOn all.old.items all.new.items (parts_of delayed (expr_view e.now))) }
{
    match &e.form {
        Form::Arrow(_, a, b) | Form::Binary(_, a, b) => {
            push_parts(all, delayed, a)?;
            push_side(all, e)?;
            push_parts(all, delayed, b)
        }
        Form::When(a, _, _) => {
            push_parts(all, delayed, a)?;
            push_side(all, e)
        }
        Form::Truth(_)
        | Form::Number(_)
        | Form::Name(_)
        | Form::Not(_)
        | Form::Minus(_)
        | Form::Pre(_, _)
        | Form::If(_, _, _)
        | Form::Merge(_, _, _)
        | Form::Call(_, _, _)
        | Form::Condact(_, _, _, _, _)
        | Form::ModeName(_, _) => {
            push_side(all, e)?;
            push_below(all, delayed, &e.form)
        }
    }
}

/// The expressions, and behind them the parts of a form that comes before all of its parts.
#[cycle(parts)]
#[tactic(auto, using(lus_tree::proofs::Views::form_views))]
fn push_below<'a>(all: &mut Vec<&'a Expr>, delayed: bool, form: &'a Form) -> Result<(), AllocError>
    ensures { IfOk result
        (λ _. (p : Place) → SidesOn all.old.items all.new.items (parts_below delayed (form_view form.now p))) }
{
    match form {
        Form::Not(a) | Form::Minus(a) => push_parts(all, delayed, a),
        Form::Pre(_, a) => {
            if delayed {
                push_parts(all, delayed, a)
            } else {
                Ok(())
            }
        }
        Form::If(a, b, c) => {
            push_parts(all, delayed, a)?;
            push_parts(all, delayed, b)?;
            push_parts(all, delayed, c)
        }
        Form::Merge(_, a, b) => {
            push_parts(all, delayed, a)?;
            push_parts(all, delayed, b)
        }
        Form::Call(_, _, arguments) => push_parts_among(all, delayed, arguments),
        Form::Condact(_, a, _, arguments, defaults) => {
            push_parts(all, delayed, a)?;
            push_parts_among(all, delayed, arguments)?;
            push_parts_among(all, delayed, defaults)
        }
        Form::Truth(_)
        | Form::Number(_)
        | Form::Name(_)
        | Form::Arrow(_, _, _)
        | Form::Binary(_, _, _)
        | Form::When(_, _, _)
        | Form::ModeName(_, _) => Ok(()),
    }
}

/// The expressions, and behind them these with their parts.
#[cycle(parts)]
fn push_parts_among<'a>(
    all: &mut Vec<&'a Expr>,
    delayed: bool,
    values: &'a [Expr],
) -> Result<(), AllocError>
    ensures { IfOk result
        (λ _. SidesOn all.old.items all.new.items (parts_among delayed (joined (exprs_view values.now)))) }
{
    for value in values {
        push_parts(all, delayed, value)?;
    }
    Ok(())
}

/// These expressions with their parts.
fn parts_in<'a>(alloc: Global, sides: &[&'a Expr]) -> Result<Vec<&'a Expr>, AllocError>
    ensures { IfOk result (λ v. sides_view v.items ≡ flat_map (parts_of true) (sides_view sides.now)) }
{
    let mut all = Vec::new(alloc);
    for side in sides {
        push_parts(&mut all, true, side)?;
    }
    Ok(all)
}

/// The expressions of a declaration with their parts.
pub(crate) fn all_parts(alloc: Global, owner: Owner<'_>) -> Result<Vec<&Expr>, AllocError>
    ensures { IfOk result (λ v. sides_view v.items ≡ all_parts (owner_view owner.entry)) }
{
    let sides = sides_of(alloc, owner)?;
    parts_in(alloc, &sides)
}

/// An expression with its parts at the same instant, those under no `pre`.
pub(crate) fn parts_now(alloc: Global, e: &Expr) -> Result<Vec<&Expr>, AllocError>
    ensures { IfOk result (λ v. sides_view v.items ≡ parts_of false (expr_view e.now)) }
{
    let mut all = Vec::new(alloc);
    push_parts(&mut all, false, e)?;
    Ok(all)
}
