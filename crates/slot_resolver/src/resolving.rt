//! From an expression of the tree to one over slots.

ghost use Rattle.std.specs.Prelude.{◌≡◌, IfOk};
ghost use Rattle.lus_tree.specs.View.{expr_view};
ghost use Rattle.slot_values.specs.Resolution.{chosen, resolved_view};
ghost use Rattle.slot_values.specs.Resolved.{resolution};
ghost use Rattle.slot_resolver.specs.Found.{found_view, called_as, latest_as};

use crate::slots::{Found, Held, Slots};
use lus_meaning::Value;
use lus_tree::{Expr, Form};
use slot_values::Resolved;
use std::alloc::{AllocError, Global};

/// A name as an expression over slots.
fn named(found: Found) -> Resolved
    ensures { resolved_view result ≡ found_view found }
{
    match found {
        Found::Constant(value) => Resolved::Known(value),
        Found::Slot(slot) => Resolved::Slot(slot),
    }
}

/// The first output of a call.
fn called(output: Option<u32>) -> Resolved
    ensures { resolved_view result ≡ called_as output }
{
    match output {
        Some(slot) => Resolved::Slot(slot),
        None => Resolved::Known(None),
    }
}

fn latest(alloc: Global, condition: Resolved, found: Option<Held>) -> Result<Resolved, AllocError>
    ensures { IfOk result (λ r. resolved_view r ≡ latest_as (resolved_view condition) found) }
{
    match found {
        Some(slots) => {
            let condition = Box::new(alloc, condition)?;
            Ok(Resolved::Latest(condition, slots.beat, slots.output, slots.held))
        }
        None => Ok(Resolved::Known(None)),
    }
}

/// The resolution of an expression, in a box.
#[cycle(resolve)]
fn boxed<S: Slots>(alloc: Global, slots: &S, e: &Expr) -> Result<Box<Resolved>, AllocError>
    ensures { IfOk result (λ b. resolved_view b.value ≡ resolution (S.numbering slots.now) (expr_view e.now)) }
{
    let resolved = resolve(alloc, slots, e)?;
    Ok(Box::new(alloc, resolved)?)
}

/// The resolutions of two expressions.
#[cycle(resolve)]
fn pair<S: Slots>(
    alloc: Global,
    slots: &S,
    a: &Expr,
    b: &Expr,
) -> Result<(Box<Resolved>, Box<Resolved>), AllocError>
    ensures first { IfOk result (λ r. resolved_view r.0.value ≡ resolution (S.numbering slots.now) (expr_view a.now)) }
    ensures second { IfOk result (λ r. resolved_view r.1.value ≡ resolution (S.numbering slots.now) (expr_view b.now)) }
{
    let a = boxed(alloc, slots, a)?;
    let b = boxed(alloc, slots, b)?;
    Ok((a, b))
}

/// The resolution of a choice.
#[cycle(resolve)]
fn choice<S: Slots>(
    alloc: Global,
    slots: &S,
    c: &Expr,
    a: &Expr,
    b: &Expr,
) -> Result<Resolved, AllocError>
    ensures { IfOk result (λ r. resolved_view r ≡ chosen (resolution (S.numbering slots.now) (expr_view c.now))
        (resolution (S.numbering slots.now) (expr_view a.now))
        (resolution (S.numbering slots.now) (expr_view b.now))) }
{
    let c = boxed(alloc, slots, c)?;
    let (a, b) = pair(alloc, slots, a, b)?;
    Ok(Resolved::If(c, a, b))
}

/// The resolution of an expression, its names by the numbers of their slots.
///
/// # Errors
///
/// Only want of memory.
#[cycle(resolve)]
#[tactic(auto, using(lus_tree::proofs::Views::form_views))]
pub fn resolve<S: Slots>(alloc: Global, slots: &S, e: &Expr) -> Result<Resolved, AllocError>
    ensures { IfOk result (λ r. resolved_view r ≡ resolution (S.numbering slots.now) (expr_view e.now)) }
{
    match &e.form {
        Form::Truth(b) => Ok(Resolved::Known(Some(Value::Truth(*b)))),
        Form::Number(n) => Ok(Resolved::Known(Some(Value::Whole(*n as i128)))),
        Form::Name(x) => Ok(named(slots.name(x))),
        Form::Not(a) => Ok(Resolved::Not(boxed(alloc, slots, a)?)),
        Form::Minus(a) => Ok(Resolved::Minus(e.at, boxed(alloc, slots, a)?)),
        Form::Pre(k, _) => Ok(Resolved::Slot(slots.memory(*k))),
        Form::Arrow(k, a, b) => {
            let (a, b) = pair(alloc, slots, a, b)?;
            Ok(Resolved::Arrow(slots.start(*k), a, b))
        }
        Form::Binary(operator, a, b) => {
            let (a, b) = pair(alloc, slots, a, b)?;
            Ok(Resolved::Binary(e.at, *operator, a, b))
        }
        Form::If(c, a, b) => choice(alloc, slots, c, a, b),
        Form::When(a, wanted, x) => {
            let a = boxed(alloc, slots, a)?;
            Ok(Resolved::When(slots.stream(&x.text), *wanted, a))
        }
        Form::Merge(x, a, b) => {
            let (a, b) = pair(alloc, slots, a, b)?;
            Ok(Resolved::Merge(slots.stream(&x.text), a, b))
        }
        Form::Call(k, _, _) => Ok(called(slots.output(*k))),
        Form::Condact(k, condition, _, _, _) => {
            let condition = resolve(alloc, slots, condition)?;
            latest(alloc, condition, slots.held(*k))
        }
        Form::ModeName(None, m) => slots.mode(alloc, None, &m.text),
        Form::ModeName(Some(c), m) => slots.mode(alloc, Some(&c.text), &m.text),
    }
}
