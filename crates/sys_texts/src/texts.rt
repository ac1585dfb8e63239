//! The terms of expressions.

ghost use Rattle.std.specs.Prelude.{◌≡◌, ◌∷◌, [], IfOk, map, option_map};
ghost use Rattle.lus_tree.specs.Tree.{text_of};
ghost use Rattle.lus_tree.specs.View.{expr_view, word_view};
ghost use Rattle.sys_meaning.specs.Part.{a_flag, choose_part, variable};
ghost use Rattle.sys_meaning.specs.Translate.{head_part};
ghost use Rattle.sys_terms.specs.View.{term_view};
ghost use Rattle.sys_parts.specs.Parts.{part_view};
ghost use Rattle.sys_texts.specs.Sights.{asked_of, latest_at, number_at};
ghost use Rattle.sys_texts.specs.Texts.{as_part, chosen, folded, folded_name, formula, left_open, operated, part_of, right_parts, sort_by};
ghost use Rattle.sys_texts.specs.Views.{folded_view, modes_view, sight_view};

use crate::folding::{Folded, as_part, chosen, negated, operated, opposite};
use crate::modes::asked_of;
use crate::outputs::{first_latest, first_output, latest_at, outputs_at};
use crate::sight::{Mode, Sight, constant, memory, name_flag, name_part, start};
use crate::sorts::sort_of;
use lus_tree::{Expr, Form, Operator, PlacedName};
use std::alloc::{AllocError, Global};
use sys_parts::choices::choose_part;
use sys_parts::formulas::flag;
use sys_parts::parts::{Part, formula_of, variable};
use sys_parts::values;
use sys_terms::Term;

/// What a name comes to.
fn folded_name(sight: &Sight<'_>, name: &str) -> Folded
    ensures { folded_view result ≡ folded_name (sight_view sight.now) name.now
        ((sight_view sight.now).constant name.now) }
{
    match constant(sight, name) {
        Some(value) => Folded::Known(value),
        None => Folded::Open(name_part(sight, name)),
    }
}

/// What `pre` of an expression comes to, by the number of the `pre`.
fn folded_pre(sight: &Sight<'_>, number: u32, e: &Expr) -> Folded
    ensures { folded_view result ≡ left_open (variable (sort_by (sight_view sight.now) (expr_view e.now))
        (number_at (sight_view sight.now).memories (sight_view sight.now).missing number)) }
{
    Folded::Open(variable(sort_of(sight, e), memory(sight, number)))
}

/// What the first output of a condact comes to.
fn folded_condact(alloc: Global, sight: &Sight<'_>, number: u32) -> Result<Folded, AllocError>
    ensures { IfOk result (λ r. folded_view r ≡ left_open (head_part (latest_at (sight_view sight.now) number))) }
{
    Ok(Folded::Open(first_latest(alloc, sight, number)?))
}

/// What a mode's name comes to.
fn folded_mode(
    alloc: Global,
    modes: &[Mode<'_>],
    contract: &Option<PlacedName>,
    mode: &PlacedName,
) -> Result<Folded, AllocError>
    ensures { IfOk result (λ r. folded_view r ≡ left_open (a_flag (asked_of (modes_view modes.now)
        (option_map text_of (option_map word_view contract.now)) (word_view mode.now).text))) }
{
    let asked = asked_of(alloc, modes, contract, mode)?;
    Ok(Folded::Open(Part::Flag(asked)))
}

/// What two expressions come to.
#[cycle(folded)]
fn folded_pair(
    alloc: Global,
    sight: &Sight<'_>,
    modes: &[Mode<'_>],
    a: &Expr,
    b: &Expr,
) -> Result<(Folded, Folded), AllocError>
    ensures first { IfOk result (λ r. folded_view r.0 ≡ folded (sight_view sight.now) (modes_view modes.now)
        (expr_view a.now)) }
    ensures second { IfOk result (λ r. folded_view r.1 ≡ folded (sight_view sight.now) (modes_view modes.now)
        (expr_view b.now)) }
{
    let a = folded(alloc, sight, modes, a)?;
    let b = folded(alloc, sight, modes, b)?;
    Ok((a, b))
}

/// What one of two expressions comes to, by a condition.
#[cycle(folded)]
fn one_of(
    alloc: Global,
    sight: &Sight<'_>,
    modes: &[Mode<'_>],
    condition: Term,
    a: &Expr,
    b: &Expr,
) -> Result<Folded, AllocError>
    ensures { IfOk result (λ r. folded_view r ≡ left_open (choose_part (term_view condition)
        (as_part (folded (sight_view sight.now) (modes_view modes.now) (expr_view a.now)))
        (as_part (folded (sight_view sight.now) (modes_view modes.now) (expr_view b.now))))) }
{
    let (a, b) = folded_pair(alloc, sight, modes, a, b)?;
    let part = choose_part(alloc, condition, as_part(a), as_part(b))?;
    Ok(Folded::Open(part))
}

/// What an operator makes of two expressions.
#[cycle(folded)]
fn folded_binary(
    alloc: Global,
    sight: &Sight<'_>,
    modes: &[Mode<'_>],
    operator: Operator,
    a: &Expr,
    b: &Expr,
) -> Result<Folded, AllocError>
    ensures { IfOk result (λ r. folded_view r ≡ operated operator
        (folded (sight_view sight.now) (modes_view modes.now) (expr_view a.now))
        (folded (sight_view sight.now) (modes_view modes.now) (expr_view b.now))) }
{
    let (a, b) = folded_pair(alloc, sight, modes, a, b)?;
    operated(alloc, operator, a, b)
}

/// What a choice comes to.
#[cycle(folded)]
fn folded_if(
    alloc: Global,
    sight: &Sight<'_>,
    modes: &[Mode<'_>],
    c: &Expr,
    a: &Expr,
    b: &Expr,
) -> Result<Folded, AllocError>
    ensures { IfOk result (λ r. folded_view r ≡ chosen
        (folded (sight_view sight.now) (modes_view modes.now) (expr_view c.now))
        (folded (sight_view sight.now) (modes_view modes.now) (expr_view a.now))
        (folded (sight_view sight.now) (modes_view modes.now) (expr_view b.now))) }
{
    let c = folded(alloc, sight, modes, c)?;
    let (a, b) = folded_pair(alloc, sight, modes, a, b)?;
    chosen(alloc, c, a, b)
}

/// What an expression comes to.
#[cycle(folded)]
#[tactic(auto, using(lus_tree::proofs::Views::form_views))]
pub fn folded(
    alloc: Global,
    sight: &Sight<'_>,
    modes: &[Mode<'_>],
    e: &Expr,
) -> Result<Folded, AllocError>
    ensures { IfOk result (λ r. folded_view r ≡ folded (sight_view sight.now) (modes_view modes.now)
        (expr_view e.now)) }
{
    match &e.form {
        Form::Truth(truth) => Ok(Folded::Known(values::of_truth(*truth))),
        Form::Number(number) => Ok(Folded::Known(values::of_number(*number))),
        Form::Name(x) => Ok(folded_name(sight, x)),
        Form::Not(a) => {
            let a = folded(alloc, sight, modes, a)?;
            negated(alloc, a)
        }
        Form::Minus(a) => {
            let a = folded(alloc, sight, modes, a)?;
            opposite(alloc, a)
        }
        Form::Pre(k, a) => Ok(folded_pre(sight, *k, a)),
        Form::Arrow(k, a, b) => one_of(alloc, sight, modes, flag(start(sight, *k)), a, b),
        Form::Binary(operator, a, b) => folded_binary(alloc, sight, modes, *operator, a, b),
        Form::If(c, a, b) => folded_if(alloc, sight, modes, c, a, b),
        Form::When(a, _, _) => {
            let a = folded(alloc, sight, modes, a)?;
            Ok(Folded::Open(as_part(a)))
        }
        Form::Merge(x, a, b) => one_of(alloc, sight, modes, name_flag(sight, &x.text), a, b),
        Form::Call(k, _, _) => Ok(Folded::Open(first_output(sight, *k))),
        Form::Condact(k, _, _, _, _) => folded_condact(alloc, sight, *k),
        Form::ModeName(contract, mode) => folded_mode(alloc, modes, contract, mode),
    }
}

/// The term of an expression.
///
/// # Errors
///
/// Want of memory.
pub fn part_of(
    alloc: Global,
    sight: &Sight<'_>,
    modes: &[Mode<'_>],
    e: &Expr,
) -> Result<Part, AllocError>
    ensures { IfOk result (λ p. part_view p ≡ part_of (sight_view sight.now) (modes_view modes.now) (expr_view e.now)) }
{
    let value = folded(alloc, sight, modes, e)?;
    Ok(as_part(value))
}

/// The truth of an expression.
///
/// # Errors
///
/// Want of memory.
pub fn formula(
    alloc: Global,
    sight: &Sight<'_>,
    modes: &[Mode<'_>],
    e: &Expr,
) -> Result<Term, AllocError>
    ensures { IfOk result (λ t. term_view t ≡ formula (sight_view sight.now) (modes_view modes.now) (expr_view e.now)) }
{
    let part = part_of(alloc, sight, modes, e)?;
    Ok(formula_of(part))
}

/// A list of one.
fn single(alloc: Global, part: Part) -> Result<Vec<Part>, AllocError>
    ensures { IfOk result (λ v. map part_view v.items ≡ part_view part ∷ []) }
{
    let mut parts = Vec::new(alloc);
    parts.push(part)?;
    Ok(parts)
}

/// The terms of a right side: the outputs of a call, or one.
///
/// # Errors
///
/// Want of memory.
#[tactic(auto, using(lus_tree::proofs::Views::form_views))]
pub fn right_parts(
    alloc: Global,
    sight: &Sight<'_>,
    modes: &[Mode<'_>],
    e: &Expr,
) -> Result<Vec<Part>, AllocError>
    ensures { IfOk result (λ v. map part_view v.items ≡ right_parts (sight_view sight.now) (modes_view modes.now)
        (expr_view e.now)) }
{
    match &e.form {
        Form::Call(k, _, _) => outputs_at(alloc, sight, *k),
        Form::Condact(k, _, _, _, _) => latest_at(alloc, sight, *k),
        Form::Truth(_)
        | Form::Number(_)
        | Form::Name(_)
        | Form::Not(_)
        | Form::Minus(_)
        | Form::Pre(_, _)
        | Form::Arrow(_, _, _)
        | Form::Binary(_, _, _)
        | Form::If(_, _, _)
        | Form::When(_, _, _)
        | Form::Merge(_, _, _)
        | Form::ModeName(_, _) => {
            let part = part_of(alloc, sight, modes, e)?;
            single(alloc, part)
        }
    }
}
