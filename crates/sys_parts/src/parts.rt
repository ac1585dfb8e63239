//! A part of a term.

ghost use Rattle.std.specs.Prelude.{◌≡◌, IfOk};
ghost use Rattle.sys_meaning.specs.Part.{a_flag, a_number, amount_of, fixed, formula_of, no_part, variable, variable_in, zero_of};
ghost use Rattle.sys_terms.specs.View.{Amount, Formula, num_view, term_view};
ghost use Rattle.sys_parts.specs.Constants.{constant_view};
ghost use Rattle.sys_parts.specs.Parts.{part_view};

use crate::constant::Constant;
use lus_meaning::Value;
use lus_tree::Sort;
use std::alloc::AllocError;
use sys_terms::{Num, Term, Var};

/// A term of either type.
#[derive(Drop)]
pub enum Part {
    Flag(Term),
    Number(Num),
}

/// What stands for a part of no type.
pub fn no_part() -> Part
    ensures { part_view result ≡ no_part }
{
    Part::Flag(Term::Truth(false))
}

/// A formula as a part, where there is one.
pub(crate) fn flag_part(term: Result<Term, AllocError>) -> Result<Part, AllocError>
    ensures { (f : Formula) → IfOk term (λ t. term_view t ≡ f) → IfOk result (λ r. part_view r ≡ a_flag f) }
{
    Ok(Part::Flag(term?))
}

/// A number as a part, where there is one.
pub(crate) fn number_part(num: Result<Num, AllocError>) -> Result<Part, AllocError>
    ensures { (a : Amount) → IfOk num (λ n. num_view n ≡ a) → IfOk result (λ r. part_view r ≡ a_number a) }
{
    Ok(Part::Number(num?))
}

/// A part as a formula; a number is false.
pub fn formula_of(part: Part) -> Term
    ensures { term_view result ≡ formula_of (part_view part) }
{
    match part {
        Part::Flag(term) => term,
        Part::Number(_) => Term::Truth(false),
    }
}

/// A part as a number; a formula is 0.
pub fn amount_of(part: Part) -> Num
    ensures { num_view result ≡ amount_of (part_view part) }
{
    match part {
        Part::Flag(_) => Num::Constant(0),
        Part::Number(number) => number,
    }
}

/// A value as a part.
pub fn fixed(value: Constant) -> Part
    ensures { part_view result ≡ fixed (constant_view value) }
{
    match value.value {
        Some(Value::Truth(truth)) => Part::Flag(Term::Truth(truth)),
        Some(Value::Whole(number)) => Part::Number(Num::Constant(number)),
        None => no_part(),
    }
}

/// A variable of that type, in this state or the next.
pub fn variable_in(next: bool, sort: Sort, number: u32) -> Part
    ensures { part_view result ≡ variable_in next sort number }
{
    let variable = Var { number, next };
    match sort {
        Sort::Bool => Part::Flag(Term::Flag(variable)),
        Sort::Int => Part::Number(Num::Value(variable)),
    }
}

/// A variable of that type in this state.
pub fn variable(sort: Sort, number: u32) -> Part
    ensures { part_view result ≡ variable sort number }
{
    variable_in(false, sort, number)
}

/// 0 or false.
pub fn zero_of(sort: Sort) -> Part
    ensures { part_view result ≡ zero_of sort }
{
    match sort {
        Sort::Bool => Part::Flag(Term::Truth(false)),
        Sort::Int => Part::Number(Num::Constant(0)),
    }
}
