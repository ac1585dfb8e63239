//! Parts made of others: `not`, `-`, choices, and whether two are equal.

ghost use Rattle.std.specs.Prelude.{◌≡◌, IfOk};
ghost use Rattle.sys_meaning.specs.Part.{choose_part, divided, equal_parts, minus_part, not_part, rest_of, scaled};
ghost use Rattle.sys_terms.specs.View.{term_view};
ghost use Rattle.sys_parts.specs.Parts.{part_view};

use crate::amounts::{chosen, equal, multiple, quotient, remainder};
use crate::formulas::{choice, negation, same};
use crate::parts::{Part, flag_part, no_part, number_part};
use std::alloc::{AllocError, Global};
use sys_terms::Term;

/// The other truth value; of a number there is none.
///
/// # Errors
///
/// Want of memory.
pub fn not_part(alloc: Global, part: Part) -> Result<Part, AllocError>
    ensures { IfOk result (λ r. part_view r ≡ not_part (part_view part)) }
{
    match part {
        Part::Flag(term) => flag_part(negation(alloc, term)),
        Part::Number(_) => Ok(no_part()),
    }
}

/// The opposite number; of a truth value there is none.
///
/// # Errors
///
/// Want of memory.
pub fn minus_part(alloc: Global, part: Part) -> Result<Part, AllocError>
    ensures { IfOk result (λ r. part_view r ≡ minus_part (part_view part)) }
{
    scaled(alloc, -1, part)
}

/// The product with a constant; of a truth value there is none.
///
/// # Errors
///
/// Want of memory.
pub fn scaled(alloc: Global, factor: i128, part: Part) -> Result<Part, AllocError>
    ensures { IfOk result (λ r. part_view r ≡ scaled factor (part_view part)) }
{
    match part {
        Part::Flag(_) => Ok(no_part()),
        Part::Number(number) => number_part(multiple(alloc, factor, number)),
    }
}

/// The quotient by a constant; of a truth value there is none.
///
/// # Errors
///
/// Want of memory.
pub fn divided(alloc: Global, part: Part, divisor: i128) -> Result<Part, AllocError>
    ensures { IfOk result (λ r. part_view r ≡ divided (part_view part) divisor) }
{
    match part {
        Part::Flag(_) => Ok(no_part()),
        Part::Number(number) => number_part(quotient(alloc, number, divisor)),
    }
}

/// The remainder by a constant; of a truth value there is none.
///
/// # Errors
///
/// Want of memory.
pub fn rest_of(alloc: Global, part: Part, divisor: i128) -> Result<Part, AllocError>
    ensures { IfOk result (λ r. part_view r ≡ rest_of (part_view part) divisor) }
{
    match part {
        Part::Flag(_) => Ok(no_part()),
        Part::Number(number) => number_part(remainder(alloc, number, divisor)),
    }
}

/// The second where the first is true, else the third; none where they are of two types.
///
/// # Errors
///
/// Want of memory.
pub fn choose_part(
    alloc: Global,
    condition: Term,
    first: Part,
    second: Part,
) -> Result<Part, AllocError>
    ensures { IfOk result (λ r. part_view r ≡ choose_part (term_view condition) (part_view first) (part_view second)) }
{
    match (first, second) {
        (Part::Flag(first), Part::Flag(second)) => {
            flag_part(choice(alloc, condition, first, second))
        }
        (Part::Number(first), Part::Number(second)) => {
            number_part(chosen(alloc, condition, first, second))
        }
        (Part::Flag(_), Part::Number(_)) | (Part::Number(_), Part::Flag(_)) => Ok(no_part()),
    }
}

/// That the two are equal; false where they are of two types.
///
/// # Errors
///
/// Want of memory.
pub fn equal_parts(alloc: Global, first: Part, second: Part) -> Result<Term, AllocError>
    ensures { IfOk result (λ r. term_view r ≡ equal_parts (part_view first) (part_view second)) }
{
    match (first, second) {
        (Part::Flag(first), Part::Flag(second)) => same(alloc, first, second),
        (Part::Number(first), Part::Number(second)) => equal(alloc, first, second),
        (Part::Flag(_), Part::Number(_)) | (Part::Number(_), Part::Flag(_)) => {
            Ok(Term::Truth(false))
        }
    }
}
