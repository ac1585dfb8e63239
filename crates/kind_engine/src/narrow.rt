//! The narrow query of an instant, which only states with numbers below 2^63 in size answer.

ghost use Rattle.std.specs.Prelude.{◌≡◌, ◌<◌, ◌+◌, ◌^◌, ◌++◌, [], ◌∷◌, false, length, map, IfOk};
ghost use Rattle.sys_terms.specs.View.{term_view, num_view, system_view, placed_view, obligation_view, negation, number, base};
ghost use Rattle.sys_terms.specs.Queries.{property_term};
ghost use Rattle.sys_terms.specs.NarrowQuery.{upper_bound as bound_above, lower_bound as bound_below, bounds_at, narrow_task};

use std::alloc::{AllocError, Global};
use sys_terms::{Num, Obligation, Shape, System, Term, Var};

/// The greatest number below 2^63 in size.
const GREATEST: i128 = 9_223_372_036_854_775_807;

/// The least one, its opposite.
const LEAST: i128 = -9_223_372_036_854_775_807;

/// The value of a variable.
fn value_of(variable: u32) -> Num
    ensures { num_view result ≡ number record { number = variable; next = false } }
{
    Num::Value(Var {
        number: variable,
        next: false,
    })
}

/// The variable is at most the greatest.
fn upper_bound(alloc: Global, variable: u32) -> Result<Term, AllocError>
    ensures { IfOk result (λ t. term_view t ≡ bound_above variable) }
{
    let value = Box::new(alloc, value_of(variable))?;
    Ok(Term::AtMost(value, Box::new(alloc, Num::Constant(GREATEST))?))
}

/// The variable is at least the least.
fn lower_bound(alloc: Global, variable: u32) -> Result<Term, AllocError>
    ensures { IfOk result (λ t. term_view t ≡ bound_below variable) }
{
    let least = Box::new(alloc, Num::Constant(LEAST))?;
    Ok(Term::AtMost(least, Box::new(alloc, value_of(variable))?))
}

/// Adds both bounds of a variable at a state, where it is a number.
fn push_bounds(
    alloc: Global,
    shape: Shape,
    state: u32,
    variable: u32,
    at: &mut Vec<(u32, Term)>,
) -> Result<(), AllocError>
    ensures { IfOk result (λ _. map placed_view at.new.items
        ≡ map placed_view at.old.items ++ bounds_at state variable (shape ∷ [])) }
{
    match shape {
        Shape::Flag => Ok(()),
        Shape::Number => {
            let upper = upper_bound(alloc, variable)?;
            at.push((state, upper))?;
            let lower = lower_bound(alloc, variable)?;
            at.push((state, lower))?;
            Ok(())
        }
    }
}

/// Adds both bounds of each number of a state.
fn push_state(
    alloc: Global,
    shapes: &[Shape],
    state: u32,
    at: &mut Vec<(u32, Term)>,
) -> Result<(), AllocError>
    requires { length shapes.now < 2 ^ 32 }
    ensures { IfOk result (λ _. map placed_view at.new.items
        ≡ map placed_view at.old.items ++ bounds_at state 0 shapes.now) }
{
    for variable in 0..shapes.len() as u32 {
        push_bounds(alloc, shapes[variable as usize], state, variable, at)?;
    }
    Ok(())
}

/// The property is false.
fn denial(alloc: Global, system: &System, property: u32) -> Result<Term, AllocError>
    requires { property < length (system_view system.now).properties }
    ensures { IfOk result (λ t. term_view t ≡ negation (property_term (system_view system.now) property)) }
{
    let term = system.properties[property as usize].copied(alloc)?;
    Ok(Term::Not(Box::new(alloc, term)?))
}

/// The narrow query of the question whether a path to this instant ends with the property false.
pub(crate) fn narrow_base(
    alloc: Global,
    system: &System,
    property: u32,
    instant: u32,
) -> Result<Obligation, AllocError>
    requires few { length (system_view system.now).shapes < 2 ^ 32 }
    requires named { property < length (system_view system.now).properties }
    requires within { instant + 1 < 2 ^ 32 }
    ensures { IfOk result (λ o. obligation_view o ≡ narrow_task (system_view system.now) (base property instant)) }
{
    let mut at = Vec::new(alloc);
    at.push((instant, denial(alloc, system, property)?))?;
    for state in 0..instant + 1 {
        push_state(alloc, &system.shapes, state, &mut at)?;
    }
    Ok(Obligation::Open {
        states: instant + 1,
        from_first: true,
        at,
    })
}
