//! What holds of the names of a frame.

ghost use Rattle.std.specs.Prelude.{◌≡◌, ◌++◌, IfOk, OnOk, map, option_map, slice_get, unwrap_or};
ghost use Rattle.lus_tree.specs.View.{param_view};
ghost use Rattle.lus_meaning.specs.Scene.{clock_from};
ghost use Rattle.sys_meaning.specs.Part.{no_part};
ghost use Rattle.sys_parts.specs.Parts.{part_view};
ghost use Rattle.sys_terms.specs.View.{term_view, terms_view};
ghost use Rattle.sys_texts.specs.Views.{modes_view, sight_view};
ghost use Rattle.sys_conditions.specs.Named.{equals_where_on, given_or, is_free, is_zero, name_conditions, part_given, variable_of, where_on};
ghost use Rattle.sys_conditions.specs.Views.{right_view};

use crate::occurrences::Right;
use lus_streams::clock::declared;
use lus_tree::Param;
use std::alloc::{AllocError, Global};
use sys_parts::choices::{choose_part, equal_parts};
use sys_parts::formulas::either;
use sys_parts::parts::{Part, no_part, variable, zero_of};
use sys_terms::Term;
use sys_texts::presence::present;
use sys_texts::sight::{Mode, Sight, name_number};
use sys_texts::texts::right_parts;

/// An equal part.
fn copied(alloc: Global, part: &Part) -> Result<Part, AllocError>
    ensures { IfOk result (λ p. part_view p ≡ part_view part.now) }
{
    match part {
        Part::Flag(term) => Ok(Part::Flag(term.copied(alloc)?)),
        Part::Number(number) => Ok(Part::Number(number.copied(alloc)?)),
    }
}

/// The part of that place; none where there is none.
fn part_at(alloc: Global, parts: &[Part], place: usize) -> Result<Part, AllocError>
    ensures { IfOk result (λ p. part_view p ≡ unwrap_or (slice_get (map part_view parts.now) place) no_part) }
{
    if place < parts.len() {
        copied(alloc, &parts[place])
    } else {
        Ok(no_part())
    }
}

/// What a right side gives to the left name of its place.
fn part_given(
    alloc: Global,
    sight: &Sight<'_>,
    modes: &[Mode<'_>],
    right: Right<'_>,
) -> Result<Part, AllocError>
    ensures { IfOk result (λ p. part_view p ≡ part_given (sight_view sight.now) (modes_view modes.now)
        (right_view right.entry)) }
{
    let parts = right_parts(alloc, sight, modes, right.side)?;
    part_at(alloc, &parts, right.place)
}

/// What gives a name: the caller, or else an equation.
///
/// # Errors
///
/// Want of memory.
pub fn given_or(
    alloc: Global,
    sight: &Sight<'_>,
    modes: &[Mode<'_>],
    given: Option<&Part>,
    right: Option<Right<'_>>,
) -> Result<Option<Part>, AllocError>
    ensures { IfOk result (λ o. option_map part_view o ≡ given_or (sight_view sight.now) (modes_view modes.now)
        (option_map (λ p. part_view p.now) given.entry) (option_map right_view right.entry)) }
{
    match (given, right) {
        (Some(part), _) => Ok(Some(copied(alloc, part)?)),
        (None, Some(right)) => Ok(Some(part_given(alloc, sight, modes, right)?)),
        (None, None) => Ok(None),
    }
}

/// A stream's variable.
fn variable_of(sight: &Sight<'_>, stream: &Param) -> Part
    ensures { part_view result ≡ variable_of (sight_view sight.now) (param_view stream.now) }
{
    variable(stream.sort, name_number(sight, &stream.name.text))
}

/// That a stream is 0 or false.
fn is_zero(alloc: Global, sight: &Sight<'_>, stream: &Param) -> Result<Term, AllocError>
    ensures { IfOk result (λ t. term_view t ≡ is_zero (sight_view sight.now) (param_view stream.now)) }
{
    equal_parts(alloc, variable_of(sight, stream), zero_of(stream.sort))
}

/// A part where a stream's clock is on, else 0 or false.
fn where_on(
    alloc: Global,
    sight: &Sight<'_>,
    stream: &Param,
    part: Part,
) -> Result<Part, AllocError>
    ensures { IfOk result (λ p. part_view p ≡ where_on (sight_view sight.now) (param_view stream.now)
        (part_view part)) }
{
    let on = present(alloc, sight, declared(&stream.clock))?;
    choose_part(alloc, on, part, zero_of(stream.sort))
}

/// That a stream is a part where its clock is on, else 0 or false.
fn equals_where_on(
    alloc: Global,
    sight: &Sight<'_>,
    stream: &Param,
    part: Part,
) -> Result<Term, AllocError>
    ensures { IfOk result (λ t. term_view t ≡ equals_where_on (sight_view sight.now) (param_view stream.now)
        (part_view part)) }
{
    let side = where_on(alloc, sight, stream, part)?;
    equal_parts(alloc, variable_of(sight, stream), side)
}

/// That a free stream is 0 or false where its clock is off.
fn is_free(alloc: Global, sight: &Sight<'_>, stream: &Param) -> Result<Term, AllocError>
    ensures { IfOk result (λ t. term_view t ≡ is_free (sight_view sight.now) (param_view stream.now)) }
{
    let on = present(alloc, sight, declared(&stream.clock))?;
    let zero = is_zero(alloc, sight, stream)?;
    either(alloc, on, zero)
}

/// The formulas, and behind them what holds of a stream, which this gives, or nothing. `free` says that it may then
/// be anything.
///
/// # Errors
///
/// Want of memory.
pub fn push_name(
    alloc: Global,
    formulas: &mut Vec<Term>,
    sight: &Sight<'_>,
    free: bool,
    stream: &Param,
    given: Option<Part>,
) -> Result<(), AllocError>
    ensures { OnOk result (terms_view formulas.new.items ≡ terms_view formulas.old.items
        ++ name_conditions (sight_view sight.now) free (param_view stream.now) (option_map part_view given)) }
{
    match given {
        Some(part) => {
            let condition = equals_where_on(alloc, sight, stream, part)?;
            formulas.push(condition)?;
        }
        None => {
            if !free {
                let condition = is_free(alloc, sight, stream)?;
                formulas.push(condition)?;
            }
        }
    }
    Ok(())
}
