//! The `pre` of a declaration.

ghost use Rattle.std.specs.Prelude.{◌≡◌, ◌++◌, IfOk, OnOk, map};
ghost use Rattle.lus_tree.specs.View.{expr_view, exprs_view, joined};
ghost use Rattle.lus_meaning.specs.Occurrences.{memories};
ghost use Rattle.lus_streams.specs.Clocks.{clock_seen};
ghost use Rattle.lus_streams.specs.Names.{names_view};
ghost use Rattle.sys_conditions.specs.Views.{memory_view};
ghost use Rattle.sys_occurrences.specs.Occurring.{memories_among, memories_in, memories_of};
ghost use Rattle.sys_occurrences.specs.Views.{placed_view};

use crate::places::{Placed, places_of};
use lus_streams::clock::Clock;
use lus_streams::names::Names;
use lus_tree::{Expr, Form};
use std::alloc::{AllocError, Global};
use sys_conditions::occurrences::Memory;

/// The `pre`, and behind them those of an expression on that clock.
#[cycle(memories)]
#[tactic(auto, using(lus_tree::proofs::Views::form_views))]
fn push_memories<'a>(
    memories: &mut Vec<Memory<'a>>,
    names: Names<'a, '_>,
    clock: Clock<'a>,
    e: &'a Expr,
) -> Result<(), AllocError>
    ensures { OnOk result (map memory_view memories.new.items ≡ map memory_view memories.old.items
        ++ memories_in (names_view names.entry) (clock_seen clock.entry) (expr_view e.now)) }
{
    match &e.form {
        Form::Pre(number, a) => {
            memories.push(Memory {
                number: *number,
                clock,
                operand: a,
            })?;
            push_memories(memories, names, clock, a)
        }
        Form::Not(a) | Form::Minus(a) => push_memories(memories, names, clock, a),
        Form::Arrow(_, a, b) | Form::Binary(_, a, b) => {
            push_memories(memories, names, clock, a)?;
            push_memories(memories, names, clock, b)
        }
        Form::If(a, b, c) => {
            push_memories(memories, names, clock, a)?;
            push_memories(memories, names, clock, b)?;
            push_memories(memories, names, clock, c)
        }
        Form::When(a, _, x) => {
            let outer = names.clock_or_base(&x.text);
            push_memories(memories, names, outer, a)
        }
        Form::Merge(x, a, b) => {
            push_memories(memories, names, Clock::Sampled(true, x), a)?;
            push_memories(memories, names, Clock::Sampled(false, x), b)
        }
        Form::Call(_, _, arguments) => push_memories_among(memories, names, clock, arguments),
        Form::Condact(_, a, _, arguments, defaults) => {
            push_memories(memories, names, clock, a)?;
            push_memories_among(memories, names, clock, arguments)?;
            push_memories_among(memories, names, clock, defaults)
        }
        Form::Truth(_) | Form::Number(_) | Form::Name(_) | Form::ModeName(_, _) => Ok(()),
    }
}

/// The `pre`, and behind them those of these expressions on that clock.
#[cycle(memories)]
fn push_memories_among<'a>(
    memories: &mut Vec<Memory<'a>>,
    names: Names<'a, '_>,
    clock: Clock<'a>,
    values: &'a [Expr],
) -> Result<(), AllocError>
    ensures { OnOk result (map memory_view memories.new.items ≡ map memory_view memories.old.items
        ++ memories_among (names_view names.entry) (clock_seen clock.entry) (joined (exprs_view values.now))) }
{
    for value in values {
        push_memories(memories, names, clock, value)?;
    }
    Ok(())
}

/// The `pre` of these places.
fn found<'a>(
    alloc: Global,
    names: Names<'a, '_>,
    places: &[Placed<'a>],
) -> Result<Vec<Memory<'a>>, AllocError>
    ensures { IfOk result (λ v. map memory_view v.items
        ≡ memories_of (names_view names.entry) (map placed_view places.now)) }
{
    let mut memories = Vec::new(alloc);
    for place in places {
        push_memories(&mut memories, names, place.clock, place.expression)?;
    }
    Ok(memories)
}

/// The `pre` of a declaration, in the order of the tree, each with the clock of its place and its operand.
///
/// # Errors
///
/// Want of memory.
#[tactic(auto, using(crate::proofs::Occurring::memories_are))]
pub fn memories<'a>(alloc: Global, names: Names<'a, '_>) -> Result<Vec<Memory<'a>>, AllocError>
    ensures { IfOk result (λ v. map memory_view v.items ≡ memories (names_view names.entry)) }
{
    let places = places_of(alloc, names)?;
    found(alloc, names, &places)
}
