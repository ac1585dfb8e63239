//! What the value of an expression needs of its own instant.

ghost use Rattle.std.specs.Prelude.{◌≡◌, ◌∷◌, ◌++◌, [], IfOk, OnOk, map};
ghost use Rattle.lus_tree.specs.View.{expr_view, exprs_view, joined, param_view};
ghost use Rattle.lus_meaning.specs.Depends.{a_name, clock_needs, needs, needs_each, output_needs};
ghost use Rattle.lus_streams.specs.Clocks.{clock_seen};
ghost use Rattle.lus_streams.specs.Streams.{names_of};
ghost use Rattle.evaluation_parts.specs.Needed.{modes_needs_view, need_view, needs_view};
ghost use Rattle.evaluation_parts.specs.Views.{frame_instance};

use crate::frame::{Frame, from_zero};
use crate::mode_need::{ModeNeeds, push_known};
use crate::need::{Need, own_name};
use lus_streams::clock::Clock;
use lus_tree::{Expr, Form, Param};
use std::alloc::{AllocError, Global};

/// The needs, and behind them that of a stream on that clock.
fn push_clock<'a>(
    alloc: Global,
    needs: &mut Vec<Need<'a>>,
    clock: Clock<'a>,
) -> Result<(), AllocError>
    ensures { OnOk result (needs_view needs.new.items ≡ needs_view needs.old.items
        ++ clock_needs (clock_seen clock.entry)) }
{
    match clock {
        Clock::Base => needs.push(Need::Beat)?,
        Clock::Sampled(_, word) => needs.push(own_name(alloc, word.text.as_str()))?,
    }
    Ok(())
}

/// A name of the frame of the call with that number, counted from 0.
fn called_name(alloc: Global, call: u32, name: &str) -> Result<Need<'_>, AllocError>
    ensures { IfOk result (λ n. need_view n ≡ a_name (call ∷ []) name.now) }
{
    let mut way = Vec::with_capacity(alloc, 1)?;
    way.push(call)?;
    Ok(Need::Name(way, name))
}

/// The needs, and behind them these outputs of the call with that number, counted from 0.
fn push_outputs<'a>(
    alloc: Global,
    needs: &mut Vec<Need<'a>>,
    call: u32,
    outputs: &'a [Param],
) -> Result<(), AllocError>
    ensures { OnOk result (needs_view needs.new.items ≡ needs_view needs.old.items
        ++ map (a_name (call ∷ [])) (names_of (map param_view outputs.now))) }
{
    for output in outputs {
        needs.push(called_name(alloc, call, output.name.text.as_str())?)?;
    }
    Ok(())
}

/// The needs, and behind them the outputs of the call with that number.
fn push_called<'a>(
    alloc: Global,
    needs: &mut Vec<Need<'a>>,
    frame: Frame<'a, '_>,
    number: u32,
) -> Result<(), AllocError>
    ensures { OnOk result (needs_view needs.new.items ≡ needs_view needs.old.items
        ++ output_needs (frame_instance frame.entry) number) }
{
    push_outputs(alloc, needs, from_zero(number), frame.outputs(number))
}

/// The needs, and behind them a name of the frame itself.
fn push_name<'a>(alloc: Global, needs: &mut Vec<Need<'a>>, name: &'a str) -> Result<(), AllocError>
    ensures { OnOk result (needs_view needs.new.items ≡ needs_view needs.old.items ++ a_name [] name.now ∷ []) }
{
    needs.push(own_name(alloc, name))?;
    Ok(())
}

/// The needs, and behind them those of an expression that stands on a clock of a frame, where modes need these.
///
/// # Errors
///
/// Want of memory.
#[cycle(needs)]
#[tactic(auto, using(lus_tree::proofs::Views::form_views))]
pub fn push_needs<'a>(
    alloc: Global,
    found: &mut Vec<Need<'a>>,
    frame: Frame<'a, '_>,
    modes: &[ModeNeeds<'a>],
    clock: Clock<'a>,
    e: &'a Expr,
) -> Result<(), AllocError>
    ensures { OnOk result (needs_view found.new.items ≡ needs_view found.old.items
        ++ needs (frame_instance frame.entry) (modes_needs_view modes.now) (clock_seen clock.entry) (expr_view e.now)) }
{
    match &e.form {
        Form::Truth(_) | Form::Number(_) | Form::Pre(_, _) => push_clock(alloc, found, clock),
        Form::Name(x) => {
            push_name(alloc, found, x.as_str())?;
            push_clock(alloc, found, clock)
        }
        Form::Not(a) | Form::Minus(a) => {
            push_clock(alloc, found, clock)?;
            push_needs(alloc, found, frame, modes, clock, a)
        }
        Form::Arrow(_, a, b) | Form::Binary(_, a, b) => {
            push_clock(alloc, found, clock)?;
            push_needs(alloc, found, frame, modes, clock, a)?;
            push_needs(alloc, found, frame, modes, clock, b)
        }
        Form::If(a, b, c) => {
            push_clock(alloc, found, clock)?;
            push_needs(alloc, found, frame, modes, clock, a)?;
            push_needs(alloc, found, frame, modes, clock, b)?;
            push_needs(alloc, found, frame, modes, clock, c)
        }
        Form::When(a, _, word) => {
            push_name(alloc, found, word.text.as_str())?;
            push_needs(alloc, found, frame, modes, frame.clock(&word.text), a)
        }
        Form::Merge(word, a, b) => {
            push_name(alloc, found, word.text.as_str())?;
            push_needs(alloc, found, frame, modes, Clock::Sampled(true, word), a)?;
            push_needs(alloc, found, frame, modes, Clock::Sampled(false, word), b)
        }
        Form::Call(number, _, _) => push_called(alloc, found, frame, *number),
        Form::Condact(number, a, _, _, defaults) => {
            push_clock(alloc, found, clock)?;
            push_needs(alloc, found, frame, modes, clock, a)?;
            push_called(alloc, found, frame, *number)?;
            push_each(alloc, found, frame, modes, clock, defaults)
        }
        Form::ModeName(contract, mode) => push_known(alloc, found, modes, contract, mode),
    }
}

/// The needs, and behind them those of these expressions.
#[cycle(needs)]
fn push_each<'a>(
    alloc: Global,
    found: &mut Vec<Need<'a>>,
    frame: Frame<'a, '_>,
    modes: &[ModeNeeds<'a>],
    clock: Clock<'a>,
    values: &'a [Expr],
) -> Result<(), AllocError>
    ensures { OnOk result (needs_view found.new.items ≡ needs_view found.old.items
        ++ needs_each (frame_instance frame.entry) (modes_needs_view modes.now) (clock_seen clock.entry)
        (joined (exprs_view values.now))) }
{
    for value in values {
        push_needs(alloc, found, frame, modes, clock, value)?;
    }
    Ok(())
}
