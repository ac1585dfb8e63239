//! The parts of an expression.

ghost use Rattle.std.specs.Prelude.{◌≡◌, ◌∷◌, ◌++◌, List, [], OnOk, map, option_map, slice_index_or, unwrap_or};
ghost use Rattle.std.specs.Map.{lookup};
ghost use Rattle.lus_tree.specs.Tree.{text_of};
ghost use Rattle.lus_tree.specs.View.{expr_view, exprs_view, joined, word_view};
ghost use Rattle.lus_meaning.specs.Cycle.{Place};
ghost use Rattle.lus_meaning.specs.Meaning.{mode_key};
ghost use Rattle.lus_streams.specs.Clocks.{clock_seen};
ghost use Rattle.lus_evaluation.specs.Frame.{no_text, text_at};
ghost use Rattle.lus_evaluation.specs.Part.{argument_parts, asked_in, key_of, operand_parts, part, parts, whole_parts};
ghost use Rattle.evaluation_parts.specs.Operands.{beside, elsewhere};
ghost use Rattle.evaluation_parts.specs.PartViews.{filled_each, given, needed_in, parts_view};
ghost use Rattle.evaluation_parts.specs.Texts.{asked_view, frame_texts_view, mode_key_view, mode_texts_view, setting_view};

use crate::frame::from_zero;
use crate::mode_need::is_mode;
use crate::part::{Gives, Part, Whole, push_closed, push_copies};
use crate::placing::whole_of;
use crate::setting::Setting;
use crate::text::{FrameText, ModeText};
use lus_streams::clock::Clock;
use lus_tree::{Expr, Form, PlacedName};
use std::alloc::{AllocError, Global};

/// What is evaluated in the frame of the call of that place.
fn body_at<'a, 's>(texts: &'s [FrameText<'a>], place: usize) -> &'s [Part<'a>]
    ensures { parts_view result.now ≡ (slice_index_or (frame_texts_view texts.now) place no_text).body }
{
    if place < texts.len() {
        &texts[place].body
    } else {
        &[]
    }
}

/// The parts, and behind them what is evaluated in the frame of the call with that number.
pub(crate) fn push_body<'a>(
    alloc: Global,
    all: &mut Vec<Part<'a>>,
    texts: &[FrameText<'a>],
    number: u32,
) -> Result<(), AllocError>
    ensures { OnOk result ((ns : List Place) → filled_each ns all.new.items
        ≡ filled_each ns all.old.items ++ (text_at (frame_texts_view texts.now) number).body) }
{
    let body = body_at(texts, from_zero(number) as usize);
    push_closed(alloc, all, body)?;
    Ok(())
}

/// Whether a mode is the one that `::m` or `::C::m` names.
fn is_named(text: &ModeText<'_>, contract: &Option<PlacedName>, mode: &PlacedName) -> bool
    ensures { result ≡ mode_key (key_of (option_map text_of (option_map word_view contract.now))
        (word_view mode.now).text)
        (mode_key_view text.now) }
{
    is_mode(contract, mode, &text.contracts, text.mode)
}

/// The mode that `::m` or `::C::m` names.
fn named<'a, 'm>(
    modes: &'m [ModeText<'a>],
    contract: &Option<PlacedName>,
    mode: &PlacedName,
) -> Option<&'m ModeText<'a>>
    ensures { option_map (λ m. asked_view m.now) result
        ≡ lookup (mode_key (key_of (option_map text_of (option_map word_view contract.now)) (word_view mode.now).text))
        (map (λ m. (m.key, m.asked)) (mode_texts_view modes.now)) }
{
    for text in modes {
        if is_named(text, contract, mode) {
            return Some(text);
        }
    }
    None
}

/// The parts, and behind them what is evaluated where a mode is named in that whole, if there is one.
fn push_asked_of<'a>(
    alloc: Global,
    all: &mut Vec<Part<'a>>,
    whole: &Whole<'a>,
    mode: Option<&ModeText<'a>>,
) -> Result<(), AllocError>
    ensures { OnOk result ((ns : List Place) → filled_each ns all.new.items ≡ filled_each ns all.old.items
        ++ (unwrap_or (option_map (λ m. asked_view m.now) mode.entry) (λ x. [])) (needed_in ns whole.now)) }
{
    match mode {
        Some(mode) => {
            push_copies(alloc, all, whole, &mode.asked)?;
            Ok(())
        }
        None => Ok(()),
    }
}

/// The parts, and behind them what is evaluated where `::m` or `::C::m` stands in that whole.
fn push_asked<'a>(
    alloc: Global,
    all: &mut Vec<Part<'a>>,
    setting: &Setting<'a, '_, '_>,
    whole: &Whole<'a>,
    contract: &Option<PlacedName>,
    mode: &PlacedName,
) -> Result<(), AllocError>
    ensures { OnOk result ((ns : List Place) → filled_each ns all.new.items ≡ filled_each ns all.old.items
        ++ asked_in (setting_view setting.now) (needed_in ns whole.now)
        (key_of (option_map text_of (option_map word_view contract.now)) (word_view mode.now).text)) }
{
    let named = named(setting.modes, contract, mode);
    push_asked_of(alloc, all, whole, named)?;
    Ok(())
}

/// The parts, and behind them the one that is this expression.
fn push_itself<'a>(
    alloc: Global,
    all: &mut Vec<Part<'a>>,
    setting: &Setting<'a, '_, '_>,
    whole: &Whole<'a>,
    gives: Gives<'a>,
    clock: Clock<'a>,
    e: &'a Expr,
) -> Result<(), AllocError>
    ensures { OnOk result ((ns : List Place) → filled_each ns all.new.items ≡ filled_each ns all.old.items
        ++ part (setting_view setting.now) (needed_in ns whole.now) (given gives.entry) (clock_seen clock.entry)
        (expr_view e.now) ∷ []) }
{
    let way = Vec::from_slice(alloc, setting.way)?;
    let whole = whole.shared()?;
    all.push(Part {
        way,
        clock,
        expression: e,
        whole,
        gives,
    })?;
    Ok(())
}

/// The parts, and behind them those of an expression that stands on a clock in that whole and gives these names.
///
/// # Errors
///
/// Want of memory.
#[cycle(parts)]
#[tactic(auto, using(crate::proofs::Operands::parts_are))]
pub(crate) fn push_parts<'a>(
    alloc: Global,
    all: &mut Vec<Part<'a>>,
    setting: &Setting<'a, '_, '_>,
    whole: &Whole<'a>,
    gives: Gives<'a>,
    clock: Clock<'a>,
    e: &'a Expr,
) -> Result<(), AllocError>
    ensures { OnOk result ((ns : List Place) → filled_each ns all.new.items ≡ filled_each ns all.old.items
        ++ parts (setting_view setting.now) (needed_in ns whole.now) (given gives.entry) (clock_seen clock.entry)
        (expr_view e.now)) }
{
    push_beside(alloc, all, setting, whole, clock, e)?;
    push_elsewhere(alloc, all, setting, whole, clock, e)?;
    push_itself(alloc, all, setting, whole, gives, clock, e)?;
    Ok(())
}

/// The parts, and behind them those of the operands of an expression that stand on its clock.
#[cycle(parts)]
#[tactic(auto, using(lus_tree::proofs::Views::form_views))]
fn push_beside<'a>(
    alloc: Global,
    all: &mut Vec<Part<'a>>,
    setting: &Setting<'a, '_, '_>,
    whole: &Whole<'a>,
    clock: Clock<'a>,
    e: &'a Expr,
) -> Result<(), AllocError>
    ensures { OnOk result ((ns : List Place) → filled_each ns all.new.items ≡ filled_each ns all.old.items
        ++ beside (setting_view setting.now) (needed_in ns whole.now) (clock_seen clock.entry) (expr_view e.now)) }
{
    match &e.form {
        Form::Not(a) | Form::Minus(a) => push_operand(alloc, all, setting, whole, clock, a),
        Form::Pre(_, a) => push_own(alloc, all, setting, clock, a),
        Form::Arrow(_, a, b) | Form::Binary(_, a, b) => {
            push_operand(alloc, all, setting, whole, clock, a)?;
            push_operand(alloc, all, setting, whole, clock, b)
        }
        Form::If(a, b, c) => {
            push_operand(alloc, all, setting, whole, clock, a)?;
            push_operand(alloc, all, setting, whole, clock, b)?;
            push_operand(alloc, all, setting, whole, clock, c)
        }
        Form::Truth(_)
        | Form::Number(_)
        | Form::Name(_)
        | Form::When(_, _, _)
        | Form::Merge(_, _, _)
        | Form::Call(_, _, _)
        | Form::Condact(_, _, _, _, _)
        | Form::ModeName(_, _) => Ok(()),
    }
}

/// The parts, and behind them those that an expression has before itself on another clock or in another frame, and
/// those of a mode that it names.
#[cycle(parts)]
#[tactic(auto, using(lus_tree::proofs::Views::form_views))]
fn push_elsewhere<'a>(
    alloc: Global,
    all: &mut Vec<Part<'a>>,
    setting: &Setting<'a, '_, '_>,
    whole: &Whole<'a>,
    clock: Clock<'a>,
    e: &'a Expr,
) -> Result<(), AllocError>
    ensures { OnOk result ((ns : List Place) → filled_each ns all.new.items ≡ filled_each ns all.old.items
        ++ elsewhere (setting_view setting.now) (needed_in ns whole.now) (clock_seen clock.entry) (expr_view e.now)) }
{
    match &e.form {
        Form::When(a, _, x) => {
            push_operand(alloc, all, setting, whole, setting.frame.clock(&x.text), a)
        }
        Form::Merge(x, a, b) => {
            push_operand(alloc, all, setting, whole, Clock::Sampled(true, x), a)?;
            push_operand(alloc, all, setting, whole, Clock::Sampled(false, x), b)
        }
        Form::Call(number, _, arguments) => {
            push_call(alloc, all, setting, clock, *number, arguments)
        }
        Form::Condact(number, a, _, arguments, defaults) => {
            push_own(alloc, all, setting, clock, a)?;
            push_call(alloc, all, setting, clock, *number, arguments)?;
            push_operands(alloc, all, setting, whole, clock, defaults)
        }
        Form::ModeName(contract, mode) => push_asked(alloc, all, setting, whole, contract, mode),
        Form::Truth(_)
        | Form::Number(_)
        | Form::Name(_)
        | Form::Not(_)
        | Form::Minus(_)
        | Form::Pre(_, _)
        | Form::Arrow(_, _, _)
        | Form::Binary(_, _, _)
        | Form::If(_, _, _) => Ok(()),
    }
}

/// The parts, and behind them those of an operand of that whole.
#[cycle(parts)]
fn push_operand<'a>(
    alloc: Global,
    all: &mut Vec<Part<'a>>,
    setting: &Setting<'a, '_, '_>,
    whole: &Whole<'a>,
    clock: Clock<'a>,
    e: &'a Expr,
) -> Result<(), AllocError>
    ensures { OnOk result ((ns : List Place) → filled_each ns all.new.items ≡ filled_each ns all.old.items
        ++ parts (setting_view setting.now) (needed_in ns whole.now) [] (clock_seen clock.entry) (expr_view e.now)) }
{
    push_parts(alloc, all, setting, whole, Gives::Nothing, clock, e)
}

/// The parts, and behind them those of an expression that is a whole of its own.
#[cycle(parts)]
fn push_own<'a>(
    alloc: Global,
    all: &mut Vec<Part<'a>>,
    setting: &Setting<'a, '_, '_>,
    clock: Clock<'a>,
    e: &'a Expr,
) -> Result<(), AllocError>
    ensures { OnOk result ((ns : List Place) → filled_each ns all.new.items ≡ filled_each ns all.old.items
        ++ whole_parts (setting_view setting.now) [] (clock_seen clock.entry) (expr_view e.now)) }
{
    let own = whole_of(alloc, setting, clock, e)?;
    push_parts(alloc, all, setting, &own, Gives::Nothing, clock, e)?;
    Ok(())
}

/// The parts, and behind them those of the arguments of a call, and what is evaluated in its frame.
#[cycle(parts)]
fn push_call<'a>(
    alloc: Global,
    all: &mut Vec<Part<'a>>,
    setting: &Setting<'a, '_, '_>,
    clock: Clock<'a>,
    number: u32,
    arguments: &'a [Expr],
) -> Result<(), AllocError>
    ensures { OnOk result ((ns : List Place) → filled_each ns all.new.items ≡ filled_each ns all.old.items
        ++ (argument_parts (setting_view setting.now) (clock_seen clock.entry) (joined (exprs_view arguments.now))
        ++ (setting_view setting.now).body number)) }
{
    push_arguments(alloc, all, setting, clock, arguments)?;
    push_body(alloc, all, setting.texts, number)?;
    Ok(())
}

/// The parts, and behind them those of arguments, each a whole of its own.
#[cycle(parts)]
fn push_arguments<'a>(
    alloc: Global,
    all: &mut Vec<Part<'a>>,
    setting: &Setting<'a, '_, '_>,
    clock: Clock<'a>,
    arguments: &'a [Expr],
) -> Result<(), AllocError>
    ensures { OnOk result ((ns : List Place) → filled_each ns all.new.items ≡ filled_each ns all.old.items
        ++ argument_parts (setting_view setting.now) (clock_seen clock.entry) (joined (exprs_view arguments.now))) }
{
    for argument in arguments {
        push_own(alloc, all, setting, clock, argument)?;
    }
    Ok(())
}

/// The parts, and behind them those of operands of that whole.
#[cycle(parts)]
fn push_operands<'a>(
    alloc: Global,
    all: &mut Vec<Part<'a>>,
    setting: &Setting<'a, '_, '_>,
    whole: &Whole<'a>,
    clock: Clock<'a>,
    operands: &'a [Expr],
) -> Result<(), AllocError>
    ensures { OnOk result ((ns : List Place) → filled_each ns all.new.items ≡ filled_each ns all.old.items
        ++ operand_parts (setting_view setting.now) (needed_in ns whole.now) (clock_seen clock.entry)
        (joined (exprs_view operands.now))) }
{
    for operand in operands {
        push_operand(alloc, all, setting, whole, clock, operand)?;
    }
    Ok(())
}

/// The parts, and behind them those of an expression that is a whole and gives these names.
pub(crate) fn push_whole<'a>(
    alloc: Global,
    all: &mut Vec<Part<'a>>,
    setting: &Setting<'a, '_, '_>,
    gives: Gives<'a>,
    clock: Clock<'a>,
    e: &'a Expr,
) -> Result<(), AllocError>
    ensures { OnOk result (parts_view all.new.items ≡ parts_view all.old.items
        ++ whole_parts (setting_view setting.now) (given gives.entry) (clock_seen clock.entry) (expr_view e.now)) }
{
    let own = whole_of(alloc, setting, clock, e)?;
    push_parts(alloc, all, setting, &own, gives, clock, e)?;
    Ok(())
}
