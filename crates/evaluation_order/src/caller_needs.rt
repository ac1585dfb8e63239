//! What a name, or the beat, of a call's frame needs of the caller's frame.

ghost use Rattle.std.specs.Prelude.{◌≡◌, ◌∷◌, ◌++◌, [], OnOk, map, option_map};
ghost use Rattle.lus_tree.specs.Tree.{text_of};
ghost use Rattle.lus_tree.specs.View.{expr_view, param_view, program_view, word_view};
ghost use Rattle.lus_meaning.specs.Cycle.{caller_needs, matching, shared_needs};
ghost use Rattle.lus_meaning.specs.Depends.{a_name, modes_need, site_needs};
ghost use Rattle.lus_meaning.specs.Run.{inputs_of};
ghost use Rattle.lus_meaning.specs.Scene.{outputs_of};
ghost use Rattle.lus_streams.specs.Streams.{names_of};
ghost use Rattle.evaluation_parts.specs.Needed.{modes_needs_view, needs_view};
ghost use Rattle.evaluation_parts.specs.Views.{frame_instance, instance_there, manner_view, site_view};
ghost use Rattle.evaluation_order.specs.Steps.{argument_needs};

use crate::own_needs::push_clock;
use evaluation_parts::frame::{Frame, Link, Manner};
use evaluation_parts::mode_need::ModeNeeds;
use evaluation_parts::need::Need;
use evaluation_parts::needs::push_needs;
use lus_tree::{Expr, Param, PlacedName, Program};
use std::alloc::{AllocError, Global};

/// The needs, and behind them what decides at which instants a call runs: its clock and its condition.
fn push_site<'a>(
    alloc: Global,
    needs: &mut Vec<Need<'a>>,
    frame: Frame<'a, '_>,
    modes: &[ModeNeeds<'a>],
    link: Link<'a>,
) -> Result<(), AllocError>
    requires { modes_needs_view modes.now ≡ modes_need (frame_instance frame) }
    ensures { OnOk result (needs_view needs.new.items ≡ needs_view needs.old.items
        ++ site_needs (frame_instance frame.entry) (modes_need (frame_instance frame.entry)) (site_view link.entry)
        (manner_view link.entry.manner)) }
{
    push_clock(alloc, needs, link.clock)?;
    match link.manner {
        Manner::While(condition) => push_needs(alloc, needs, frame, modes, link.clock, condition),
        Manner::Plain | Manner::Import(_) => Ok(()),
    }
}

/// The needs, and behind them those of an argument: when the call runs, and the argument.
fn push_argument<'a>(
    alloc: Global,
    needs: &mut Vec<Need<'a>>,
    frame: Frame<'a, '_>,
    modes: &[ModeNeeds<'a>],
    link: Link<'a>,
    argument: &'a Expr,
) -> Result<(), AllocError>
    requires { modes_needs_view modes.now ≡ modes_need (frame_instance frame) }
    ensures { OnOk result (needs_view needs.new.items ≡ needs_view needs.old.items
        ++ argument_needs (frame_instance frame.entry) (site_view link.entry) (expr_view argument.now)) }
{
    push_site(alloc, needs, frame, modes, link)?;
    push_needs(alloc, needs, frame, modes, link.clock, argument)
}

/// The needs, and behind them those of the arguments whose inputs have that name.
fn push_arguments<'a>(
    alloc: Global,
    needs: &mut Vec<Need<'a>>,
    frame: Frame<'a, '_>,
    modes: &[ModeNeeds<'a>],
    link: Link<'a>,
    name: &str,
    inputs: &[Param],
    arguments: &'a [Expr],
) -> Result<(), AllocError>
    requires { modes_needs_view modes.now ≡ modes_need (frame_instance frame) }
    ensures { OnOk result (needs_view needs.new.items ≡ needs_view needs.old.items
        ++ matching (argument_needs (frame_instance frame.entry) (site_view link.entry)) name.now
        (names_of (map param_view inputs.now)) (map expr_view arguments.now)) }
{
    match inputs {
        [] => Ok(()),
        [input, inputs @ ..] => match arguments {
            [] => Ok(()),
            [argument, arguments @ ..] => {
                if name == input.name.text.as_str() {
                    push_argument(alloc, needs, frame, modes, link, argument)?;
                }
                push_arguments(alloc, needs, frame, modes, link, name, inputs, arguments)
            }
        },
    }
}

/// The needs, and behind them the names of the caller that stand for the outputs of that name.
fn push_outputs<'a>(
    alloc: Global,
    needs: &mut Vec<Need<'a>>,
    name: &str,
    outputs: &[Param],
    words: &'a [PlacedName],
) -> Result<(), AllocError>
    ensures { OnOk result (needs_view needs.new.items ≡ needs_view needs.old.items
        ++ matching (λ y. a_name [] y ∷ []) name.now (names_of (map param_view outputs.now))
        (map text_of (map word_view words.now))) }
{
    match outputs {
        [] => Ok(()),
        [output, outputs @ ..] => match words {
            [] => Ok(()),
            [word, words @ ..] => {
                if name == output.name.text.as_str() {
                    needs.push(Need::Name(Vec::new(alloc), word.text.as_str()))?;
                }
                push_outputs(alloc, needs, name, outputs, words)
            }
        },
    }
}

/// The needs, and behind them what an import shares with its caller.
fn push_shared<'a>(
    alloc: Global,
    needs: &mut Vec<Need<'a>>,
    manner: Manner<'a>,
    name: &str,
    outputs: &[Param],
) -> Result<(), AllocError>
    ensures { OnOk result (needs_view needs.new.items ≡ needs_view needs.old.items
        ++ shared_needs (manner_view manner.entry) name.now (names_of (map param_view outputs.now))) }
{
    match manner {
        Manner::Import(words) => push_outputs(alloc, needs, name, outputs, words),
        Manner::Plain | Manner::While(_) => Ok(()),
    }
}

/// The inputs of a frame; none where it is not there.
fn inputs_there<'a>(program: &Program, frame: Option<Frame<'a, '_>>) -> &'a [Param]
    ensures { names_of (map param_view result.now) ≡ inputs_of (instance_there (program_view program.now) frame.entry) }
{
    match frame {
        Some(frame) => frame.declared.names.owner.inputs(),
        None => &[],
    }
}

/// The outputs of a frame; none where it is not there.
fn outputs_there<'a>(program: &Program, frame: Option<Frame<'a, '_>>) -> &'a [Param]
    ensures { names_of (map param_view result.now) ≡ outputs_of
        (instance_there (program_view program.now) frame.entry) }
{
    match frame {
        Some(frame) => frame.declared.names.owner.outputs(),
        None => &[],
    }
}

/// The needs, and behind them what a name, or the beat, of the frame of a call needs of the caller's frame.
pub(crate) fn push_caller<'a>(
    alloc: Global,
    needs: &mut Vec<Need<'a>>,
    frame: Frame<'a, '_>,
    modes: &[ModeNeeds<'a>],
    link: Link<'a>,
    called: Option<Frame<'a, '_>>,
    name: Option<&str>,
) -> Result<(), AllocError>
    requires { modes_needs_view modes.now ≡ modes_need (frame_instance frame) }
    ensures { OnOk result (needs_view needs.new.items ≡ needs_view needs.old.items
        ++ caller_needs (frame_instance frame.entry) (site_view link.entry)
        (instance_there (program_view frame.entry.program.now) called.entry) (option_map (λ x. x.now) name.entry)) }
{
    match name {
        Some(name) => {
            let inputs = inputs_there(frame.program, called);
            let outputs = outputs_there(frame.program, called);
            push_arguments(
                alloc,
                needs,
                frame,
                modes,
                link,
                name,
                inputs,
                link.arguments,
            )?;
            push_shared(alloc, needs, link.manner, name, outputs)
        }
        None => push_site(alloc, needs, frame, modes, link),
    }
}
