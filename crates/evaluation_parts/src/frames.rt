//! The texts of frames.

ghost use Rattle.std.specs.Prelude.{◌≡◌, ◌<◌, ◌∷◌, ◌++◌, [], IfOk, OnOk, cond, map, pred};
ghost use Rattle.lus_tree.specs.View.{item_view, program_view};
ghost use Rattle.lus_meaning.specs.Property.{assertions};
ghost use Rattle.lus_meaning.specs.Scene.{base, calls_of, component_of};
ghost use Rattle.lus_evaluation.specs.Frame.{asserted_below, asserted_in_calls, call_condition, call_parts, is_evaluated, no_text, text_at, text_over};
ghost use Rattle.lus_evaluation.specs.Part.{wholes};
ghost use Rattle.evaluation_parts.specs.CallNumbers.{numbers_evaluated};
ghost use Rattle.evaluation_parts.specs.Conditions.{calls_view, text_or_none};
ghost use Rattle.evaluation_parts.specs.Framed.{asserted_as, called_texts, asserted_each, order_at, orders_view, text_called, text_within, texts_below};
ghost use Rattle.evaluation_parts.specs.PartViews.{parts_view};
ghost use Rattle.evaluation_parts.specs.Texts.{frame_text_view, frame_texts_view, setting_view};
ghost use Rattle.evaluation_parts.specs.Views.{all_view, frame_declared, frame_instance, links_view, manner_view, site_view};

use crate::bodies::{body_of, push_called, push_wholes};
use crate::call_numbers::{is_import_or, numbers_evaluated};
use crate::contracts::{contract_text, push_all, text_there};
use crate::frame::{Frame, Link, Manner, from_zero};
use crate::mode_needs::modes_need;
use crate::part::{Gives, Part};
use crate::parts::push_whole;
use crate::setting::Setting;
use crate::text::{ContractText, FrameText};
use lus_streams::clock::Clock;
use lus_tree::Item;
use std::alloc::{AllocError, Global};

/// The parts, and behind them those of an item, where it is an assertion.
fn push_assertion<'a>(
    alloc: Global,
    all: &mut Vec<Part<'a>>,
    setting: &Setting<'a, '_, '_>,
    item: &'a Item,
) -> Result<(), AllocError>
    ensures { OnOk result (parts_view all.new.items ≡ parts_view all.old.items
        ++ wholes (setting_view setting.now) base (assertions (item_view item.now ∷ []))) }
{
    if let Item::Assert(value) = item {
        push_whole(alloc, all, setting, Gives::Nothing, Clock::Base, value)?;
    }
    Ok(())
}

/// The parts, and behind them those of the assertions of a body.
fn push_assertions<'a>(
    alloc: Global,
    all: &mut Vec<Part<'a>>,
    setting: &Setting<'a, '_, '_>,
    items: &'a [Item],
) -> Result<(), AllocError>
    ensures { OnOk result (parts_view all.new.items ≡ parts_view all.old.items
        ++ wholes (setting_view setting.now) base (assertions (map item_view items.now))) }
{
    for item in items {
        push_assertion(alloc, all, setting, item)?;
    }
    Ok(())
}

/// The parts, and behind them that of the condition of a call, if it has one.
fn push_call_condition<'a>(
    alloc: Global,
    all: &mut Vec<Part<'a>>,
    setting: &Setting<'a, '_, '_>,
    link: &Link<'a>,
) -> Result<(), AllocError>
    ensures { OnOk result (parts_view all.new.items ≡ parts_view all.old.items
        ++ wholes (setting_view setting.now) (site_view link.now).clock
        (call_condition (site_view link.now) (manner_view link.now.manner))) }
{
    if let Manner::While(condition) = link.manner {
        push_whole(alloc, all, setting, Gives::Nothing, link.clock, condition)?;
    }
    Ok(())
}

/// The parts, and behind them those of a call by itself.
#[tactic(auto, using(crate::proofs::Asserted::joint))]
fn push_call<'a>(
    alloc: Global,
    all: &mut Vec<Part<'a>>,
    setting: &Setting<'a, '_, '_>,
    link: &Link<'a>,
    text: &FrameText<'a>,
) -> Result<(), AllocError>
    ensures { OnOk result (parts_view all.new.items ≡ parts_view all.old.items
        ++ call_parts (setting_view setting.now) (site_view link.now) (frame_text_view text.now)) }
{
    push_call_condition(alloc, all, setting, link)?;
    push_wholes(alloc, all, setting, link.clock, link.arguments)?;
    push_all(alloc, all, &text.body)?;
    Ok(())
}

/// The parts, and behind them those of a call that stands in no text that is evaluated with its frame.
fn push_unless<'a>(
    alloc: Global,
    all: &mut Vec<Part<'a>>,
    setting: &Setting<'a, '_, '_>,
    evaluated: bool,
    link: &Link<'a>,
    text: &FrameText<'a>,
) -> Result<(), AllocError>
    ensures { OnOk result (parts_view all.new.items ≡ parts_view all.old.items
        ++ cond evaluated [] (call_parts (setting_view setting.now) (site_view link.now) (frame_text_view text.now))) }
{
    if !evaluated {
        push_call(alloc, all, setting, link, text)?;
    }
    Ok(())
}

/// The parts, and behind them these assertions of a call's frame, and before them the call, where it stands in no
/// text that is evaluated with its frame.
#[tactic(auto, using(crate::proofs::CallNumbers::evaluated_is))]
fn push_behind_call<'a>(
    alloc: Global,
    all: &mut Vec<Part<'a>>,
    setting: &Setting<'a, '_, '_>,
    numbers: &[u32],
    link: &Link<'a>,
    text: &FrameText<'a>,
    asserted: &[Part<'a>],
) -> Result<(), AllocError>
    requires { numbers.now ≡ numbers_evaluated (component_of (frame_instance setting.now.frame)) }
    ensures { OnOk result (parts_view all.new.items ≡ parts_view all.old.items
        ++ cond (is_evaluated (component_of (frame_instance setting.now.frame)) (site_view link.now)
        (manner_view link.now.manner))
        [] (call_parts (setting_view setting.now) (site_view link.now) (frame_text_view text.now))
        ++ parts_view asserted.now) }
{
    let evaluated = is_import_or(numbers, link.number, link.manner);
    push_unless(alloc, all, setting, evaluated, link, text)?;
    push_all(alloc, all, asserted)?;
    Ok(())
}

/// The parts, and behind them these assertions of a call's frame, and before them the call, where it stands in no
/// text that is evaluated with its frame; nothing where there are none.
#[tactic(auto, using(crate::proofs::Asserted::as_some))]
fn push_asserted_as<'a>(
    alloc: Global,
    all: &mut Vec<Part<'a>>,
    setting: &Setting<'a, '_, '_>,
    numbers: &[u32],
    link: &Link<'a>,
    text: &FrameText<'a>,
    asserted: &[Part<'a>],
) -> Result<(), AllocError>
    requires { numbers.now ≡ numbers_evaluated (component_of (frame_instance setting.now.frame)) }
    ensures { OnOk result (parts_view all.new.items ≡ parts_view all.old.items
        ++ asserted_as (setting_view setting.now) (site_view link.now) (frame_text_view text.now)
        (parts_view asserted.now)) }
{
    match asserted {
        [] => Ok(()),
        [_, ..] => push_behind_call(alloc, all, setting, numbers, link, text, asserted),
    }
}

/// The parts, and behind them the assertions of a call's frame.
#[tactic(auto, using(crate::proofs::Asserted::below_is))]
fn push_asserted<'a>(
    alloc: Global,
    all: &mut Vec<Part<'a>>,
    setting: &Setting<'a, '_, '_>,
    numbers: &[u32],
    link: &Link<'a>,
    text: Option<&FrameText<'a>>,
) -> Result<(), AllocError>
    requires { numbers.now ≡ numbers_evaluated (component_of (frame_instance setting.now.frame)) }
    ensures { OnOk result (parts_view all.new.items ≡ parts_view all.old.items
        ++ asserted_below (setting_view setting.now) (site_view link.now) (text_or_none text.entry)) }
{
    if let Some(text) = text {
        push_asserted_as(alloc, all, setting, numbers, link, text, &text.asserted)?;
    }
    Ok(())
}

/// The parts, and behind them the assertions of the frames of calls.
fn push_asserted_each<'a>(
    alloc: Global,
    all: &mut Vec<Part<'a>>,
    setting: &Setting<'a, '_, '_>,
    numbers: &[u32],
    links: &[Link<'a>],
) -> Result<(), AllocError>
    requires { numbers.now ≡ numbers_evaluated (component_of (frame_instance setting.now.frame)) }
    ensures { OnOk result (parts_view all.new.items ≡ parts_view all.old.items
        ++ asserted_each (setting_view setting.now) (calls_view setting.now) (links_view links.now)) }
{
    for link in links {
        let text = text_there(setting.texts, from_zero(link.number) as usize);
        push_asserted(alloc, all, setting, numbers, link, text)?;
    }
    Ok(())
}

/// The assertions of a frame and of the frames of its calls.
#[tactic(auto, using(crate::proofs::Asserted::each_is))]
fn asserted_of<'a>(
    alloc: Global,
    setting: &Setting<'a, '_, '_>,
) -> Result<Vec<Part<'a>>, AllocError>
    ensures { IfOk result (λ v. parts_view v.items ≡ wholes (setting_view setting.now) base
        (assertions (component_of (frame_instance setting.now.frame)).body)
        ++ asserted_in_calls (setting_view setting.now) (calls_view setting.now)
        (calls_of (frame_instance setting.now.frame))) }
{
    let owner = setting.frame.names().owner;
    let numbers = numbers_evaluated(alloc, owner)?;
    let mut all = Vec::new(alloc);
    push_assertions(alloc, &mut all, setting, owner.body())?;
    push_asserted_each(alloc, &mut all, setting, &numbers, setting.frame.links())?;
    Ok(all)
}

/// The text of the frame of that place.
fn text_of<'a>(
    alloc: Global,
    bare: &Setting<'a, '_, '_>,
    order: &[u32],
) -> Result<FrameText<'a>, AllocError>
    ensures { IfOk result (λ t. frame_text_view t ≡ text_over (calls_view bare.now) order.now bare.now.way.now
        (frame_instance bare.now.frame)) }
{
    let contract = contract_text(alloc, bare, bare.frame.names().owner.contract())?;
    let setting = Setting {
        frame: bare.frame,
        way: bare.way,
        needs: bare.needs,
        texts: bare.texts,
        modes: &contract.modes,
    };
    let body = body_of(alloc, &setting, order)?;
    let asserted = asserted_of(alloc, &setting)?;
    Ok(FrameText {
        body,
        contract,
        asserted,
    })
}

/// The text of a frame at the end of a way of calls, with those of the frames of its calls.
pub(crate) fn text_over<'a>(
    alloc: Global,
    frame: Frame<'a, '_>,
    order: &[u32],
    way: &[u32],
    texts: &[FrameText<'a>],
) -> Result<FrameText<'a>, AllocError>
    ensures { IfOk result (λ t. frame_text_view t ≡ text_over (text_at (frame_texts_view texts.now)) order.now way.now
        (frame_instance frame.entry)) }
{
    let needs = modes_need(alloc, frame)?;
    let bare = Setting {
        frame,
        way,
        needs: &needs,
        texts,
        modes: &[],
    };
    text_of(alloc, &bare, order)
}

/// The order of the equations of the declaration of that place.
pub(crate) fn order_at<'o>(orders: &[&'o [u32]], place: usize) -> &'o [u32]
    ensures { result.now ≡ order_at (orders_view orders.now) place }
{
    if place < orders.len() {
        orders[place]
    } else {
        &[]
    }
}

/// A way of calls with one more.
fn with_call(alloc: Global, way: &[u32], number: u32) -> Result<Vec<u32>, AllocError>
    ensures { IfOk result (λ v. v.items ≡ way.now ++ number ∷ []) }
{
    let mut longer = Vec::with_capacity(alloc, way.len() + 1)?;
    longer.extend_from_slice(way)?;
    longer.push(number)?;
    Ok(longer)
}

/// The text of a frame of the declaration of that place at the end of a way of calls.
///
/// # Errors
///
/// Want of memory.
#[cycle(texts)]
pub(crate) fn frame_text<'a>(
    alloc: Global,
    frame: Frame<'a, '_>,
    orders: &[&[u32]],
    place: usize,
    way: &[u32],
) -> Result<FrameText<'a>, AllocError>
    ensures { IfOk result (λ t. frame_text_view t ≡ text_within (program_view frame.entry.program.now)
        (all_view frame.entry.all.now) (orders_view orders.now) frame.entry.depth way.now place
        (frame_declared frame.entry)) }
{
    let texts = texts_below(alloc, frame, orders, way)?;
    let text = text_over(alloc, frame, order_at(orders, place), way, &texts)?;
    Ok(text)
}

/// The texts of the frames of the calls of a frame.
#[cycle(texts)]
pub(crate) fn texts_below<'a>(
    alloc: Global,
    frame: Frame<'a, '_>,
    orders: &[&[u32]],
    way: &[u32],
) -> Result<Vec<FrameText<'a>>, AllocError>
    ensures { IfOk result (λ v. frame_texts_view v.items ≡ texts_below (program_view frame.entry.program.now)
        (all_view frame.entry.all.now) (orders_view orders.now) frame.entry.depth way.now
        (frame_declared frame.entry)) }
{
    if frame.depth == 0 {
        return Ok(Vec::new(alloc));
    }
    each_text(alloc, frame, orders, way, &frame.declared.links)
}

/// The texts of the frames of these calls of a frame.
#[cycle(texts)]
fn each_text<'a>(
    alloc: Global,
    frame: Frame<'a, '_>,
    orders: &[&[u32]],
    way: &[u32],
    links: &[Link<'a>],
) -> Result<Vec<FrameText<'a>>, AllocError>
    requires { 0 < frame.depth }
    ensures { IfOk result (λ v. frame_texts_view v.items
        ≡ called_texts (text_called (program_view frame.entry.program.now)
        (all_view frame.entry.all.now) (orders_view orders.now) (pred frame.entry.depth)) way.now
        (links_view links.now)) }
{
    let mut all = Vec::new(alloc);
    for link in links {
        let longer = with_call(alloc, way, link.number)?;
        all.push(text_called(alloc, frame, orders, link.place, &longer)?)?;
    }
    Ok(all)
}

/// The text of the frame of a call of the declaration of that place; none where there is none.
#[cycle(texts)]
fn text_called<'a>(
    alloc: Global,
    frame: Frame<'a, '_>,
    orders: &[&[u32]],
    place: usize,
    way: &[u32],
) -> Result<FrameText<'a>, AllocError>
    requires { 0 < frame.depth }
    ensures { IfOk result (λ t. frame_text_view t ≡ text_called (program_view frame.entry.program.now)
        (all_view frame.entry.all.now) (orders_view orders.now) (pred frame.entry.depth) way.now place) }
{
    match frame.declared_at(place) {
        Some(declared) => {
            let below = Frame {
                program: frame.program,
                all: frame.all,
                depth: frame.depth - 1,
                declared,
            };
            frame_text(alloc, below, orders, place, way)
        }
        None => Ok(empty_text(alloc)),
    }
}

/// The text of a frame in which nothing is evaluated.
fn empty_text<'a>(alloc: Global) -> FrameText<'a>
    ensures { frame_text_view result ≡ no_text }
{
    FrameText {
        body: Vec::new(alloc),
        contract: ContractText {
            assumed: Vec::new(alloc),
            guaranteed: Vec::new(alloc),
            modes: Vec::new(alloc),
        },
        asserted: Vec::new(alloc),
    }
}
