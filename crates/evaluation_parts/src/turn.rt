//! All that is evaluated at an instant of the analysed declaration, in the order in which it would come if nothing
//! had to wait.

ghost use Rattle.std.specs.Prelude.{◌≡◌, ◌∷◌, ◌++◌, [], IfOk, OnOk, map};
ghost use Rattle.lus_tree.specs.View.{item_view, program_view};
ghost use Rattle.lus_meaning.specs.Depends.{modes_need};
ghost use Rattle.lus_meaning.specs.Scene.{base};
ghost use Rattle.lus_evaluation.specs.Frame.{text_at};
ghost use Rattle.lus_evaluation.specs.Part.{wholes};
ghost use Rattle.lus_evaluation.specs.Turn.{condition_parts, owed, property_texts};
ghost use Rattle.evaluation_parts.specs.Conditions.{calls_view, text_or_none};
ghost use Rattle.evaluation_parts.specs.Framed.{orders_view, turn_within};
ghost use Rattle.evaluation_parts.specs.Needed.{modes_needs_view};
ghost use Rattle.evaluation_parts.specs.PartViews.{parts_view};
ghost use Rattle.evaluation_parts.specs.Texts.{frame_text_view, frame_texts_view, mode_texts_view, setting_view};
ghost use Rattle.evaluation_parts.specs.Turns.{ensured_each, owed_each, required_each, top};
ghost use Rattle.evaluation_parts.specs.Views.{all_view, frame_declared, frame_instance, links_view, site_view};

use crate::contracts::{push_all, text_there};
use crate::frame::{Frame, Link, Manner, from_zero};
use crate::frames::{order_at, text_over, texts_below};
use crate::mode_need::ModeNeeds;
use crate::mode_needs::modes_need;
use crate::part::{Gives, Part};
use crate::parts::push_whole;
use crate::setting::Setting;
use crate::text::{FrameText, ModeText};
use lus_streams::clock::Clock;
use lus_tree::Item;
use std::alloc::{AllocError, Global};

/// The parts, and behind them those of an item, where it is a property.
fn push_property<'a>(
    alloc: Global,
    all: &mut Vec<Part<'a>>,
    setting: &Setting<'a, '_, '_>,
    item: &'a Item,
) -> Result<(), AllocError>
    ensures { OnOk result (parts_view all.new.items ≡ parts_view all.old.items
        ++ wholes (setting_view setting.now) base (property_texts (item_view item.now ∷ []))) }
{
    if let Item::Property(property) = item {
        push_whole(
            alloc,
            all,
            setting,
            Gives::Nothing,
            Clock::Base,
            &property.value,
        )?;
    }
    Ok(())
}

/// The parts, and behind them those of the properties of a body.
fn push_properties<'a>(
    alloc: Global,
    all: &mut Vec<Part<'a>>,
    setting: &Setting<'a, '_, '_>,
    items: &'a [Item],
) -> Result<(), AllocError>
    ensures { OnOk result (parts_view all.new.items ≡ parts_view all.old.items
        ++ wholes (setting_view setting.now) base (property_texts (map item_view items.now))) }
{
    for item in items {
        push_property(alloc, all, setting, item)?;
    }
    Ok(())
}

/// The parts, and behind them each ensure of modes.
fn push_ensured<'a>(
    alloc: Global,
    all: &mut Vec<Part<'a>>,
    modes: &[ModeText<'a>],
) -> Result<(), AllocError>
    ensures { OnOk result (parts_view all.new.items ≡ parts_view all.old.items
        ++ ensured_each (mode_texts_view modes.now)) }
{
    for mode in modes {
        push_all(alloc, all, &mode.ensured)?;
    }
    Ok(())
}

/// The parts, and behind them what modes require.
fn push_required<'a>(
    alloc: Global,
    all: &mut Vec<Part<'a>>,
    modes: &[ModeText<'a>],
) -> Result<(), AllocError>
    ensures { OnOk result (parts_view all.new.items ≡ parts_view all.old.items
        ++ required_each (mode_texts_view modes.now)) }
{
    for mode in modes {
        push_all(alloc, all, &mode.required)?;
    }
    Ok(())
}

/// The parts, and behind them the assumptions of a frame.
fn push_assumed<'a>(
    alloc: Global,
    all: &mut Vec<Part<'a>>,
    text: Option<&FrameText<'a>>,
) -> Result<(), AllocError>
    ensures { OnOk result (parts_view all.new.items ≡ parts_view all.old.items
        ++ (text_or_none text.entry).contract.assumed) }
{
    match text {
        Some(text) => push_all(alloc, all, &text.contract.assumed),
        None => Ok(()),
    }
}

/// The parts, and behind them what a caller owes to a call, unless it is an import.
fn push_owed<'a>(
    alloc: Global,
    all: &mut Vec<Part<'a>>,
    link: &Link<'a>,
    text: Option<&FrameText<'a>>,
) -> Result<(), AllocError>
    ensures { OnOk result (parts_view all.new.items ≡ parts_view all.old.items
        ++ owed (site_view link.now) (site_view link.now).manner (text_or_none text.entry).contract) }
{
    match link.manner {
        Manner::Import(_) => Ok(()),
        Manner::Plain | Manner::While(_) => push_assumed(alloc, all, text),
    }
}

/// The parts, and behind them what a caller owes to its calls.
fn push_owed_each<'a>(
    alloc: Global,
    all: &mut Vec<Part<'a>>,
    texts: &[FrameText<'a>],
    links: &[Link<'a>],
) -> Result<(), AllocError>
    ensures { OnOk result (parts_view all.new.items ≡ parts_view all.old.items
        ++ owed_each (text_at (frame_texts_view texts.now)) (links_view links.now)) }
{
    for link in links {
        let text = text_there(texts, from_zero(link.number) as usize);
        push_owed(alloc, all, link, text)?;
    }
    Ok(())
}

/// The parts, and behind them those of the conditions of the analysed declaration.
fn push_conditions_of<'a>(
    alloc: Global,
    all: &mut Vec<Part<'a>>,
    setting: &Setting<'a, '_, '_>,
    text: &FrameText<'a>,
) -> Result<(), AllocError>
    requires top { setting_view setting.now ≡ top (frame_instance setting.now.frame) (calls_view setting.now)
        (frame_text_view text.now).contract.modes }
    ensures { OnOk result (parts_view all.new.items ≡ parts_view all.old.items
        ++ condition_parts (calls_view setting.now) (frame_text_view text.now) (frame_instance setting.now.frame)) }
{
    push_all(alloc, all, &text.contract.assumed)?;
    push_all(alloc, all, &text.asserted)?;
    push_properties(alloc, all, setting, setting.frame.names().owner.body())?;
    push_all(alloc, all, &text.contract.guaranteed)?;
    push_ensured(alloc, all, &text.contract.modes)?;
    push_required(alloc, all, &text.contract.modes)?;
    push_owed_each(alloc, all, setting.texts, setting.frame.links())?;
    Ok(())
}

/// The parts, and behind them those of the conditions of the analysed declaration, by what its modes need and the
/// texts of its frame and of the frames of its calls.
fn push_conditions_by<'a>(
    alloc: Global,
    all: &mut Vec<Part<'a>>,
    frame: Frame<'a, '_>,
    needs: &[ModeNeeds<'a>],
    texts: &[FrameText<'a>],
    text: &FrameText<'a>,
) -> Result<(), AllocError>
    requires { modes_needs_view needs.now ≡ modes_need (frame_instance frame) }
    ensures { OnOk result (parts_view all.new.items ≡ parts_view all.old.items
        ++ condition_parts (text_at (frame_texts_view texts.now)) (frame_text_view text.now)
        (frame_instance frame.entry)) }
{
    let setting = Setting {
        frame,
        way: &[],
        needs,
        texts,
        modes: &text.contract.modes,
    };
    push_conditions_of(alloc, all, &setting, text)
}

/// The parts, and behind them those of the conditions of the analysed declaration, by the texts of its frame and of the
/// frames of its calls.
fn push_conditions<'a>(
    alloc: Global,
    all: &mut Vec<Part<'a>>,
    frame: Frame<'a, '_>,
    texts: &[FrameText<'a>],
    text: &FrameText<'a>,
) -> Result<(), AllocError>
    ensures { OnOk result (parts_view all.new.items ≡ parts_view all.old.items
        ++ condition_parts (text_at (frame_texts_view texts.now)) (frame_text_view text.now)
        (frame_instance frame.entry)) }
{
    let needs = modes_need(alloc, frame)?;
    push_conditions_by(alloc, all, frame, &needs, texts, text)
}

/// All that is evaluated at an instant of a declaration, which is that of that place among those of its program, in the
/// order in which it would come if nothing had to wait: the parts by the orders of the equations of the declarations.
///
/// # Errors
///
/// Want of memory.
pub fn in_turn<'a>(
    alloc: Global,
    frame: Frame<'a, '_>,
    orders: &[&[u32]],
    place: usize,
) -> Result<Vec<Part<'a>>, AllocError>
    ensures { IfOk result (λ v. parts_view v.items ≡ turn_within (program_view frame.entry.program.now)
        (all_view frame.entry.all.now) (orders_view orders.now) frame.entry.depth place (frame_declared frame.entry)) }
{
    let texts = texts_below(alloc, frame, orders, &[])?;
    let text = text_over(alloc, frame, order_at(orders, place), &[], &texts)?;
    let mut all = Vec::new(alloc);
    push_all(alloc, &mut all, &text.body)?;
    push_conditions(alloc, &mut all, frame, &texts, &text)?;
    Ok(all)
}
