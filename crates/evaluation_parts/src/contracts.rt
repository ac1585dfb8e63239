//! The conditions of contracts.

ghost use Rattle.std.specs.Prelude.{◌≡◌, ◌∷◌, ◌++◌, List, [], IfOk, OnOk, map, slice_index_or};
ghost use Rattle.lus_tree.specs.View.{contract_item_view, named_view, word_view};
ghost use Rattle.lus_meaning.specs.Cycle.{Place};
ghost use Rattle.lus_evaluation.specs.Frame.{conditions_of, contract_after, imported_mode, mode_text, no_text};
ghost use Rattle.evaluation_parts.specs.Conditions.{asked_of, calls_view, ensured_of, joint_view, naming, text_or_none, with_import, with_item};
ghost use Rattle.evaluation_parts.specs.Needed.{texts};
ghost use Rattle.evaluation_parts.specs.PartViews.{filled_each, parts_view};
ghost use Rattle.evaluation_parts.specs.Texts.{contract_text_view, frame_texts_view, mode_text_view, mode_texts_view, setting_view};
ghost use Rattle.evaluation_parts.specs.Views.{frame_instance};

use crate::frame::from_zero;
use crate::item::item_at;
use crate::part::{Gives, Part, Whole, push_copies};
use crate::parts::{push_parts, push_whole};
use crate::setting::Setting;
use crate::text::{ContractText, FrameText, ModeText};
use lus_streams::clock::Clock;
use lus_tree::{ContractItem, Named, PlacedName};
use std::alloc::{AllocError, Global};

/// The same place, where these modes may be named.
pub(crate) fn naming<'a, 't, 's>(
    setting: &Setting<'a, 't, 's>,
    modes: &'s [ModeText<'a>],
) -> Setting<'a, 't, 's>
    ensures { setting_view result ≡ naming setting.now modes.now }
{
    Setting {
        frame: setting.frame,
        way: setting.way,
        needs: setting.needs,
        texts: setting.texts,
        modes,
    }
}

/// The parts, and behind them those of conditions.
pub(crate) fn push_conditions<'a>(
    alloc: Global,
    all: &mut Vec<Part<'a>>,
    setting: &Setting<'a, '_, '_>,
    conditions: &'a [Named],
) -> Result<(), AllocError>
    ensures { OnOk result (parts_view all.new.items ≡ parts_view all.old.items
        ++ conditions_of (setting_view setting.now) (map named_view conditions.now)) }
{
    for condition in conditions {
        push_whole(
            alloc,
            all,
            setting,
            Gives::Nothing,
            Clock::Base,
            &condition.value,
        )?;
    }
    Ok(())
}

/// The parts, and behind them those of a condition.
fn push_condition<'a>(
    alloc: Global,
    all: &mut Vec<Part<'a>>,
    setting: &Setting<'a, '_, '_>,
    condition: &'a Named,
) -> Result<(), AllocError>
    ensures { OnOk result (parts_view all.new.items ≡ parts_view all.old.items
        ++ conditions_of (setting_view setting.now) (named_view condition.now ∷ [])) }
{
    push_whole(
        alloc,
        all,
        setting,
        Gives::Nothing,
        Clock::Base,
        &condition.value,
    )?;
    Ok(())
}

/// What a mode requires, as operands of a whole that is not known.
fn asked_by<'a>(
    alloc: Global,
    setting: &Setting<'a, '_, '_>,
    asked: &'a [Named],
) -> Result<Vec<Part<'a>>, AllocError>
    ensures { IfOk result (λ v. (ns : List Place) → filled_each ns v.items
        ≡ asked_of (setting_view setting.now) (map named_view asked.now) ns) }
{
    let mut all = Vec::new(alloc);
    let whole = Whole { needs: None };
    for one in asked {
        push_parts(
            alloc,
            &mut all,
            setting,
            &whole,
            Gives::Nothing,
            Clock::Base,
            &one.value,
        )?;
    }
    Ok(all)
}

/// The parts, and behind them an ensure of a mode as a condition, behind what the mode requires.
fn push_ensure<'a>(
    alloc: Global,
    all: &mut Vec<Part<'a>>,
    setting: &Setting<'a, '_, '_>,
    asked: &'a [Named],
    one: &'a Named,
) -> Result<(), AllocError>
    ensures { OnOk result (parts_view all.new.items ≡ parts_view all.old.items
        ++ (conditions_of (setting_view setting.now) (map named_view asked.now)
        ++ conditions_of (setting_view setting.now) (named_view one.now ∷ []))) }
{
    push_conditions(alloc, all, setting, asked)?;
    push_condition(alloc, all, setting, one)?;
    Ok(())
}

/// Each ensure of a mode as a condition, behind what the mode requires.
fn ensured_by<'a>(
    alloc: Global,
    setting: &Setting<'a, '_, '_>,
    asked: &'a [Named],
    ensured: &'a [Named],
) -> Result<Vec<Part<'a>>, AllocError>
    ensures { IfOk result (λ v. parts_view v.items
        ≡ ensured_of (setting_view setting.now) (map named_view asked.now) (map named_view ensured.now)) }
{
    let mut all = Vec::new(alloc);
    for one in ensured {
        push_ensure(alloc, &mut all, setting, asked, one)?;
    }
    Ok(all)
}

/// A mode of the contract itself.
fn own_mode<'a>(
    alloc: Global,
    setting: &Setting<'a, '_, '_>,
    name: &'a PlacedName,
    asked: &'a [Named],
    ensured: &'a [Named],
) -> Result<ModeText<'a>, AllocError>
    ensures { IfOk result (λ m. mode_text_view m ≡ mode_text (setting_view setting.now) (word_view name.now).text
        (map named_view asked.now) (map named_view ensured.now)) }
{
    let operands = asked_by(alloc, setting, asked)?;
    let mut required = Vec::new(alloc);
    push_conditions(alloc, &mut required, setting, asked)?;
    let ensured = ensured_by(alloc, setting, asked, ensured)?;
    Ok(ModeText {
        contracts: Vec::new(alloc),
        mode: name.text.as_str(),
        asked: operands,
        required,
        ensured,
    })
}

/// Equal parts, those without a whole too.
pub(crate) fn copies<'a>(alloc: Global, parts: &[Part<'a>]) -> Result<Vec<Part<'a>>, AllocError>
    ensures { IfOk result (λ v. (ns : List Place) → filled_each ns v.items ≡ filled_each ns parts.now) }
{
    let mut all = Vec::new(alloc);
    let whole = Whole { needs: None };
    push_copies(alloc, &mut all, &whole, parts)?;
    Ok(all)
}

/// The parts, and behind them equal ones.
pub(crate) fn push_all<'a>(
    alloc: Global,
    all: &mut Vec<Part<'a>>,
    parts: &[Part<'a>],
) -> Result<(), AllocError>
    ensures { OnOk result (parts_view all.new.items ≡ parts_view all.old.items ++ parts_view parts.now) }
{
    let whole = Whole { needs: None };
    push_copies(alloc, all, &whole, parts)?;
    Ok(())
}

/// The contracts on the way to a mode of an import.
fn longer_way<'a>(
    alloc: Global,
    contract: &'a PlacedName,
    contracts: &[&'a str],
) -> Result<Vec<&'a str>, AllocError>
    ensures { IfOk result (λ v. texts v.items ≡ (word_view contract.now).text ∷ texts contracts.now) }
{
    let mut longer = Vec::with_capacity(alloc, 1 + contracts.len())?;
    longer.push(contract.text.as_str())?;
    longer.extend_from_slice(contracts)?;
    Ok(longer)
}

/// A mode of an import.
fn imported_mode<'a>(
    alloc: Global,
    contract: &'a PlacedName,
    mode: &ModeText<'a>,
) -> Result<ModeText<'a>, AllocError>
    ensures { IfOk result (λ m. mode_text_view m
        ≡ imported_mode (word_view contract.now).text (mode_text_view mode.now)) }
{
    let contracts = longer_way(alloc, contract, &mode.contracts)?;
    let asked = copies(alloc, &mode.asked)?;
    let required = copies(alloc, &mode.required)?;
    let ensured = copies(alloc, &mode.ensured)?;
    Ok(ModeText {
        contracts,
        mode: mode.mode,
        asked,
        required,
        ensured,
    })
}

/// The modes, and behind them those of an import.
fn push_modes<'a>(
    alloc: Global,
    modes: &mut Vec<ModeText<'a>>,
    contract: &'a PlacedName,
    more: &[ModeText<'a>],
) -> Result<(), AllocError>
    ensures { OnOk result (mode_texts_view modes.new.items ≡ mode_texts_view modes.old.items
        ++ map (imported_mode (word_view contract.now).text) (mode_texts_view more.now)) }
{
    for mode in more {
        modes.push(imported_mode(alloc, contract, mode)?)?;
    }
    Ok(())
}

/// The conditions, and behind them those of an import with this text.
fn push_import<'a>(
    alloc: Global,
    assumed: &mut Vec<Part<'a>>,
    guaranteed: &mut Vec<Part<'a>>,
    modes: &mut Vec<ModeText<'a>>,
    contract: &'a PlacedName,
    text: Option<&FrameText<'a>>,
) -> Result<(), AllocError>
    ensures { OnOk result (joint_view assumed.new.items guaranteed.new.items modes.new.items
        ≡ with_import (word_view contract.now).text (text_or_none text.entry).contract
        (joint_view assumed.old.items guaranteed.old.items modes.old.items)) }
{
    match text {
        Some(text) => {
            push_all(alloc, assumed, &text.contract.assumed)?;
            push_all(alloc, guaranteed, &text.contract.guaranteed)?;
            push_modes(alloc, modes, contract, &text.contract.modes)?;
            Ok(())
        }
        None => Ok(()),
    }
}

/// The text of the frame of the call of that place.
pub(crate) fn text_there<'a, 's>(
    texts: &'s [FrameText<'a>],
    place: usize,
) -> Option<&'s FrameText<'a>>
    ensures { text_or_none result ≡ slice_index_or (frame_texts_view texts.now) place no_text }
{
    item_at(texts, place)
}

/// The conditions, and behind them those of an item.
fn push_item<'a>(
    alloc: Global,
    assumed: &mut Vec<Part<'a>>,
    guaranteed: &mut Vec<Part<'a>>,
    modes: &mut Vec<ModeText<'a>>,
    setting: &Setting<'a, '_, '_>,
    item: &'a ContractItem,
) -> Result<(), AllocError>
    ensures { OnOk result (joint_view assumed.new.items guaranteed.new.items modes.new.items
        ≡ with_item setting.now (joint_view assumed.old.items guaranteed.old.items modes.old.items)
        (contract_item_view item.now)) }
{
    match item {
        ContractItem::Assume(condition) => {
            push_condition(alloc, assumed, &naming(setting, modes), condition)?;
            Ok(())
        }
        ContractItem::Guarantee(condition) => {
            push_condition(alloc, guaranteed, &naming(setting, modes), condition)?;
            Ok(())
        }
        ContractItem::Mode(name, asked, ensured) => {
            let mode = own_mode(alloc, &naming(setting, modes), name, asked, ensured)?;
            modes.push(mode)?;
            Ok(())
        }
        ContractItem::Import(number, contract, _, _) => {
            let text = text_there(setting.texts, from_zero(*number) as usize);
            push_import(alloc, assumed, guaranteed, modes, contract, text)?;
            Ok(())
        }
        ContractItem::Ghost(_, _) | ContractItem::Constant(_) => Ok(()),
    }
}

/// The conditions of a contract.
#[tactic(auto, using(crate::proofs::ContractItems::after_one))]
pub(crate) fn contract_text<'a>(
    alloc: Global,
    setting: &Setting<'a, '_, '_>,
    items: &'a [ContractItem],
) -> Result<ContractText<'a>, AllocError>
    ensures { IfOk result (λ k. contract_text_view k ≡ contract_after (frame_instance setting.now.frame)
        setting.now.way.now (calls_view setting.now) [] (map contract_item_view items.now)) }
{
    let mut assumed = Vec::new(alloc);
    let mut guaranteed = Vec::new(alloc);
    let mut modes = Vec::new(alloc);
    for item in items {
        push_item(
            alloc,
            &mut assumed,
            &mut guaranteed,
            &mut modes,
            setting,
            item,
        )?;
    }
    Ok(ContractText {
        assumed,
        guaranteed,
        modes,
    })
}
