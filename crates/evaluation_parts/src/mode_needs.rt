//! What the modes of a frame need.

ghost use Rattle.std.specs.Prelude.{◌≡◌, ◌<◌, ◌∷◌, ◌++◌, [], IfOk, OnOk, map, pred, slice_index_or};
ghost use Rattle.lus_tree.specs.View.{contract_item_view, named_view, program_view, word_view};
ghost use Rattle.lus_meaning.specs.Depends.{asked_needs, imported_needs, modes_after, modes_need, modes_need_each};
ghost use Rattle.lus_meaning.specs.Scene.{calls_of};
ghost use Rattle.evaluation_parts.specs.Needed.{all_modes_view, imported, mode_needs_view, modes_needs_view, needs_view, requires_need};
ghost use Rattle.evaluation_parts.specs.Unfolded.{called_instance, calls_with};
ghost use Rattle.evaluation_parts.specs.Views.{all_view, frame_instance, instance_there, links_view};

use crate::frame::{Frame, Link, from_zero};
use crate::mode_need::ModeNeeds;
use crate::need::{Need, all_inside};
use crate::needs::push_needs;
use lus_streams::clock::Clock;
use lus_tree::{ContractItem, Named, PlacedName, Program};
use std::alloc::{AllocError, Global};

/// The needs, and behind them those of these expressions on the base clock.
fn push_requires<'a>(
    alloc: Global,
    needs: &mut Vec<Need<'a>>,
    frame: Frame<'a, '_>,
    modes: &[ModeNeeds<'a>],
    asked: &'a [Named],
) -> Result<(), AllocError>
    ensures { OnOk result (needs_view needs.new.items ≡ needs_view needs.old.items
        ++ requires_need (frame_instance frame.entry) (modes_needs_view modes.now) (map named_view asked.now)) }
{
    for one in asked {
        push_needs(alloc, needs, frame, modes, Clock::Base, &one.value)?;
    }
    Ok(())
}

/// What a mode of the contract itself needs, by those before it.
fn own_mode<'a>(
    alloc: Global,
    frame: Frame<'a, '_>,
    modes: &[ModeNeeds<'a>],
    name: &'a PlacedName,
    asked: &'a [Named],
) -> Result<ModeNeeds<'a>, AllocError>
    ensures { IfOk result (λ m. mode_needs_view m ≡ (
      ([], (word_view name.now).text),
      asked_needs (frame_instance frame.entry) (modes_needs_view modes.now) (map named_view asked.now),
    )) }
{
    let mut needs = Vec::new(alloc);
    needs.push(Need::Beat)?;
    push_requires(alloc, &mut needs, frame, modes, asked)?;
    Ok(ModeNeeds {
        contracts: Vec::new(alloc),
        mode: name.text.as_str(),
        needs,
    })
}

/// What a mode of an import needs, seen from the frame that imports it.
fn imported_mode<'a>(
    alloc: Global,
    call: u32,
    contract: &'a PlacedName,
    mode: &ModeNeeds<'a>,
) -> Result<ModeNeeds<'a>, AllocError>
    ensures { IfOk result (λ m. mode_needs_view m
        ≡ imported_needs call (word_view contract.now).text (mode_needs_view mode.now)) }
{
    let mut contracts = Vec::with_capacity(alloc, 1 + mode.contracts.len())?;
    contracts.push(contract.text.as_str())?;
    contracts.extend_from_slice(&mode.contracts)?;
    let needs = all_inside(alloc, &mode.needs, call)?;
    Ok(ModeNeeds {
        contracts,
        mode: mode.mode,
        needs,
    })
}

/// The modes, and behind them those of an import.
fn push_imported<'a>(
    alloc: Global,
    modes: &mut Vec<ModeNeeds<'a>>,
    call: u32,
    contract: &'a PlacedName,
    more: &[ModeNeeds<'a>],
) -> Result<(), AllocError>
    ensures { OnOk result (modes_needs_view modes.new.items ≡ modes_needs_view modes.old.items
        ++ map (imported_needs call (word_view contract.now).text) (modes_needs_view more.now)) }
{
    for mode in more {
        modes.push(imported_mode(alloc, call, contract, mode)?)?;
    }
    Ok(())
}

/// Those of the call of that place.
fn modes_at<'a, 'm>(called: &'m [Vec<ModeNeeds<'a>>], place: usize) -> &'m [ModeNeeds<'a>]
    ensures { modes_needs_view result.now ≡ slice_index_or (all_modes_view called.now) place [] }
{
    if place < called.len() {
        &called[place]
    } else {
        &[]
    }
}

/// The modes, and behind them those of an item, by those before it and those of the calls.
fn push_item<'a>(
    alloc: Global,
    modes: &mut Vec<ModeNeeds<'a>>,
    frame: Frame<'a, '_>,
    called: &[Vec<ModeNeeds<'a>>],
    item: &'a ContractItem,
) -> Result<(), AllocError>
    ensures { OnOk result (modes_needs_view modes.new.items ≡ modes_after (frame_instance frame.entry)
        (imported (all_modes_view called.now)) (modes_needs_view modes.old.items)
        (contract_item_view item.now ∷ [])) }
{
    match item {
        ContractItem::Mode(name, asked, _) => {
            let mode = own_mode(alloc, frame, modes, name, asked)?;
            modes.push(mode)?;
            Ok(())
        }
        ContractItem::Import(number, contract, _, _) => {
            let call = from_zero(*number);
            let more = modes_at(called, call as usize);
            push_imported(alloc, modes, call, contract, more)
        }
        ContractItem::Assume(_)
        | ContractItem::Guarantee(_)
        | ContractItem::Ghost(_, _)
        | ContractItem::Constant(_) => Ok(()),
    }
}

/// What the modes of a contract need, by those of the calls.
#[tactic(auto, using(crate::proofs::Modes::after_one))]
fn after<'a>(
    alloc: Global,
    frame: Frame<'a, '_>,
    called: &[Vec<ModeNeeds<'a>>],
    items: &'a [ContractItem],
) -> Result<Vec<ModeNeeds<'a>>, AllocError>
    ensures { IfOk result (λ v. modes_needs_view v.items ≡ modes_after (frame_instance frame.entry)
        (imported (all_modes_view called.now)) [] (map contract_item_view items.now)) }
{
    let mut modes = Vec::new(alloc);
    for item in items {
        push_item(alloc, &mut modes, frame, called, item)?;
    }
    Ok(modes)
}

/// What each mode of a frame's contract needs of its instant, imported ones too.
///
/// # Errors
///
/// Want of memory.
#[cycle(modes)]
pub fn modes_need<'a>(alloc: Global, frame: Frame<'a, '_>) -> Result<Vec<ModeNeeds<'a>>, AllocError>
    ensures { IfOk result (λ v. modes_needs_view v.items ≡ modes_need (frame_instance frame.entry)) }
{
    let called = called_modes(alloc, frame)?;
    after(alloc, frame, &called, frame.names().owner.contract())
}

/// Those of the calls of a frame.
#[cycle(modes)]
fn called_modes<'a>(
    alloc: Global,
    frame: Frame<'a, '_>,
) -> Result<Vec<Vec<ModeNeeds<'a>>>, AllocError>
    ensures { IfOk result (λ v. all_modes_view v.items ≡ modes_need_each (calls_of (frame_instance frame.entry))) }
{
    if frame.depth == 0 {
        return Ok(Vec::new(alloc));
    }
    each_called(alloc, frame, &frame.declared.links)
}

/// Those of these calls of a frame.
#[cycle(modes)]
fn each_called<'a>(
    alloc: Global,
    frame: Frame<'a, '_>,
    links: &[Link<'a>],
) -> Result<Vec<Vec<ModeNeeds<'a>>>, AllocError>
    requires { 0 < frame.depth }
    ensures { IfOk result (λ v. all_modes_view v.items ≡ modes_need_each (calls_with
        (called_instance (program_view frame.entry.program.now) (all_view frame.entry.all.now) (pred frame.entry.depth))
        (links_view links.now))) }
{
    let mut all = Vec::new(alloc);
    for link in links {
        all.push(modes_there(alloc, frame.below(link.place), frame.program)?)?;
    }
    Ok(all)
}

/// Those of a frame; none where it is not there.
#[cycle(modes)]
fn modes_there<'a>(
    alloc: Global,
    frame: Option<Frame<'a, '_>>,
    program: &Program,
) -> Result<Vec<ModeNeeds<'a>>, AllocError>
    ensures { IfOk result (λ v. modes_needs_view v.items
        ≡ modes_need (instance_there (program_view program.now) frame.entry)) }
{
    match frame {
        Some(frame) => modes_need(alloc, frame),
        None => Ok(Vec::new(alloc)),
    }
}
