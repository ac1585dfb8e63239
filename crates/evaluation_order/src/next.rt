//! What a place needs in one step.

ghost use Rattle.std.specs.Prelude.{◌≡◌, ◌∷◌, ◌++◌, [], IfOk, OnOk, map, option_map, pred, slice_get};
ghost use Rattle.lus_tree.specs.View.{program_view};
ghost use Rattle.lus_meaning.specs.Cycle.{at_top, caller_needs, deeper, next_places, own_needs, place_of};
ghost use Rattle.evaluation_parts.specs.Needed.{need_view, needs_view};
ghost use Rattle.evaluation_parts.specs.PartViews.{place_view, places_view};
ghost use Rattle.evaluation_parts.specs.Unfolded.{called_instance, calls_at};
ghost use Rattle.evaluation_parts.specs.Views.{all_view, frame_declared, frame_instance, instance_there, link_view, links_view, site_view};
ghost use Rattle.evaluation_order.specs.Numbered.{next_of};
ghost use Rattle.evaluation_order.specs.Steps.{all_under, next_at, places_of, under};

use crate::caller_needs::push_caller;
use crate::own_needs::push_own;
use evaluation_parts::frame::{Frame, Link};
use evaluation_parts::mode_needs::modes_need;
use evaluation_parts::need::Need;
use evaluation_parts::part::Needed;
use lus_tree::Program;
use std::alloc::{AllocError, Global};

/// A way, and behind it another one.
fn joined(alloc: Global, before: &[u32], way: &[u32]) -> Result<Vec<u32>, AllocError>
    ensures { IfOk result (λ v. v.items ≡ before.now ++ way.now) }
{
    let mut all = Vec::from_slice(alloc, before)?;
    all.extend_from_slice(way)?;
    Ok(all)
}

/// The place that is needed in the frame at the end of a way.
fn place_under<'a>(alloc: Global, before: &[u32], need: &Need<'a>) -> Result<Needed<'a>, AllocError>
    ensures { IfOk result (λ p. place_view p ≡ under before.now (place_of (need_view need.now))) }
{
    match need {
        Need::Beat => Ok(Needed {
            way: joined(alloc, before, &[])?,
            name: None,
        }),
        Need::Name(way, name) => Ok(Needed {
            way: joined(alloc, before, way)?,
            name: Some(*name),
        }),
    }
}

/// The places, and behind them those that are needed in the frame at the end of a way.
fn push_places<'a>(
    alloc: Global,
    found: &mut Vec<Needed<'a>>,
    before: &[u32],
    needs: &[Need<'a>],
) -> Result<(), AllocError>
    ensures { OnOk result (places_view found.new.items ≡ places_view found.old.items
        ++ all_under before.now (places_of (needs_view needs.now))) }
{
    for need in needs {
        found.push(place_under(alloc, before, need)?)?;
    }
    Ok(())
}

/// What a name of a frame needs of the frame itself.
fn own_of<'a>(alloc: Global, frame: Frame<'a, '_>, name: &str) -> Result<Vec<Need<'a>>, AllocError>
    ensures { IfOk result (λ v. needs_view v.items ≡ own_needs (frame_instance frame.entry) name.now) }
{
    let modes = modes_need(alloc, frame)?;
    let mut needs = Vec::new(alloc);
    push_own(alloc, &mut needs, frame, &modes, name)?;
    Ok(needs)
}

/// The places, and behind them those that a place of the frame at the end of a way needs of that frame.
fn push_here<'a>(
    alloc: Global,
    found: &mut Vec<Needed<'a>>,
    frame: Frame<'a, '_>,
    before: &[u32],
    name: Option<&str>,
) -> Result<(), AllocError>
    ensures { OnOk result (places_view found.new.items ≡ places_view found.old.items
        ++ all_under before.now (next_places (frame_instance frame.entry) [] (option_map (λ x. x.now) name.entry))) }
{
    match name {
        Some(name) => {
            let needs = own_of(alloc, frame, name)?;
            push_places(alloc, found, before, &needs)
        }
        None => Ok(()),
    }
}

/// What a name, or the beat, of the frame of a call needs of the caller's frame.
fn caller_of<'a>(
    alloc: Global,
    frame: Frame<'a, '_>,
    link: Link<'a>,
    called: Option<Frame<'a, '_>>,
    name: Option<&str>,
) -> Result<Vec<Need<'a>>, AllocError>
    ensures { IfOk result (λ v. needs_view v.items ≡ caller_needs (frame_instance frame.entry) (site_view link.entry)
        (instance_there (program_view frame.entry.program.now) called.entry) (option_map (λ x. x.now) name.entry)) }
{
    let modes = modes_need(alloc, frame)?;
    let mut needs = Vec::new(alloc);
    push_caller(alloc, &mut needs, frame, &modes, link, called, name)?;
    Ok(needs)
}

/// The places, and behind them those of the caller's frame, at the end of a way, that a place of the frame of a call
/// needs; a place further below needs none of them.
fn push_callers<'a>(
    alloc: Global,
    found: &mut Vec<Needed<'a>>,
    frame: Frame<'a, '_>,
    link: Link<'a>,
    called: Option<Frame<'a, '_>>,
    before: &[u32],
    rest: &[u32],
    name: Option<&str>,
) -> Result<(), AllocError>
    ensures { OnOk result (places_view found.new.items ≡ places_view found.old.items
        ++ all_under before.now (places_of (at_top rest.now
        (caller_needs (frame_instance frame.entry) (site_view link.entry)
        (instance_there (program_view frame.entry.program.now) called.entry) (option_map (λ x. x.now) name.entry))))) }
{
    match rest {
        [] => {
            let needs = caller_of(alloc, frame, link, called, name)?;
            push_places(alloc, found, before, &needs)
        }
        [_, ..] => Ok(()),
    }
}

/// The call of a frame with that number, counted from 0.
fn link_at<'a>(frame: Frame<'a, '_>, call: u32) -> Option<Link<'a>>
    ensures { option_map link_view result ≡ slice_get (calls_at frame.entry.depth (frame_declared frame.entry)) call }
{
    if frame.depth == 0 {
        return None;
    }
    frame.declared.links.get(call as usize).copied()
}

/// The frame of a call of the declaration of that place.
fn below<'a, 't>(frame: Frame<'a, 't>, place: usize) -> Option<Frame<'a, 't>>
    ensures { instance_there (program_view frame.entry.program.now) result
        ≡ called_instance (program_view frame.entry.program.now) (all_view frame.entry.all.now)
        (pred frame.entry.depth) place }
{
    let depth = if frame.depth == 0 { 0 } else { frame.depth - 1 };
    match frame.all.get(place) {
        Some(declared) => Some(Frame {
            program: frame.program,
            all: frame.all,
            depth,
            declared,
        }),
        None => None,
    }
}

/// The places, and behind them those that a place needs, where the frame stands at the end of a way.
#[cycle(next)]
fn push_next<'a>(
    alloc: Global,
    found: &mut Vec<Needed<'a>>,
    frame: Frame<'a, '_>,
    before: &[u32],
    way: &[u32],
    name: Option<&str>,
) -> Result<(), AllocError>
    ensures { OnOk result (places_view found.new.items ≡ places_view found.old.items
        ++ all_under before.now (next_places (frame_instance frame.entry) way.now
        (option_map (λ x. x.now) name.entry))) }
{
    match way {
        [] => push_here(alloc, found, frame, before, name),
        [call, rest @ ..] => {
            let link = link_at(frame, *call);
            push_through(alloc, found, frame, link, before, *call, rest, name)
        }
    }
}

/// The same by way of a call, where it is there.
#[cycle(next)]
fn push_through<'a>(
    alloc: Global,
    found: &mut Vec<Needed<'a>>,
    frame: Frame<'a, '_>,
    link: Option<Link<'a>>,
    before: &[u32],
    call: u32,
    rest: &[u32],
    name: Option<&str>,
) -> Result<(), AllocError>
    ensures { OnOk result (places_view found.new.items ≡ places_view found.old.items
        ++ all_under before.now (next_at (frame_instance frame.entry)
        (called_instance (program_view frame.entry.program.now) (all_view frame.entry.all.now) (pred frame.entry.depth))
        call rest.now (option_map (λ x. x.now) name.entry) (option_map link_view link.entry))) }
{
    match link {
        Some(link) => {
            let called = below(frame, link.place);
            push_callers(alloc, found, frame, link, called, before, rest, name)?;
            let before = joined(alloc, before, &[call])?;
            push_below(alloc, found, frame.program, called, &before, rest, name)
        }
        None => Ok(()),
    }
}

/// The same of a frame; none where it is not there.
#[cycle(next)]
fn push_below<'a>(
    alloc: Global,
    found: &mut Vec<Needed<'a>>,
    program: &Program,
    frame: Option<Frame<'a, '_>>,
    before: &[u32],
    way: &[u32],
    name: Option<&str>,
) -> Result<(), AllocError>
    ensures { OnOk result (places_view found.new.items ≡ places_view found.old.items ++ all_under before.now
        (next_places (instance_there (program_view program.now) frame.entry) way.now
        (option_map (λ x. x.now) name.entry))) }
{
    match frame {
        Some(frame) => push_next(alloc, found, frame, before, way, name),
        None => Ok(()),
    }
}

/// What a place needs in one step.
///
/// # Errors
///
/// Want of memory.
pub(crate) fn next_of<'a>(
    alloc: Global,
    frame: Frame<'a, '_>,
    place: &Needed<'_>,
) -> Result<Vec<Needed<'a>>, AllocError>
    ensures { IfOk result (λ v. places_view v.items ≡ next_of (frame_instance frame.entry) (place_view place.now)) }
{
    let mut found = Vec::new(alloc);
    push_next(alloc, &mut found, frame, &[], &place.way, place.name)?;
    Ok(found)
}
