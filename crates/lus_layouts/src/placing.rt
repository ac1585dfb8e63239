//! Where the variables of a declaration's system stand.

ghost use Rattle.std.specs.Prelude.{◌≡◌, ◌+◌, IfOk, map};
ghost use Rattle.lus_tree.specs.View.{program_view};
ghost use Rattle.lus_meaning.specs.ClockFaults.{components};
ghost use Rattle.lus_meaning.specs.Refusals.{IsChecked};
ghost use Rattle.lus_limits.specs.Framed.{frame_view};
ghost use Rattle.lus_limits.specs.Summaries.{cut, sofar_count};
ghost use Rattle.lus_layouts.specs.Layouts.{callee_width, calls_from, laid_out, layout_of, layout_view, own_count};

use lus_limits::{Frame, Link, Way, program_frames};
use lus_tree::Program;
use std::alloc::{AllocError, Global};

/// One past the greatest number of variables. Greater numbers are cut there.
const BOUND: usize = 20_001;

/// Where a call stands in its caller's frame: the caller holds `held` of its outputs, and right behind them the
/// callee's frame begins, `frame` slots behind the caller's own cells.
#[derive(Clone, Copy)]
pub struct CallSlots {
    pub held: usize,
    pub frame: usize,
}

/// Where the slots of a declaration's frame stand: first `own` cells of its own, or `imported` ones where it runs as an
/// import, and behind them its calls and imports, in the order of their numbers. Each number is cut at 20,001.
#[derive(Drop)]
pub struct Layout {
    pub own: usize,
    pub imported: usize,
    pub calls: Vec<CallSlots>,
}

impl Layout {
    /// How many cells the frame has of its own where it runs so.
    pub fn own_count(&self, way: Way) -> usize
        ensures { result ≡ own_count way (layout_view self.now) }
    {
        match way {
            Way::Import => self.imported,
            Way::Plain | Way::Condition => self.own,
        }
    }
}

/// A sum, cut.
fn sum(left: usize, right: usize) -> usize
    ensures { result ≡ cut (left + right) }
{
    let sum = left.saturating_add(right);
    if sum < BOUND { sum } else { BOUND }
}

/// One cell more where a frame keeps whether its assumptions were true.
fn with_sofar(count: usize, way: Way, contract: bool) -> usize
    ensures { result ≡ cut (count + sofar_count way contract) }
{
    match way {
        Way::Import => sum(count, 0),
        Way::Plain | Way::Condition => sum(count, if contract { 1 } else { 0 }),
    }
}

/// Behind how many slots the next call stands, behind one that stands behind so many.
#[tactic(auto, using(crate::proofs::Cuts::cut_next))]
fn behind_call(before: usize, link: &Link) -> usize
    ensures { result ≡ cut (before + (link.now.held + callee_width link.now)) }
{
    let callee = with_sofar(link.callee.frame, link.way, link.callee.contract);
    sum(before, sum(link.held, callee))
}

/// Where calls stand, behind the caller's own cells.
fn placed_calls(alloc: Global, links: &[Link]) -> Result<Vec<CallSlots>, AllocError>
    ensures { IfOk result (λ v. v.items ≡ calls_from 0 links.now) }
{
    let mut calls = Vec::with_capacity(alloc, links.len())?;
    let mut before = 0;
    for link in links {
        calls.push(CallSlots {
            held: link.held,
            frame: sum(before, link.held),
        })?;
        before = behind_call(before, link);
    }
    Ok(calls)
}

/// Where the slots of a frame stand.
fn laid_out(alloc: Global, frame: &Frame) -> Result<Layout, AllocError>
    ensures { IfOk result (λ l. layout_view l ≡ laid_out (frame_view frame.now)) }
{
    Ok(Layout {
        own: with_sofar(frame.own, Way::Plain, frame.contract),
        imported: frame.own,
        calls: placed_calls(alloc, &frame.links)?,
    })
}

/// Where the slots of frames stand.
fn all_laid_out(alloc: Global, frames: &[Frame]) -> Result<Vec<Layout>, AllocError>
    ensures { IfOk result (λ v. map layout_view v.items ≡ map laid_out (map frame_view frames.now)) }
{
    let mut layouts = Vec::with_capacity(alloc, frames.len())?;
    for frame in frames {
        layouts.push(laid_out(alloc, frame)?)?;
    }
    Ok(layouts)
}

/// Where the slots of the frames of a program's declarations stand, in text order, constants left out.
///
/// # Errors
///
/// Want of memory.
pub fn layouts(alloc: Global, program: &Program) -> Result<Vec<Layout>, AllocError>
    requires checked { IsChecked (program_view program.now) }
    ensures { IfOk result (λ v. map layout_view v.items
        ≡ map (layout_of (program_view program.now)) (components (program_view program.now))) }
{
    let frames = program_frames(alloc, program)?;
    all_laid_out(alloc, &frames)
}
