//! What the wholes of a frame need, seen from the analysed frame.

ghost use Rattle.std.specs.Prelude.{◌≡◌, List, IfOk, map, pred};
ghost use Rattle.lus_tree.specs.View.{expr_view};
ghost use Rattle.lus_meaning.specs.Cycle.{Place};
ghost use Rattle.lus_streams.specs.Clocks.{clock_seen};
ghost use Rattle.lus_evaluation.specs.Part.{from_top, needs_of};
ghost use Rattle.evaluation_parts.specs.Needed.{need_view, needs_view};
ghost use Rattle.evaluation_parts.specs.PartViews.{needed_in, place_view, places_view};
ghost use Rattle.evaluation_parts.specs.Texts.{setting_view};

use crate::frame::from_zero;
use crate::need::Need;
use crate::needs::push_needs;
use crate::part::{Needed, Whole};
use crate::setting::Setting;
use lus_streams::clock::Clock;
use lus_tree::Expr;
use std::alloc::{AllocError, Global};
use std::rc::Rc;

/// The calls of a way, counted from 0.
fn from_zero_each(alloc: Global, way: &[u32]) -> Result<Vec<u32>, AllocError>
    ensures { IfOk result (λ v. v.items ≡ map pred way.now) }
{
    let mut places = Vec::with_capacity(alloc, way.len())?;
    for number in way {
        places.push(from_zero(*number))?;
    }
    Ok(places)
}

/// What is needed in the frame at the end of a way of calls, seen from the analysed one.
fn from_top<'a>(alloc: Global, way: &[u32], need: &Need<'a>) -> Result<Needed<'a>, AllocError>
    ensures { IfOk result (λ p. place_view p ≡ from_top way.now (need_view need.now)) }
{
    let mut places = from_zero_each(alloc, way)?;
    match need {
        Need::Beat => Ok(Needed {
            way: places,
            name: None,
        }),
        Need::Name(inner, name) => {
            places.extend_from_slice(inner)?;
            Ok(Needed {
                way: places,
                name: Some(*name),
            })
        }
    }
}

/// The same of each.
fn all_from_top<'a>(
    alloc: Global,
    way: &[u32],
    needs: &[Need<'a>],
) -> Result<Vec<Needed<'a>>, AllocError>
    ensures { IfOk result (λ v. places_view v.items ≡ map (from_top way.now) (needs_view needs.now)) }
{
    let mut all = Vec::with_capacity(alloc, needs.len())?;
    for need in needs {
        all.push(from_top(alloc, way, need)?)?;
    }
    Ok(all)
}

/// What an expression on a clock of the frame needs of its own instant.
fn needed_by<'a>(
    alloc: Global,
    setting: &Setting<'a, '_, '_>,
    clock: Clock<'a>,
    e: &'a Expr,
) -> Result<Vec<Needed<'a>>, AllocError>
    ensures { IfOk result (λ v. places_view v.items
        ≡ needs_of (setting_view setting.now) (clock_seen clock.entry) (expr_view e.now)) }
{
    let mut needs = Vec::new(alloc);
    push_needs(alloc, &mut needs, setting.frame, setting.needs, clock, e)?;
    all_from_top(alloc, setting.way, &needs)
}

/// The whole that is an expression on a clock of the frame.
pub(crate) fn whole_of<'a>(
    alloc: Global,
    setting: &Setting<'a, '_, '_>,
    clock: Clock<'a>,
    e: &'a Expr,
) -> Result<Whole<'a>, AllocError>
    ensures { IfOk result (λ w. (ns : List Place)
        → needed_in ns w ≡ needs_of (setting_view setting.now) (clock_seen clock.entry) (expr_view e.now)) }
{
    let places = needed_by(alloc, setting, clock, e)?;
    Ok(Whole {
        needs: Some(Rc::new(alloc, places)?),
    })
}
