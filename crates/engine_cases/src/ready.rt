//! Plans and systems with which the engines can play.

ghost use Rattle.std.specs.Prelude.{IsTrue, IfSome};
ghost use Rattle.sys_terms.specs.View.{system_view};
ghost use Rattle.board_core.specs.Plans.{IsPlan};
ghost use Rattle.engine_cases.specs.Playable.{IsPlayable};

use crate::rows::Case;
use board_core::Plan;
use sys_terms::System;

/// The largest budget.
const MOST: u64 = 1_000_000_000;

/// The plan of the case, where its numbers are within the ranges.
pub fn plan(case: Case<'_>) -> Option<Plan>
    ensures { IfSome result IsPlan }
{
    let depth = case.depth;
    let budgets = case.budgets;
    if depth == 0 || depth > 1_000 || budgets.splits == 0 || budgets.splits > MOST {
        return None;
    }
    if budgets.conflicts == 0 || budgets.conflicts > MOST {
        return None;
    }
    if budgets.pivots == 0 || budgets.pivots > MOST {
        return None;
    }
    Some(Plan {
        depth,
        frames: 30,
        blocked: 5_000,
        budgets,
    })
}

/// Whether the engines can work on the system.
pub fn is_playable(system: &System) -> bool
    ensures { IsTrue result → IsPlayable (system_view system.now) }
{
    system.is_mild() && system.shapes.len() < 100
}
