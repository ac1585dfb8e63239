//! The play of the engines on a node's system.

ghost use Rattle.std.specs.Prelude.{◌≡◌, [], IfOk};
ghost use Rattle.sys_terms.specs.View.{system_view};
ghost use Rattle.board_core.specs.Books.{machine_of};
ghost use Rattle.kind_engine.specs.Ready.{IsReady};
ghost use Rattle.kind_engine.specs.Engines.{worker_machine, worker_plan, worker_known};
ghost use Rattle.kind_main.specs.Options.{options_plan};
ghost use Rattle.kind_main.specs.Played.{HasSpent, IsPlayed, IsPlayedBy};

use crate::idle::Idle;
use crate::options::{Engines, Options};
use board_core::{Book, Plan, play};
use kind_engine::{BoundedEngine, StepEngine};
use std::alloc::{AllocError, Global};
use sys_terms::System;

/// The turns 0, 1, 0, 1, .. of two engines with this depth.
fn turns(alloc: Global, depth: u32) -> Result<Vec<u32>, AllocError> {
    let mut order = Vec::new(alloc);
    for _ in 0..depth {
        order.extend_from_slice(&[0, 1])?;
    }
    order.extend_from_slice(&[0, 1, 0, 1])?;
    Ok(order)
}

fn new_bounded(alloc: Global, system: &System, plan: Plan) -> Result<BoundedEngine, AllocError>
    requires { IsReady (system_view system.now) plan }
    ensures { IfOk result (λ e. (worker_machine e ≡ system_view system.now) × (worker_plan e ≡ plan)
        × (worker_known e ≡ [])) }
{
    let system = system.copied(alloc)?;
    Ok(BoundedEngine::new(alloc, system, plan)?)
}

fn new_step(alloc: Global, system: &System, plan: Plan) -> Result<StepEngine, AllocError>
    requires { IsReady (system_view system.now) plan }
    ensures { IfOk result (λ e. (worker_machine e ≡ system_view system.now) × (worker_plan e ≡ plan)
        × (worker_known e ≡ [])) }
{
    let system = system.copied(alloc)?;
    Ok(StepEngine::new(alloc, system, plan)?)
}

/// Bounded search alone.
fn bounded_alone(alloc: Global, system: System, plan: Plan) -> Result<Book, AllocError>
    requires { IsReady (system_view system) plan }
    ensures { IfOk result (λ b. IsPlayedBy (system_view system) plan b × HasSpent b 0) }
{
    let mut bounded = new_bounded(alloc, &system, plan)?;
    let mut idle = Idle {};
    Ok(play(alloc, system, plan, &mut bounded, &mut idle, &[])?)
}

/// Induction alone.
fn step_alone(alloc: Global, system: System, plan: Plan) -> Result<Book, AllocError>
    requires { IsReady (system_view system) plan }
    ensures { IfOk result (λ b. IsPlayedBy (system_view system) plan b × HasSpent b 1) }
{
    let mut idle = Idle {};
    let mut step = new_step(alloc, &system, plan)?;
    Ok(play(alloc, system, plan, &mut idle, &mut step, &[])?)
}

/// Both, in turns.
fn both(alloc: Global, system: System, plan: Plan) -> Result<Book, AllocError>
    requires { IsReady (system_view system) plan }
    ensures { IfOk result (λ b. IsPlayedBy (system_view system) plan b × HasSpent b 0 × HasSpent b 1) }
{
    let mut bounded = new_bounded(alloc, &system, plan)?;
    let mut step = new_step(alloc, &system, plan)?;
    let order = turns(alloc, plan.depth)?;
    Ok(play(alloc, system, plan, &mut bounded, &mut step, &order)?)
}

/// The book that the engines of these options leave.
pub fn played(alloc: Global, system: System, options: Options) -> Result<Book, AllocError>
    requires { IsReady (system_view system) (options_plan options) }
    ensures system { IfOk result (λ b. machine_of b ≡ system_view system) }
    ensures played { IfOk result (IsPlayed options) }
{
    let plan = options.plan();
    match options.engines {
        Engines::Bounded => bounded_alone(alloc, system, plan),
        Engines::Step => step_alone(alloc, system, plan),
        Engines::BoundedStep | Engines::StepBounded => both(alloc, system, plan),
    }
}
