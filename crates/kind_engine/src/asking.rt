//! What is asked of the solver.
//!
//! Each query is built afresh.

ghost use Rattle.std.specs.Prelude.{◌≡◌, ◌<◌, length, true, All, IfOk};
ghost use Rattle.sys_terms.specs.View.{system_view, terms_view, obligation_view, base, step};
ghost use Rattle.sys_terms.specs.Fits.{is_asked, is_light_task};
ghost use Rattle.smt_solver.specs.View.{answer_view};
ghost use Rattle.smt_solver.specs.Answered.{IsAnswered};
ghost use Rattle.cert_rules.specs.Facts.{IsTerm};
ghost use Rattle.kind_engine.specs.Ready.{IsReady};

use crate::subject::Subject;
use board_core::EngineFault;
use smt_solver::{Answer, SolveFault, solve};
use std::alloc::Global;
use sys_terms::{Obligation, Term};

/// Asks the obligation with these lemmas.
pub(crate) fn asked(
    alloc: Global,
    subject: &Subject,
    what: &Obligation,
    cites: &[Term],
) -> Result<Answer, EngineFault>
    requires ready { IsReady (system_view subject.now.system) subject.now.plan }
    requires asked { is_asked (system_view subject.now.system) (obligation_view what.now) ≡ true }
    requires light_task { is_light_task (obligation_view what.now) ≡ true }
    requires citable { All (IsTerm (system_view subject.now.system)) (terms_view cites.now) }
    ensures { IfOk result (λ a. IsAnswered (system_view subject.now.system) (obligation_view what.now)
        (terms_view cites.now) subject.now.plan.budgets (answer_view a)) }
{
    match solve(alloc, &subject.system, what, cites, subject.plan.budgets) {
        Ok(answer) => Ok(answer),
        Err(SolveFault::Memory) => Err(EngineFault::Memory),
    }
}

/// Is there a path to this instant at whose end the property is false?
pub(crate) fn base_at(
    alloc: Global,
    subject: &Subject,
    property: u32,
    instant: u32,
    cites: &[Term],
) -> Result<Answer, EngineFault>
    requires ready { IsReady (system_view subject.now.system) subject.now.plan }
    requires named { property < length (system_view subject.now.system).properties }
    requires citable { All (IsTerm (system_view subject.now.system)) (terms_view cites.now) }
    ensures { IfOk result (λ a. IsAnswered (system_view subject.now.system) (base property instant)
        (terms_view cites.now) subject.now.plan.budgets (answer_view a)) }
{
    asked(
        alloc,
        subject,
        &Obligation::Base { property, instant },
        cites,
    )
}

/// Are there k + 1 states, one after the other, of which the property is false at the last alone?
pub(crate) fn step_after(
    alloc: Global,
    subject: &Subject,
    property: u32,
    k: u32,
    cites: &[Term],
) -> Result<Answer, EngineFault>
    requires ready { IsReady (system_view subject.now.system) subject.now.plan }
    requires named { property < length (system_view subject.now.system).properties }
    requires citable { All (IsTerm (system_view subject.now.system)) (terms_view cites.now) }
    ensures { IfOk result (λ a. IsAnswered (system_view subject.now.system) (step property k)
        (terms_view cites.now) subject.now.plan.budgets (answer_view a)) }
{
    asked(alloc, subject, &Obligation::Step { property, k }, cites)
}
