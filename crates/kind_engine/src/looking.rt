//! What the solver says of an instant.

ghost use Rattle.std.specs.Prelude.{◌≡◌, ◌<◌, ◌≤◌, length, true, All, IfOk};
ghost use Rattle.sys_terms.specs.View.{system_view, states_view, terms_view, base};
ghost use Rattle.sys_terms.specs.Answers.{IsAnswer};
ghost use Rattle.cert_rules.specs.Facts.{IsTerm};
ghost use Rattle.board_core.specs.Entries.{IsWideAt};
ghost use Rattle.kind_engine.specs.Ready.{IsReady};
ghost use Rattle.kind_engine.specs.Looks.{IsLook, IsOpen, IsFirstWide};

use crate::asking::{asked, base_at};
use crate::large::{Large, large_value};
use crate::narrow::narrow_base;
use crate::subject::Subject;
use board_core::{Cause, EngineFault};
use proof_steps::Proof;
use smt_solver::Answer;
use std::alloc::Global;
use sys_terms::laws::narrow_queries_ask_for_narrow_states;
use sys_terms::{Obligation, State, Term};

/// Why an instant is left open: the query that is kept for it, what else is kept, and the cause.
#[derive(Drop)]
pub(crate) struct Open {
    pub(crate) what: Obligation,
    pub(crate) proofs: Vec<Proof>,
    pub(crate) cause: Cause,
}

/// What the solver says of an instant.
#[derive(Drop)]
pub(crate) enum Look {
    /// No path to it ends with the property false, by this proof.
    Refuted(Proof),
    /// This one does, and each number of it is below 2^63 in size.
    Broken(Vec<State>),
    /// Only paths with larger numbers do, or a query stopped.
    Open(Open),
}

/// Asks for a path whose numbers are below 2^63 in size, since the one at hand has a larger one.
fn narrowed(
    alloc: Global,
    subject: &Subject,
    property: u32,
    instant: u32,
    cites: &[Term],
    path: Vec<State>,
    large: Large,
) -> Result<Look, EngineFault>
    requires ready { IsReady (system_view subject.now.system) subject.now.plan }
    requires named { property < length (system_view subject.now.system).properties }
    requires within { instant ≤ subject.now.plan.depth }
    requires citable { All (IsTerm (system_view subject.now.system)) (terms_view cites.now) }
    requires answer { IsAnswer (system_view subject.now.system) (base property instant) (terms_view cites.now)
        (states_view path.items) }
    requires large { IsWideAt (states_view path.items) large.number large.instant large.value }
    requires first { IsFirstWide (states_view path.items) large.number large.instant }
    ensures { IfOk result (IsLook (system_view subject.now.system) subject.now.plan property instant
        (terms_view cites.now)) }
{
    narrow_queries_ask_for_narrow_states();
    let what = narrow_base(alloc, &subject.system, property, instant)?;
    match asked(alloc, subject, &what, cites)? {
        Answer::Unsat(proof) => {
            let mut proofs = Vec::new(alloc);
            proofs.push(proof)?;
            Ok(Look::Open(Open {
                what: Obligation::Base { property, instant },
                proofs,
                cause: Cause::Wide {
                    path,
                    number: large.number,
                    instant: large.instant,
                    value: large.value,
                },
            }))
        }
        Answer::Sat(narrow) => Ok(Look::Broken(narrow)),
        Answer::Stop(stop) => Ok(Look::Open(Open {
            what,
            proofs: Vec::new(alloc),
            cause: Cause::Stop(stop),
        })),
    }
}

/// Asks the narrow query where the path has a number of size 2^63 or more.
fn broken(
    alloc: Global,
    subject: &Subject,
    property: u32,
    instant: u32,
    cites: &[Term],
    path: Vec<State>,
) -> Result<Look, EngineFault>
    requires ready { IsReady (system_view subject.now.system) subject.now.plan }
    requires named { property < length (system_view subject.now.system).properties }
    requires within { instant ≤ subject.now.plan.depth }
    requires citable { All (IsTerm (system_view subject.now.system)) (terms_view cites.now) }
    requires answer { IsAnswer (system_view subject.now.system) (base property instant) (terms_view cites.now)
        (states_view path.items) }
    ensures { IfOk result (IsLook (system_view subject.now.system) subject.now.plan property instant
        (terms_view cites.now)) }
{
    match large_value(&path) {
        Some(large) => narrowed(alloc, subject, property, instant, cites, path, large),
        None => Ok(Look::Broken(path)),
    }
}

/// Asks about an instant with these lemmas, and asks its narrow query where that is needed.
pub(crate) fn look_at(
    alloc: Global,
    subject: &Subject,
    property: u32,
    instant: u32,
    cites: &[Term],
) -> Result<Look, EngineFault>
    requires ready { IsReady (system_view subject.now.system) subject.now.plan }
    requires named { property < length (system_view subject.now.system).properties }
    requires within { instant ≤ subject.now.plan.depth }
    requires citable { All (IsTerm (system_view subject.now.system)) (terms_view cites.now) }
    ensures { IfOk result (IsLook (system_view subject.now.system) subject.now.plan property instant
        (terms_view cites.now)) }
{
    match base_at(alloc, subject, property, instant, cites)? {
        Answer::Unsat(proof) => Ok(Look::Refuted(proof)),
        Answer::Sat(path) => broken(alloc, subject, property, instant, cites, path),
        Answer::Stop(stop) => Ok(Look::Open(Open {
            what: Obligation::Base { property, instant },
            proofs: Vec::new(alloc),
            cause: Cause::Stop(stop),
        })),
    }
}
