//! The instants below a step that is refuted.

ghost use Rattle.std.specs.Prelude.{◌≡◌, ◌<◌, ◌≤◌, length, All, IfOk};
ghost use Rattle.sys_terms.specs.View.{system_view, terms_view};
ghost use Rattle.cert_rules.specs.Facts.{IsTerm};
ghost use Rattle.kind_engine.specs.Ready.{IsReady};
ghost use Rattle.kind_engine.specs.Steps.{IsGround};

use crate::looking::{Look, Open, look_at};
use crate::subject::Subject;
use board_core::EngineFault;
use cert_rules::laws::facts_are_true;
use proof_steps::Proof;
use std::alloc::Global;
use sys_terms::{State, Term};

/// What the instants below a k say.
#[derive(Drop)]
pub(crate) enum Ground {
    /// All are refuted, by a proof each.
    Refuted(Vec<Proof>),
    /// This path breaks the property.
    Broken(Vec<State>),
    /// This instant is left open; those before it are refuted.
    Open(u32, Vec<Proof>, Open),
}

/// Asks about the instants below k, from 0 on, with these lemmas.
pub(crate) fn look_below(
    alloc: Global,
    subject: &Subject,
    property: u32,
    k: u32,
    terms: &[Term],
) -> Result<Ground, EngineFault>
    requires ready { IsReady (system_view subject.now.system) subject.now.plan }
    requires named { property < length (system_view subject.now.system).properties }
    requires within { k ≤ subject.now.plan.depth }
    requires citable { All (IsTerm (system_view subject.now.system)) (terms_view terms.now) }
    ensures { IfOk result (IsGround (system_view subject.now.system) subject.now.plan property k
        (terms_view terms.now)) }
{
    facts_are_true();
    let mut proofs = Vec::new(alloc);
    for instant in 0..k {
        match look_at(alloc, subject, property, instant, terms)? {
            Look::Refuted(proof) => proofs.push(proof)?,
            Look::Broken(path) => return Ok(Ground::Broken(path)),
            Look::Open(left) => return Ok(Ground::Open(instant, proofs, left)),
        }
    }
    Ok(Ground::Refuted(proofs))
}
