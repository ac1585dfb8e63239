//! Bounded search: one instant further.

ghost use Rattle.std.specs.Prelude.{◌≡◌, ◌<◌, ◌≤◌, ℕ, [], length, suc, IfOk, OnOk};
ghost use Rattle.sys_terms.specs.View.{system_view};
ghost use Rattle.cert_rules.specs.View.{proofs_view};
ghost use Rattle.cert_rules.specs.Facts.{AreBases};
ghost use Rattle.board_core.specs.Seats.{Begins};
ghost use Rattle.kind_engine.specs.Ready.{IsReady};
ghost use Rattle.kind_engine.specs.Posts.{Grows, IsPost};
ghost use Rattle.kind_engine.specs.Tasks.{IsTask};

use crate::checking::base_of;
use crate::halted::left_open;
use crate::looking::{Look, look_at};
use crate::posting::{post_base, post_broken};
use crate::subject::Subject;
use crate::task::Task;
use board_core::{BoardSeat, EngineFault};
use cert_rules::laws::facts_are_true;
use proof_steps::Proof;
use std::alloc::Global;

/// The task after an instant that is refuted too. At the depth the base is posted.
fn refuted<B: BoardSeat>(
    alloc: Global,
    subject: &Subject,
    seat: &mut B,
    property: u32,
    proofs: Vec<Proof>,
) -> Result<Task, EngineFault>
    requires ready { IsReady (system_view subject.now.system) subject.now.plan }
    requires engine { subject.now.engine ≡ 0 }
    requires machine { B.machine seat.old ≡ system_view subject.now.system }
    requires named { property < length (system_view subject.now.system).properties }
    requires within { length proofs.items ≤ suc subject.now.plan.depth }
    requires some { 1 ≤ length proofs.items }
    requires refuted { AreBases (system_view subject.now.system) property [] 0 (proofs_view proofs.items) }
    ensures seat { (B.number seat.new ≡ B.number seat.old) × (B.machine seat.new ≡ B.machine seat.old)
        × (B.plan seat.new ≡ B.plan seat.old) × (B.lent seat.new ≡ B.lent seat.old) }
    ensures front { B.front seat.new ≡ B.front seat.old }
    ensures reads { B.reads seat.new ≡ B.reads seat.old }
    ensures seen { Begins (B.seen seat.old) (B.seen seat.new) }
    ensures posts { OnOk result ((least : ℕ) → Grows (IsPost least) (B.number seat.old) (B.seen seat.old) (B.seen seat.new)) }
    ensures task { IfOk result (λ t. IsTask (system_view subject.now.system) subject.now.plan (B.seen seat.new)
        subject.now.engine (length proofs.items) property t) }
{
    if proofs.len() <= subject.plan.depth as usize {
        return Ok(Task::Refuted(proofs));
    }
    let base = base_of(alloc, subject, &[], property, subject.plan.depth, &proofs)?;
    post_base(seat, base)?;
    Ok(Task::Ended)
}

/// Asks about the instant after those that these proofs refute.
pub(crate) fn at_next_instant<B: BoardSeat>(
    alloc: Global,
    subject: &Subject,
    seat: &mut B,
    property: u32,
    proofs: Vec<Proof>,
) -> Result<Task, EngineFault>
    requires ready { IsReady (system_view subject.now.system) subject.now.plan }
    requires engine { subject.now.engine ≡ 0 }
    requires machine { B.machine seat.old ≡ system_view subject.now.system }
    requires named { property < length (system_view subject.now.system).properties }
    requires within { length proofs.items ≤ subject.now.plan.depth }
    requires refuted { AreBases (system_view subject.now.system) property [] 0 (proofs_view proofs.items) }
    ensures seat { (B.number seat.new ≡ B.number seat.old) × (B.machine seat.new ≡ B.machine seat.old)
        × (B.plan seat.new ≡ B.plan seat.old) × (B.lent seat.new ≡ B.lent seat.old) }
    ensures front { B.front seat.new ≡ B.front seat.old }
    ensures reads { B.reads seat.new ≡ B.reads seat.old }
    ensures seen { Begins (B.seen seat.old) (B.seen seat.new) }
    ensures posts { OnOk result ((least : ℕ) → Grows (IsPost least) (B.number seat.old) (B.seen seat.old) (B.seen seat.new)) }
    ensures task { IfOk result (λ t. IsTask (system_view subject.now.system) subject.now.plan (B.seen seat.new)
        subject.now.engine (suc (length proofs.items)) property t) }
{
    facts_are_true();
    let instant = proofs.len() as u32;
    match look_at(alloc, subject, property, instant, &[])? {
        Look::Refuted(proof) => {
            let mut proofs = proofs;
            proofs.push(proof)?;
            refuted(alloc, subject, seat, property, proofs)
        }
        Look::Broken(path) => {
            post_broken(seat, property, path)?;
            Ok(Task::Decided)
        }
        Look::Open(left) => {
            let halted = left_open(alloc, Vec::new(alloc), proofs, left)?;
            Ok(Task::Halted(halted))
        }
    }
}
