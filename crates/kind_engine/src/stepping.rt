//! Induction: one state more.

ghost use Rattle.std.specs.Prelude.{◌≡◌, ◌<◌, ◌≤◌, ℕ, length, suc, IfOk, OnOk};
ghost use Rattle.proof_steps.specs.View.{proof_view};
ghost use Rattle.sys_terms.specs.View.{system_view, states_view, step};
ghost use Rattle.cert_rules.specs.View.{cites_view, cited_terms, proofs_view};
ghost use Rattle.cert_rules.specs.Facts.{AreBases, IsRefuted};
ghost use Rattle.board_core.specs.Seats.{Begins, Decides};
ghost use Rattle.kind_engine.specs.Ready.{IsReady};
ghost use Rattle.kind_engine.specs.Lemmas.{AreLemmas};
ghost use Rattle.kind_engine.specs.Steps.{IsAtStep};
ghost use Rattle.kind_engine.specs.Posts.{Grows, IsPost};
ghost use Rattle.kind_engine.specs.Tasks.{IsTask};

use crate::asking::step_after;
use crate::checking::{base_of, concluded, step_of};
use crate::grounds::{Ground, look_below};
use crate::halted::{Halted, left_open};
use crate::lemmas::{Lemmas, places_of, terms_of};
use crate::posting::{post_base, post_broken, post_held, post_step, post_stuck};
use crate::subject::Subject;
use crate::task::Task;
use board_core::{BoardSeat, Cause, EngineFault};
use cert_rules::laws::facts_are_true;
use proof_steps::Proof;
use smt_solver::Answer;
use std::alloc::Global;
use sys_terms::{Obligation, State};

/// Posts the base to instant k - 1, the step by k states and that they hold the property.
fn hold<B: BoardSeat>(
    alloc: Global,
    subject: &Subject,
    seat: &mut B,
    property: u32,
    k: u32,
    lemmas: &Lemmas,
    proofs: &[Proof],
    proof: &Proof,
) -> Result<(), EngineFault>
    requires ready { IsReady (system_view subject.now.system) subject.now.plan }
    requires book { (B.machine seat.old ≡ system_view subject.now.system) × (B.plan seat.old ≡ subject.now.plan) }
    requires named { property < length (system_view subject.now.system).properties }
    requires lemmas { AreLemmas (system_view subject.now.system) (B.seen seat.old) lemmas.now.front
        (cites_view lemmas.now.cites.items) }
    requires some { 1 ≤ k }
    requires count { length (proofs_view proofs.now) ≡ k }
    requires bases { AreBases (system_view subject.now.system) property (cited_terms lemmas.now.cites.items) 0
        (proofs_view proofs.now) }
    requires step { IsRefuted (system_view subject.now.system) (step property k)
        (cited_terms lemmas.now.cites.items) (proof_view proof.now) }
    ensures seat { (B.number seat.new ≡ B.number seat.old) × (B.machine seat.new ≡ B.machine seat.old)
        × (B.plan seat.new ≡ B.plan seat.old) × (B.lent seat.new ≡ B.lent seat.old) }
    ensures front { B.front seat.new ≡ B.front seat.old }
    ensures reads { B.reads seat.new ≡ B.reads seat.old }
    ensures seen { Begins (B.seen seat.old) (B.seen seat.new) }
    ensures posts { OnOk result ((least : ℕ) → Grows (IsPost least) (B.number seat.old) (B.seen seat.old) (B.seen seat.new)) }
    ensures decided { OnOk result (Decides (B.seen seat.new) property) }
{
    let base = base_of(alloc, subject, &lemmas.cites, property, k - 1, proofs)?;
    let step = step_of(alloc, subject, &lemmas.cites, property, k, proof)?;
    let held = concluded(&base, &step)?;
    let first = post_base(seat, base)?;
    let second = post_step(seat, step)?;
    post_held(seat, property, held, first, second)
}

/// What follows where the step by k states is refuted.
fn founded<B: BoardSeat>(
    alloc: Global,
    subject: &Subject,
    seat: &mut B,
    property: u32,
    k: u32,
    lemmas: &Lemmas,
    proof: Proof,
) -> Result<Task, EngineFault>
    requires ready { IsReady (system_view subject.now.system) subject.now.plan }
    requires engine { subject.now.engine ≡ 1 }
    requires book { (B.machine seat.old ≡ system_view subject.now.system) × (B.plan seat.old ≡ subject.now.plan) }
    requires named { property < length (system_view subject.now.system).properties }
    requires lemmas { AreLemmas (system_view subject.now.system) (B.seen seat.old) lemmas.now.front
        (cites_view lemmas.now.cites.items) }
    requires some { 1 ≤ k }
    requires within { k ≤ subject.now.plan.depth }
    requires step { IsRefuted (system_view subject.now.system) (step property k)
        (cited_terms lemmas.now.cites.items) (proof_view proof) }
    ensures seat { (B.number seat.new ≡ B.number seat.old) × (B.machine seat.new ≡ B.machine seat.old)
        × (B.plan seat.new ≡ B.plan seat.old) × (B.lent seat.new ≡ B.lent seat.old) }
    ensures front { B.front seat.new ≡ B.front seat.old }
    ensures reads { B.reads seat.new ≡ B.reads seat.old }
    ensures seen { Begins (B.seen seat.old) (B.seen seat.new) }
    ensures posts { OnOk result ((least : ℕ) → Grows (IsPost least) (B.number seat.old) (B.seen seat.old) (B.seen seat.new)) }
    ensures task { IfOk result (λ t. IsTask (system_view subject.now.system) subject.now.plan (B.seen seat.new)
        subject.now.engine (suc k) property t) }
{
    facts_are_true();
    let terms = terms_of(alloc, &lemmas.cites)?;
    match look_below(alloc, subject, property, k, &terms)? {
        Ground::Refuted(proofs) => {
            hold(alloc, subject, seat, property, k, lemmas, &proofs, &proof)?;
            Ok(Task::Decided)
        }
        Ground::Broken(path) => {
            post_broken(seat, property, path)?;
            Ok(Task::Decided)
        }
        Ground::Open(_, proofs, left) => {
            let places = places_of(alloc, &lemmas.cites)?;
            let mut proofs = proofs;
            proofs.push(proof)?;
            let halted = left_open(alloc, places, proofs, left)?;
            Ok(Task::Halted(halted))
        }
    }
}

/// Asks the step by k states, of which this run shows that one state less does not suffice.
pub(crate) fn at_next_step<B: BoardSeat>(
    alloc: Global,
    subject: &Subject,
    seat: &mut B,
    property: u32,
    k: u32,
    lemmas: &Lemmas,
    run: Vec<State>,
) -> Result<Task, EngineFault>
    requires ready { IsReady (system_view subject.now.system) subject.now.plan }
    requires engine { subject.now.engine ≡ 1 }
    requires book { (B.machine seat.old ≡ system_view subject.now.system) × (B.plan seat.old ≡ subject.now.plan) }
    requires named { property < length (system_view subject.now.system).properties }
    requires lemmas { AreLemmas (system_view subject.now.system) (B.seen seat.old) lemmas.now.front
        (cites_view lemmas.now.cites.items) }
    requires run { IsAtStep (system_view subject.now.system) subject.now.plan k property (states_view run.items) }
    ensures seat { (B.number seat.new ≡ B.number seat.old) × (B.machine seat.new ≡ B.machine seat.old)
        × (B.plan seat.new ≡ B.plan seat.old) × (B.lent seat.new ≡ B.lent seat.old) }
    ensures front { B.front seat.new ≡ B.front seat.old }
    ensures reads { B.reads seat.new ≡ B.reads seat.old }
    ensures seen { Begins (B.seen seat.old) (B.seen seat.new) }
    ensures posts { OnOk result (Grows (IsPost lemmas.now.front) (B.number seat.old) (B.seen seat.old) (B.seen seat.new)) }
    ensures task { IfOk result (λ t. IsTask (system_view subject.now.system) subject.now.plan (B.seen seat.new)
        subject.now.engine (suc k) property t) }
{
    let terms = terms_of(alloc, &lemmas.cites)?;
    match step_after(alloc, subject, property, k, &terms)? {
        Answer::Unsat(proof) => founded(alloc, subject, seat, property, k, lemmas, proof),
        Answer::Sat(states) => {
            if k < subject.plan.depth {
                return Ok(Task::Run(states));
            }
            post_stuck(seat, property, states, lemmas.front)?;
            Ok(Task::Ended)
        }
        Answer::Stop(stop) => {
            let places = places_of(alloc, &lemmas.cites)?;
            let mut paths = Vec::new(alloc);
            paths.push(run)?;
            Ok(Task::Halted(Halted {
                what: Obligation::Step { property, k },
                places,
                proofs: Vec::new(alloc),
                paths,
                cause: Cause::Stop(stop),
            }))
        }
    }
}
