//! An engine that posts a lemma.

ghost use Rattle.std.specs.Prelude.{◌≡◌, [], None, Some, true, IfOk, IfSome};
ghost use Rattle.sys_terms.specs.View.{system_view, obligation_view};
ghost use Rattle.sys_terms.specs.Fits.{is_asked, is_light_task};
ghost use Rattle.cert_rules.specs.Kept.{lemma_machine, lemma_cites};
ghost use Rattle.board_core.specs.declared.engine.Progress.TheVariants.{Spent};
ghost use Rattle.board_core.specs.Seats.{Begins};
ghost use Rattle.engine_cases.specs.Playable.{IsPlayable};

use crate::ready::is_playable;
use board_core::{BoardSeat, Engine, EngineFault, Entry, Progress};
use cert_rules::{Lemma, RuleFault, check_lemma};
use proof_steps::{Budgets, Proof};
use smt_solver::{Answer, SolveFault, solve};
use std::alloc::Global;
use sys_terms::{Obligation, System, Term};

/// An engine that posts the term as a lemma of the system, where it is one without others, and ends.
#[derive(Drop)]
pub struct Teacher {
    pub system: System,
    pub lemma: Term,
    pub budgets: Budgets,
}

/// The refutation of the obligation, where there is one.
fn refuted(
    alloc: Global,
    system: &System,
    what: &Obligation,
    budgets: Budgets,
) -> Result<Option<Proof>, EngineFault>
    requires playable { IsPlayable (system_view system.now) }
    requires asked { is_asked (system_view system.now) (obligation_view what.now) ≡ true }
    requires light_task { is_light_task (obligation_view what.now) ≡ true }
{
    match solve(alloc, system, what, &[], budgets) {
        Ok(Answer::Unsat(proof)) => Ok(Some(proof)),
        Ok(Answer::Sat(_)) | Ok(Answer::Stop(_)) => Ok(None),
        Err(SolveFault::Memory) => Err(EngineFault::Memory),
    }
}

/// The term as a lemma, where these refutations show that it is one.
fn checked(
    alloc: Global,
    system: &System,
    term: &Term,
    first: &Proof,
    next: &Proof,
) -> Result<Option<Lemma>, EngineFault>
    requires playable { IsPlayable (system_view system.now) }
    ensures system { IfOk result (λ r. IfSome r (λ l. lemma_machine l ≡ system_view system.now)) }
    ensures alone { IfOk result (λ r. IfSome r (λ l. lemma_cites l ≡ [])) }
{
    match check_lemma(alloc, system, &[], term, first, next) {
        Ok(lemma) => Ok(Some(lemma)),
        Err(RuleFault::Refused { .. }) => Ok(None),
        Err(RuleFault::Memory) => Err(EngineFault::Memory),
    }
}

/// The term as a lemma of the system, where it is one.
fn lemma_of(
    alloc: Global,
    system: &System,
    term: &Term,
    budgets: Budgets,
) -> Result<Option<Lemma>, EngineFault>
    ensures system { IfOk result (λ r. IfSome r (λ l. lemma_machine l ≡ system_view system.now)) }
    ensures alone { IfOk result (λ r. IfSome r (λ l. lemma_cites l ≡ [])) }
{
    let at_first = Obligation::LemmaFirst(term.copied(alloc)?);
    let at_next = Obligation::LemmaNext(term.copied(alloc)?);
    if !is_playable(system) || !term.is_light() || !at_first.is_asked(system) {
        return Ok(None);
    }
    let Some(first) = refuted(alloc, system, &at_first, budgets)? else {
        return Ok(None);
    };
    let Some(next) = refuted(alloc, system, &at_next, budgets)? else {
        return Ok(None);
    };
    checked(alloc, system, term, &first, &next)
}

/// Posts a lemma that cites none.
fn post_lemma<B: BoardSeat>(seat: &mut B, lemma: Lemma) -> Result<(), EngineFault>
    requires system { lemma_machine lemma ≡ B.machine seat.old }
    requires alone { lemma_cites lemma ≡ [] }
    ensures seat { (B.number seat.new ≡ B.number seat.old) × (B.machine seat.new ≡ B.machine seat.old)
        × (B.plan seat.new ≡ B.plan seat.old) × (B.lent seat.new ≡ B.lent seat.old) }
    ensures front { B.front seat.new ≡ B.front seat.old }
    ensures seen { Begins (B.seen seat.old) (B.seen seat.new) }
{
    seat.post(Entry::lemma(lemma))?;
    Ok(())
}

impl Engine for Teacher {
    ghost number = { λ e. None };

    ghost machine = { λ e. Some (system_view e.system) };

    ghost plan = { λ e. None };

    ghost known = { λ e. [] };

    ghost owed = { λ e. [] };

    ghost steps = { λ e. 0 };

    ghost turn_gives = { λ e before p f after. (p ≡ Spent) × (after.front ≡ before.front) };

    fn turn<B: BoardSeat>(&mut self, alloc: Global, seat: &mut B) -> Result<Progress, EngineFault> {
        if let Some(lemma) = lemma_of(alloc, &self.system, &self.lemma, self.budgets)? {
            post_lemma(seat, lemma)?;
        }
        Ok(Progress::Spent)
    }

    fn left(&self) -> u64 {
        0
    }
}
