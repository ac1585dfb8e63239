//! Searches that ended before their depth.

ghost use Rattle.std.specs.Prelude.{◌≡◌, ℕ, true, IfOk, OnOk};
ghost use Rattle.sys_terms.specs.View.{states_view};
ghost use Rattle.cert_rules.specs.View.{proofs_view};
ghost use Rattle.board_core.specs.Entries.{IsTrueAfter, spent};
ghost use Rattle.board_core.specs.View.{cause_view, grounds_view};
ghost use Rattle.board_core.specs.Seats.{Begins, has_cause};
ghost use Rattle.kind_engine.specs.Halts.{paths_view, halted_grounds, open_grounds};
ghost use Rattle.kind_engine.specs.Posts.{Grows, IsPost, NamesFirstWide};

use crate::looking::Open;
use crate::posting::post_spent;
use board_core::{BoardSeat, Cause, EngineFault, Kept};
use proof_steps::Proof;
use std::alloc::{AllocError, Global};
use sys_terms::{Obligation, State};

/// Why the search for a property ended before its depth: the query at which it did, with the places of
/// the lemmas that it cites, what shows that it was to be asked, and the cause.
#[derive(Drop)]
pub(crate) struct Halted {
    pub(crate) what: Obligation,
    pub(crate) places: Vec<u64>,
    pub(crate) proofs: Vec<Proof>,
    pub(crate) paths: Vec<Vec<State>>,
    pub(crate) cause: Cause,
}

/// What is kept where an instant is left open, behind these proofs.
pub(crate) fn left_open(
    alloc: Global,
    places: Vec<u64>,
    proofs: Vec<Proof>,
    left: Open,
) -> Result<Halted, AllocError>
    ensures grounds { IfOk result (λ h. halted_grounds h
        ≡ open_grounds places.items (proofs_view proofs.items) left) }
    ensures cause { IfOk result (λ h. h.cause ≡ left.cause) }
{
    let Open {
        what,
        proofs: mut more,
        cause,
    } = left;
    let mut proofs = proofs;
    proofs.append(&mut more)?;
    Ok(Halted {
        what,
        places,
        proofs,
        paths: Vec::new(alloc),
        cause,
    })
}

fn copied_proofs(alloc: Global, proofs: &[Proof]) -> Result<Vec<Proof>, AllocError>
    ensures { IfOk result (λ v. proofs_view v.items ≡ proofs_view proofs.now) }
{
    let mut copies = Vec::with_capacity(alloc, proofs.len())?;
    for proof in proofs {
        copies.push(proof.copied(alloc)?)?;
    }
    Ok(copies)
}

fn copied_states(alloc: Global, states: &[State]) -> Result<Vec<State>, AllocError>
    ensures { IfOk result (λ v. states_view v.items ≡ states_view states.now) }
{
    let mut copies = Vec::with_capacity(alloc, states.len())?;
    for state in states {
        copies.push(state.copied(alloc)?)?;
    }
    Ok(copies)
}

fn copied_paths(alloc: Global, paths: &[Vec<State>]) -> Result<Vec<Vec<State>>, AllocError>
    ensures { IfOk result (λ v. paths_view v.items ≡ paths_view paths.now) }
{
    let mut copies = Vec::with_capacity(alloc, paths.len())?;
    for path in paths {
        copies.push(copied_states(alloc, path)?)?;
    }
    Ok(copies)
}

/// What is kept behind the cause.
fn kept(alloc: Global, halted: &Halted) -> Result<Kept, AllocError>
    ensures { IfOk result (λ k. grounds_view k ≡ halted_grounds halted.now) }
{
    let what = halted.what.copied(alloc)?;
    let places = Vec::from_slice(alloc, &halted.places)?;
    Ok(Kept {
        query: Some((what, places)),
        proofs: copied_proofs(alloc, &halted.proofs)?,
        paths: copied_paths(alloc, &halted.paths)?,
        terms: Vec::new(alloc),
    })
}

/// Posts the cause as the engine's.
pub(crate) fn post_halted<B: BoardSeat>(
    alloc: Global,
    seat: &mut B,
    engine: u32,
    property: u32,
    halted: &Halted,
) -> Result<(), EngineFault>
    requires true_one { IsTrueAfter (B.machine seat.old) (B.plan seat.old) (B.seen seat.old)
        (spent engine property (cause_view halted.now.cause) (halted_grounds halted.now)) }
    requires first { NamesFirstWide (cause_view halted.now.cause) }
    ensures seat { (B.number seat.new ≡ B.number seat.old) × (B.machine seat.new ≡ B.machine seat.old)
        × (B.plan seat.new ≡ B.plan seat.old) × (B.lent seat.new ≡ B.lent seat.old) }
    ensures front { B.front seat.new ≡ B.front seat.old }
    ensures reads { B.reads seat.new ≡ B.reads seat.old }
    ensures seen { Begins (B.seen seat.old) (B.seen seat.new) }
    ensures posts { OnOk result ((least : ℕ) → Grows (IsPost least) (B.number seat.old) (B.seen seat.old) (B.seen seat.new)) }
    ensures cause { OnOk result (has_cause (B.number seat.old) engine property (B.seen seat.new) ≡ true) }
{
    let kept = kept(alloc, halted)?;
    let cause = halted.cause.copied(alloc)?;
    post_spent(seat, engine, property, cause, kept)
}
