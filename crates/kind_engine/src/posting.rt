//! Posts at a seat.

ghost use Rattle.std.specs.Prelude.{◌≡◌, ℕ, slice_get, true, IfOk, OnOk};
ghost use Rattle.sys_terms.specs.View.{states_view};
ghost use Rattle.cert_rules.specs.Facts.{AreCited, AreNamed, IsStepOf, held_fact};
ghost use Rattle.cert_rules.specs.Kept.{base_machine, base_property, base_instant, base_cites, step_machine, step_property, step_k, step_cites, held_machine, held_at};
ghost use Rattle.board_core.specs.Entries.{IsBroken, IsBaseTo, IsDepth, IsTrueAfter, facts_in, spent, stuck};
ghost use Rattle.board_core.specs.View.{cause_view, grounds_view};
ghost use Rattle.board_core.specs.Seats.{Begins, Decides, has_cause};
ghost use Rattle.kind_engine.specs.Posts.{Grows, IsPost, NamesFirstWide};

use board_core::{BoardSeat, Cause, EngineFault, Entry, Kept};
use cert_rules::{Base, Held, Step};
use sys_terms::State;

/// Posts a path that breaks the property.
pub(crate) fn post_broken<B: BoardSeat>(
    seat: &mut B,
    property: u32,
    path: Vec<State>,
) -> Result<(), EngineFault>
    requires broken { IsBroken (B.machine seat.old) property (states_view path.items) }
    ensures seat { (B.number seat.new ≡ B.number seat.old) × (B.machine seat.new ≡ B.machine seat.old)
        × (B.plan seat.new ≡ B.plan seat.old) × (B.lent seat.new ≡ B.lent seat.old) }
    ensures front { B.front seat.new ≡ B.front seat.old }
    ensures reads { B.reads seat.new ≡ B.reads seat.old }
    ensures seen { Begins (B.seen seat.old) (B.seen seat.new) }
    ensures posts { OnOk result ((least : ℕ) → Grows (IsPost least) (B.number seat.old) (B.seen seat.old) (B.seen seat.new)) }
    ensures decided { OnOk result (Decides (B.seen seat.new) property) }
{
    seat.post(Entry::broken(property, path))?;
    Ok(())
}

/// Posts a base, and answers its place.
pub(crate) fn post_base<B: BoardSeat>(seat: &mut B, base: Base) -> Result<u64, EngineFault>
    requires system { base_machine base ≡ B.machine seat.old }
    requires cited { AreCited (facts_in (B.seen seat.old)) (base_cites base) }
    ensures seat { (B.number seat.new ≡ B.number seat.old) × (B.machine seat.new ≡ B.machine seat.old)
        × (B.plan seat.new ≡ B.plan seat.old) × (B.lent seat.new ≡ B.lent seat.old) }
    ensures front { B.front seat.new ≡ B.front seat.old }
    ensures reads { B.reads seat.new ≡ B.reads seat.old }
    ensures seen { Begins (B.seen seat.old) (B.seen seat.new) }
    ensures posts { OnOk result ((least : ℕ) → Grows (IsPost least) (B.number seat.old) (B.seen seat.old) (B.seen seat.new)) }
    ensures base { IfOk result (λ place. IsBaseTo (base_property base) (base_instant base)
        (slice_get (facts_in (B.seen seat.new)) place)) }
{
    let place = seat.post(Entry::base(base))?;
    Ok(place)
}

/// Posts why an engine leaves the property undecided.
pub(crate) fn post_spent<B: BoardSeat>(
    seat: &mut B,
    engine: u32,
    property: u32,
    cause: Cause,
    kept: Kept,
) -> Result<(), EngineFault>
    requires true_one { IsTrueAfter (B.machine seat.old) (B.plan seat.old) (B.seen seat.old)
        (spent engine property (cause_view cause) (grounds_view kept)) }
    requires first { NamesFirstWide (cause_view cause) }
    ensures seat { (B.number seat.new ≡ B.number seat.old) × (B.machine seat.new ≡ B.machine seat.old)
        × (B.plan seat.new ≡ B.plan seat.old) × (B.lent seat.new ≡ B.lent seat.old) }
    ensures front { B.front seat.new ≡ B.front seat.old }
    ensures reads { B.reads seat.new ≡ B.reads seat.old }
    ensures seen { Begins (B.seen seat.old) (B.seen seat.new) }
    ensures posts { OnOk result ((least : ℕ) → Grows (IsPost least) (B.number seat.old) (B.seen seat.old) (B.seen seat.new)) }
    ensures cause { OnOk result (has_cause (B.number seat.old) engine property (B.seen seat.new) ≡ true) }
{
    seat.post(Entry::spent(engine, property, cause, kept))?;
    Ok(())
}

/// Posts a step, and answers its place.
pub(crate) fn post_step<B: BoardSeat>(seat: &mut B, step: Step) -> Result<u64, EngineFault>
    requires system { step_machine step ≡ B.machine seat.old }
    requires cited { AreCited (facts_in (B.seen seat.old)) (step_cites step) }
    ensures seat { (B.number seat.new ≡ B.number seat.old) × (B.machine seat.new ≡ B.machine seat.old)
        × (B.plan seat.new ≡ B.plan seat.old) × (B.lent seat.new ≡ B.lent seat.old) }
    ensures front { B.front seat.new ≡ B.front seat.old }
    ensures reads { B.reads seat.new ≡ B.reads seat.old }
    ensures seen { Begins (B.seen seat.old) (B.seen seat.new) }
    ensures posts { OnOk result ((least : ℕ) → Grows (IsPost least) (B.number seat.old) (B.seen seat.old) (B.seen seat.new)) }
    ensures step { IfOk result (λ place. IsStepOf (step_property step) (step_k step)
        (slice_get (facts_in (B.seen seat.new)) place)) }
{
    let place = seat.post(Entry::step(step))?;
    Ok(place)
}

/// Posts that the base and the step at these places hold the property.
pub(crate) fn post_held<B: BoardSeat>(
    seat: &mut B,
    property: u32,
    held: Held,
    first: u64,
    second: u64,
) -> Result<(), EngineFault>
    requires system { held_machine held ≡ B.machine seat.old }
    requires says { held_at held first second ≡ held_fact property first second }
    requires named { AreNamed (facts_in (B.seen seat.old)) property first second }
    ensures seat { (B.number seat.new ≡ B.number seat.old) × (B.machine seat.new ≡ B.machine seat.old)
        × (B.plan seat.new ≡ B.plan seat.old) × (B.lent seat.new ≡ B.lent seat.old) }
    ensures front { B.front seat.new ≡ B.front seat.old }
    ensures reads { B.reads seat.new ≡ B.reads seat.old }
    ensures seen { Begins (B.seen seat.old) (B.seen seat.new) }
    ensures posts { OnOk result ((least : ℕ) → Grows (IsPost least) (B.number seat.old) (B.seen seat.old) (B.seen seat.new)) }
    ensures decided { OnOk result (Decides (B.seen seat.new) property) }
{
    seat.post(Entry::held(held, first, second))?;
    Ok(())
}

/// Posts a path at which induction is stuck at its depth.
pub(crate) fn post_stuck<B: BoardSeat>(
    seat: &mut B,
    property: u32,
    path: Vec<State>,
    front: u64,
) -> Result<(), EngineFault>
    requires stuck { IsTrueAfter (B.machine seat.old) (B.plan seat.old) (B.seen seat.old)
        (stuck property (states_view path.items) front) }
    ensures seat { (B.number seat.new ≡ B.number seat.old) × (B.machine seat.new ≡ B.machine seat.old)
        × (B.plan seat.new ≡ B.plan seat.old) × (B.lent seat.new ≡ B.lent seat.old) }
    ensures front { B.front seat.new ≡ B.front seat.old }
    ensures reads { B.reads seat.new ≡ B.reads seat.old }
    ensures seen { Begins (B.seen seat.old) (B.seen seat.new) }
    ensures posts { OnOk result (Grows (IsPost front) (B.number seat.old) (B.seen seat.old) (B.seen seat.new)) }
    ensures depth { OnOk result (IsDepth (B.seen seat.new) 1 property (B.plan seat.old).depth) }
{
    seat.post(Entry::stuck(property, path, front))?;
    Ok(())
}
