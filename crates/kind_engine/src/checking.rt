//! Facts made of what the solver refuted.

ghost use Rattle.std.specs.Prelude.{◌≡◌, ◌≤◌, ℕ, suc, IfOk};
ghost use Rattle.sys_terms.specs.View.{system_view};
ghost use Rattle.cert_rules.specs.View.{cites_view, cited_terms, proofs_view};
ghost use Rattle.proof_steps.specs.View.{proof_view};
ghost use Rattle.cert_rules.specs.Facts.{IsBase, IsStep, held_fact};
ghost use Rattle.cert_rules.specs.Kept.{base_machine, base_property, base_instant, base_cites, step_machine, step_property, step_k, step_cites, held_machine, held_at};
ghost use Rattle.kind_engine.specs.Ready.{IsReady};

use crate::subject::Subject;
use board_core::EngineFault;
use cert_rules::laws::unbroken_rules_are_facts;
use cert_rules::{Base, Cited, Held, RuleFault, Step, check_base, check_step, conclude};
use proof_steps::Proof;
use std::alloc::Global;

/// The base that these proofs give.
pub(crate) fn base_of(
    alloc: Global,
    subject: &Subject,
    cites: &[Cited],
    property: u32,
    instant: u32,
    proofs: &[Proof],
) -> Result<Base, EngineFault>
    requires ready { IsReady (system_view subject.now.system) subject.now.plan }
    requires base { IsBase (system_view subject.now.system) property instant (cited_terms cites.now)
        (proofs_view proofs.now) }
    ensures system { IfOk result (λ b. base_machine b ≡ system_view subject.now.system) }
    ensures property { IfOk result (λ b. base_property b ≡ property) }
    ensures instant { IfOk result (λ b. base_instant b ≡ instant) }
    ensures cites { IfOk result (λ b. base_cites b ≡ cites_view cites.now) }
{
    unbroken_rules_are_facts();
    match check_base(alloc, &subject.system, cites, property, instant, proofs) {
        Ok(base) => Ok(base),
        Err(RuleFault::Memory) => Err(EngineFault::Memory),
        Err(RuleFault::Refused { .. }) => unreachable!(),
    }
}

/// The step that this proof gives.
pub(crate) fn step_of(
    alloc: Global,
    subject: &Subject,
    cites: &[Cited],
    property: u32,
    k: u32,
    proof: &Proof,
) -> Result<Step, EngineFault>
    requires ready { IsReady (system_view subject.now.system) subject.now.plan }
    requires step { IsStep (system_view subject.now.system) property k (cited_terms cites.now) (proof_view proof.now) }
    ensures system { IfOk result (λ s. step_machine s ≡ system_view subject.now.system) }
    ensures property { IfOk result (λ s. step_property s ≡ property) }
    ensures states { IfOk result (λ s. step_k s ≡ k) }
    ensures cites { IfOk result (λ s. step_cites s ≡ cites_view cites.now) }
{
    unbroken_rules_are_facts();
    match check_step(alloc, &subject.system, cites, property, k, proof) {
        Ok(step) => Ok(step),
        Err(RuleFault::Memory) => Err(EngineFault::Memory),
        Err(RuleFault::Refused { .. }) => unreachable!(),
    }
}

/// What a base and a step of one property conclude.
pub(crate) fn concluded(base: &Base, step: &Step) -> Result<Held, EngineFault>
    requires one_system { base_machine base.now ≡ step_machine step.now }
    requires one_property { base_property base.now ≡ step_property step.now }
    requires instants { step_k step.now ≤ suc (base_instant base.now) }
    ensures system { IfOk result (λ h. held_machine h ≡ base_machine base.now) }
    ensures says { IfOk result (λ h. (first second : ℕ)
        → held_at h first second ≡ held_fact (base_property base.now) first second) }
{
    match conclude(base, step) {
        Ok(held) => Ok(held),
        Err(RuleFault::Memory) => Err(EngineFault::Memory),
        Err(RuleFault::Refused { .. }) => unreachable!(),
    }
}
