//! Held properties from a base and a step, and from a lemma.

ghost use Rattle.std.specs.Prelude.{◌≡◌, ◌<◌, ◌^◌, length, []};
ghost use Rattle.proof_steps.specs.View.{proof_view};
ghost use Rattle.sys_terms.specs.View.{system_view};
ghost use Rattle.sys_terms.specs.Fits.{IsMild};
ghost use Rattle.cert_rules.specs.Faults.{held_fault, implied_fault};
ghost use Rattle.cert_rules.specs.Kept.{base_machine, base_property, base_instant, step_machine, step_property, step_k, lemma_machine, lemma_term, held_machine};
ghost use Rattle.cert_rules.specs.Answers.{Holds, both_named, lemma_named};

use crate::base::Base;
use crate::fault::RuleFault;
use crate::held::{Held, Reason};
use crate::lemma::Lemma;
use crate::refuting::{has_property, refused, refute};
use crate::step::Step;
use proof_checker::Rule;
use proof_steps::Proof;
use std::alloc::Global;
use std::snapshot::Snapshot;
use sys_terms::{Obligation, System};

/// The property of a base and a step, where it is one and the base goes to instant k - 1 at least;
/// else the rule `Held` refuses. It takes no memory.
pub fn conclude(base: &Base, step: &Step) -> Result<Held, RuleFault>
    requires one_system { base_machine base.now ≡ step_machine step.now }
    ensures { Holds (base_machine base.now) (both_named (base_property base.now))
        (held_fault (base_property base.now) (base_instant base.now)
        (step_property step.now) (step_k step.now)) result }
{
    if base.property == step.property && step.k as u64 <= base.instant as u64 + 1 {
        Ok(Held {
            property: base.property,
            reason: Reason::Both {
                base: Snapshot::of(base),
                step: Snapshot::of(step),
            },
            of: Snapshot::of(&base.of),
        })
    } else {
        Err(refused(0, Rule::Held))
    }
}

/// The property that a lemma implies, by the refutation that one state has the lemma true and the
/// property false. No lemma is cited.
///
/// It is refused exactly where a rule is broken: the property is one of the system's; the proof
/// refutes its query by the rules of its lines.
pub fn conclude_by(
    alloc: Global,
    system: &System,
    lemma: &Lemma,
    property: u32,
    proof: &Proof,
) -> Result<Held, RuleFault>
    requires mild { IsMild (system_view system.now) }
    requires few { length (system_view system.now).shapes < 2 ^ 32 }
    requires one_system { lemma_machine lemma.now ≡ system_view system.now }
    ensures { Holds (system_view system.now) (lemma_named property (proof_view proof.now))
        (implied_fault (system_view system.now) property (lemma_term lemma.now) (proof_view proof.now)) result }
{
    if !has_property(system, property) {
        return Err(refused(0, Rule::Property));
    }
    let term = lemma.term.copied(alloc)?;
    let what = Obligation::Implied {
        lemma: term,
        property,
    };
    refute(alloc, system, 0, &what, &[], proof)?;
    let proof = proof.copied(alloc)?;
    Ok(Held {
        property,
        reason: Reason::By {
            lemma: Snapshot::of(lemma),
            proof,
        },
        of: Snapshot::of(&lemma.of),
    })
}
