//! What the cases name.

ghost use Rattle.std.specs.Prelude.{IfOk};
ghost use Rattle.sys_terms.specs.View.{system_view};
ghost use Rattle.solver_cases.specs.Ready.{IsReady};

use crate::refutations::Refutation;
use crate::systems::Named;
use anyhow::{Result, bail};
use proof_steps::Proof;
use std::alloc::Global;
use sys_terms::System;

/// Systems and refutations with their names.
#[derive(Drop)]
pub struct Given {
    pub systems: Vec<Named>,
    pub refutations: Vec<Refutation>,
}

fn system<'a>(systems: &'a [Named], name: &str) -> Result<&'a System> {
    for named in systems {
        if named.name.as_str() == name {
            return Ok(&named.system);
        }
    }
    bail!("no system has that name");
}

/// The system of that name, of which the first property can be asked about.
pub fn ready<'a>(given: &'a Given, name: &str) -> Result<&'a System>
    ensures { IfOk result (λ s. IsReady (system_view s.now)) }
{
    let system = system(&given.systems, name)?;
    if system.is_mild() && system.shapes.len() < 1_000 && !system.properties.is_empty() {
        Ok(system)
    } else {
        bail!("the system is not ready")
    }
}

/// The refutation of that name.
pub fn proof<'a>(given: &'a Given, name: &str) -> Result<&'a Proof> {
    for refutation in &given.refutations {
        if refutation.name.as_str() == name {
            return Ok(&refutation.proof);
        }
    }
    bail!("no refutation has that name");
}

/// Copies of the refutations of these names.
pub fn proofs(alloc: Global, given: &Given, names: &str) -> Result<Vec<Proof>> {
    let mut proofs = Vec::new(alloc);
    for name in names.split(", ") {
        if !name.is_empty() {
            proofs.push(proof(given, name)?.copied(alloc)?)?;
        }
    }
    Ok(proofs)
}
