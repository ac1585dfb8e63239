//! The clauses that an attempt adds, with the steps of its proof.

use crate::fault::SolveFault;
use crate::numbers::meanings::Meaning;
use crate::numbers::steps::{conflict_step, uses};
use crate::work::added_clause;
use proof_steps::Step;
use sat_core::Search;
use std::alloc::{AllocError, Global};

/// A search and the steps whose clauses it has beside the form's, in order.
#[derive(Drop)]
pub struct Record {
    pub search: Search,
    pub steps: Vec<Step>,
}

/// Adds a step with its clause.
pub fn add(alloc: Global, record: &mut Record, step: Step) -> Result<(), SolveFault> {
    record.search.add(alloc, added_clause(&step))?;
    record.steps.push(step)?;
    Ok(())
}

/// Adds the steps.
pub fn add_all(alloc: Global, record: &mut Record, mut steps: Vec<Step>) -> Result<(), SolveFault> {
    while let Some(step) = steps.pop() {
        add(alloc, record, step)?;
    }
    Ok(())
}

/// Copies the step that the search derived last.
pub fn copy_last(alloc: Global, record: &mut Record) -> Result<(), SolveFault> {
    if let Some(step) = record.search.log().last() {
        let step = step.copied(alloc)?;
        record.steps.push(step)?;
    }
    Ok(())
}

// The step that not all bounds stand of which these are multipliers with numbers of atoms; or not all of these, but with
// the first one's opposite.
fn refutation(
    alloc: Global,
    search: &Search,
    meanings: &[Meaning],
    parts: &[(i128, u32)],
    is_opposite: bool,
) -> Result<Step, AllocError> {
    if meanings.len() as u64 >= u32::MAX as u64 {
        return Err(AllocError);
    }
    let mut used = uses(alloc, search, meanings, parts)?;
    if used.len() as u64 >= u32::MAX as u64 {
        return Err(AllocError);
    }
    if let Some(first) = used.get_mut(0) {
        first.sign = first.sign != is_opposite;
    }
    conflict_step(alloc, &used)
}

/// The steps of these sums of bounds, each that not all of its bounds stand.
pub fn refutations(
    alloc: Global,
    search: &Search,
    meanings: &[Meaning],
    sums: &[Vec<(i128, u32)>],
) -> Result<Vec<Step>, AllocError> {
    let mut steps = Vec::new(alloc);
    for parts in sums {
        steps.push(refutation(alloc, search, meanings, parts, false)?)?;
    }
    Ok(steps)
}

/// The steps, and behind them those of these sums, each that its first bound stands where all others do.
pub fn push_decided(
    alloc: Global,
    steps: &mut Vec<Step>,
    search: &Search,
    meanings: &[Meaning],
    sums: &[Vec<(i128, u32)>],
) -> Result<(), AllocError> {
    for parts in sums {
        steps.push(refutation(alloc, search, meanings, parts, true)?)?;
    }
    Ok(())
}

/// Adds the step that not all bounds stand of which these are multipliers with numbers of atoms.
pub fn add_refutation(
    alloc: Global,
    record: &mut Record,
    meanings: &[Meaning],
    parts: &[(i128, u32)],
) -> Result<(), SolveFault> {
    let step = refutation(alloc, &record.search, meanings, parts, false)?;
    add(alloc, record, step)
}
