//! The theory steps of bounds that refute each other.

ghost use Rattle.std.specs.Prelude.{◌≡◌, ◌<◌, ◌^◌, List, map, length, IfOk};
ghost use Rattle.proof_steps.specs.View.{clause_view, line_view, step_view};
ghost use Rattle.line_laws.specs.Lines.{Part};
ghost use Rattle.line_laws.specs.Steps.{conflict_step as conflict_move};
ghost use Rattle.smt_solver.specs.Used.{used_of, used_by, denied_by, literal_line, own_lines_by, line_by, refuting_move};

use crate::numbers::meanings::Meaning;
use proof_steps::{Clause, Line, Literal, Source, Step};
use sat_core::Search;
use smallvec::SmallVec;
use std::alloc::{AllocError, Global};

/// A bound of a refutation: its multiplier, the literal that means it, and what the literal's
/// inequality is divided by.
#[derive(Clone, Copy)]
pub struct Used {
    pub multiplier: i128,
    pub atom: u32,
    pub sign: bool,
    pub divisor: i128,
}

// The literal of the atom that is true, with what it is divided by.
fn use_of(search: &Search, meanings: &[Meaning], multiplier: i128, atom: u32) -> Used
    requires { length meanings.now < 2 ^ 32 }
    ensures { result ≡ used_by search.now.trail meanings.now (multiplier, atom) }
{
    let truth = search.value(Literal::Atom(atom, true));
    let divisor = match meanings.get((atom as usize).wrapping_sub(1)) {
        Some(meaning) => meaning.divisor,
        None => 1,
    };
    Used {
        multiplier,
        atom,
        sign: matches!(truth, Some(true)),
        divisor,
    }
}

/// What a refutation uses, whose parts are multipliers with numbers of atoms.
pub fn uses(
    alloc: Global,
    search: &Search,
    meanings: &[Meaning],
    parts: &[(i128, u32)],
) -> Result<Vec<Used>, AllocError>
    requires { length meanings.now < 2 ^ 32 }
    ensures { IfOk result (λ v. v.items ≡ map (used_by search.now.trail meanings.now) parts.now) }
{
    let mut used = Vec::new(alloc);
    for (multiplier, atom) in parts {
        used.push(use_of(search, meanings, *multiplier, *atom))?;
    }
    Ok(used)
}

/// One of the literals is false.
pub fn clause_of(alloc: Global, used: &[Used]) -> Result<Clause, AllocError>
    ensures { IfOk result (λ c. clause_view c ≡ map denied_by used.now) }
{
    let mut literals = SmallVec::new(alloc);
    for u in used {
        literals.push(Literal::Atom(u.atom, !u.sign))?;
    }
    Ok(Clause { literals })
}

// What the numbered literal's opposite means, divided.
fn own_line(alloc: Global, number: u32, divisor: i128) -> Result<Line, AllocError>
    ensures { IfOk result (λ l. line_view l ≡ literal_line number divisor) }
{
    let parts = vec![in alloc; (1, Source::Literal(number))]?;
    Ok(Line { parts, divisor })
}

/// A line for each literal.
pub fn own_lines(alloc: Global, used: &[Used]) -> Result<Vec<Line>, AllocError>
    requires { length used.now < 2 ^ 32 }
    ensures { IfOk result (λ v. map line_view v.items ≡ own_lines_by 1 used.now) }
{
    let mut lines = Vec::new(alloc);
    for i in 0..used.len() {
        lines.push(own_line(alloc, i as u32 + 1, used[i].divisor)?)?;
    }
    Ok(lines)
}

/// The sum of these lines, each times its multiplier, divided.
pub fn sum_line(alloc: Global, used: &[Used], divisor: i128) -> Result<Line, AllocError>
    requires { length used.now < 2 ^ 32 }
    ensures { IfOk result (λ l. line_view l ≡ line_by used.now divisor) }
{
    let mut parts = Vec::new(alloc);
    for i in 0..used.len() {
        parts.push((used[i].multiplier, Source::Line(i as u32 + 1)))?;
    }
    Ok(Line { parts, divisor })
}

/// The step that one of the literals is false: a line for each of them, and then the sum of these.
pub fn refuting_step(alloc: Global, used: &[Used]) -> Result<Step, AllocError>
    requires { length used.now < 2 ^ 32 }
    ensures { IfOk result (λ s. step_view s ≡ refuting_move used.now) }
{
    let clause = clause_of(alloc, used)?;
    let mut lines = own_lines(alloc, used)?;
    lines.push(sum_line(alloc, used, 1)?)?;
    Ok(Step::Theory { clause, lines })
}

/// The same, of parts that have these literals.
pub fn conflict_step(alloc: Global, used: &[Used]) -> Result<Step, AllocError>
    requires { length used.now < 2 ^ 32 }
    ensures { IfOk result (λ s. (parts : List Part) → map used_of parts ≡ used.now → step_view s ≡ conflict_move parts) }
{
    let step = refuting_step(alloc, used)?;
    Ok(step)
}
