//! The plain search: it goes through all clauses for a unit or a false one, and goes back to the last
//! decision whose other side is open. It watches nothing and learns nothing.

ghost use Rattle.std.specs.Prelude.{◌≡◌, true, All, IfOk, IfSome, map, List, Option, Bool};
ghost use Rattle.proof_steps.specs.View.{clause_view};
ghost use Rattle.search_trial.specs.Values.{IsTrueIn, HasTrue};
ghost use Rattle.search_trial.specs.declared.plain.Standing.TheVariants.{Met};

use anyhow::{Result, bail};
use cnf_maker::Cnf;
use proof_steps::{Clause, Literal};
use std::alloc::Global;

/// How a clause stands, or all of them.
#[derive(Clone, Copy)]
enum Standing {
    /// It has a true literal, or each has one.
    Met,
    /// All its literals are false.
    False,
    /// All its literals are false but this one, which has no value.
    Unit(Literal),
    /// Several of its literals have no value, of which this is the first.
    Open(Literal),
}

/// A literal that was made true, and whether its opposite is still to be tried.
#[derive(Clone, Copy)]
struct Entry {
    literal: Literal,
    open: bool,
}

/// The values of the flags, what gave them, and how often a clause was false.
#[derive(Drop)]
struct Plain {
    values: Vec<Option<bool>>,
    trail: Vec<Entry>,
    conflicts: u32,
}

fn opposite(literal: Literal) -> Literal {
    match literal {
        Literal::Flag(number, positive) => Literal::Flag(number, !positive),
        Literal::Atom(number, positive) => Literal::Atom(number, !positive),
    }
}

/// The truth of a literal, if its flag has a value.
fn value(values: &[Option<bool>], literal: Literal) -> Option<bool>
    ensures { IfSome result (λ b. b ≡ true → IsTrueIn values.now literal) }
{
    match literal {
        Literal::Flag(number, positive) => match values.get(number as usize) {
            Some(Some(value)) => Some(*value == positive),
            _ => None,
        },
        Literal::Atom(_, _) => None,
    }
}

/// How a clause stands, by its literals in order.
fn standing_of(values: &[Option<bool>], clause: &[Literal]) -> Standing
    ensures { result ≡ Met → HasTrue values.now clause.now }
{
    let mut first = None;
    let mut several = false;
    for literal in clause {
        match value(values, *literal) {
            Some(true) => return Standing::Met,
            Some(false) => {}
            None => match first {
                None => first = Some(*literal),
                Some(other) => several = several || other != *literal,
            },
        }
    }
    match first {
        None => Standing::False,
        Some(literal) if several => Standing::Open(literal),
        Some(literal) => Standing::Unit(literal),
    }
}

/// The first of the clauses that is false or unit; else the first that is open.
fn standing_of_all(values: &[Option<bool>], clauses: &[Clause]) -> Standing
    ensures { result ≡ Met → All (HasTrue values.now) (map clause_view clauses.now) }
{
    let mut open = None;
    for clause in clauses {
        match standing_of(values, clause.literals.as_slice()) {
            Standing::Met => {}
            Standing::False => return Standing::False,
            Standing::Unit(literal) => return Standing::Unit(literal),
            Standing::Open(literal) => match open {
                None => open = Some(literal),
                Some(_) => {}
            },
        }
    }
    match open {
        None => Standing::Met,
        Some(literal) => Standing::Open(literal),
    }
}

impl Plain {
    /// No flag of the form has a value.
    fn new(alloc: Global, form: &Cnf) -> Result<Plain> {
        let mut values = Vec::new(alloc);
        for _ in &form.shapes {
            values.push(None)?;
        }
        Ok(Plain {
            values,
            trail: Vec::new(alloc),
            conflicts: 0,
        })
    }

    fn set(&mut self, literal: Literal, given: bool) -> Result<()> {
        match literal {
            Literal::Flag(number, positive) if (number as usize) < self.values.len() => {
                self.values[number as usize] = if given { Some(positive) } else { None };
                Ok(())
            }
            _ => bail!("no flag of the form"),
        }
    }

    /// Makes a literal true.
    fn give(&mut self, literal: Literal, open: bool) -> Result<()> {
        self.trail.push(Entry { literal, open })?;
        self.set(literal, true)
    }

    /// Undoes the values up to the last one whose opposite is still to be tried, and tries that; says
    /// whether there is one.
    fn turn(&mut self) -> Result<bool> {
        for _ in 0..self.trail.len() {
            if let Some(entry) = self.trail.pop() {
                self.set(entry.literal, false)?;
                if entry.open {
                    self.give(opposite(entry.literal), false)?;
                    return Ok(true);
                }
            }
        }
        Ok(false)
    }

    /// Whether some values give each of the clauses a true literal; then these are the values.
    fn satisfies(&mut self, clauses: &[Clause]) -> Result<bool>
        ensures { IfOk result (λ b. b ≡ true → All (HasTrue self.new.values.items) (map clause_view clauses.now)) }
    {
        for _ in 0..10_000_000u32 {
            match standing_of_all(&self.values, clauses) {
                Standing::Met => return Ok(true),
                Standing::Unit(literal) => self.give(literal, false)?,
                Standing::Open(literal) => self.give(literal, true)?,
                Standing::False => {
                    self.conflicts = self.conflicts.saturating_add(1);
                    if !self.turn()? {
                        return Ok(false);
                    }
                }
            }
        }
        bail!("ten million steps");
    }
}

/// Whether some values give each clause of the form a true literal, and how many clauses were false
/// on the way.
pub fn plainly(alloc: Global, form: &Cnf) -> Result<(bool, u32)>
    ensures { IfOk result (λ r. r.0 ≡ true → (values : List (Option Bool))
        × All (HasTrue values) (map clause_view form.now.clauses.items)) }
{
    let mut plain = Plain::new(alloc, form)?;
    let met = plain.satisfies(&form.clauses)?;
    Ok((met, plain.conflicts))
}
