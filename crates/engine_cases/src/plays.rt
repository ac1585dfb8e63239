//! Plays of the engines, and what their books say.

ghost use Rattle.sys_terms.specs.View.{system_view};
ghost use Rattle.board_core.specs.Plans.{IsPlan};
ghost use Rattle.engine_cases.specs.Playable.{IsPlayable};

use crate::entries::{asked_text, entries_text, states_text};
use crate::ready::{is_playable, plan};
use crate::rows::{Case, Order};
use crate::sleeper::Sleeper;
use crate::systems::{Named, find};
use crate::teacher::Teacher;
use anyhow::{Result, bail};
use board_core::{Book, Cause, Plan, Statement, Verdict, play};
use kind_engine::{BoundedEngine, StepEngine};
use proof_steps::Stop;
use std::alloc::Global;
use sys_terms::{System, Term};

/// The numbers that were split, each with the value below the split.
fn splits_text(alloc: Global, pairs: &[(u32, i128)]) -> Result<String> {
    let mut text = String::new(alloc);
    for (number, below) in pairs {
        text = format!(in alloc; "{text}, of number {number} at {below}")?;
    }
    Ok(text)
}

fn stop_text(alloc: Global, stop: &Stop, name: &str, asked: &str) -> Result<String> {
    Ok(match stop {
        Stop::Conflicts(clauses, _) => {
            let count = clauses.len();
            format!(in alloc; ", {name} stopped {asked} after conflicts: {count}")?
        }
        Stop::Splits(pairs) => {
            let count = pairs.len();
            let splits = splits_text(alloc, pairs)?;
            format!(in alloc; ", {name} stopped {asked} after splits: {count}{splits}")?
        }
        Stop::Pivots(start, _) => {
            let count = start.pivots;
            format!(in alloc; ", {name} stopped {asked} after pivots: {count}")?
        }
        Stop::Past(_, _) => format!(in alloc; ", {name} came past 128 bits {asked}")?,
    })
}

/// Why the engine leaves the first property undecided; nothing where it doesn't.
fn cause_text(alloc: Global, book: &Book, engine: u32, name: &str) -> Result<String> {
    match book.spent(engine, 0) {
        Some(Cause::Depth(depth)) => Ok(format!(in alloc; ", {name} went to depth {depth}")?),
        Some(Cause::Stop(stop)) => {
            let asked = asked_text(alloc, book, engine)?;
            stop_text(alloc, stop, name, &asked)
        }
        Some(
            Cause::Wide {
                number,
                instant,
                value,
                ..
            },
        ) => {
            let wide = format!(in alloc; "number {number} is {value} at instant {instant}")?;
            Ok(format!(in alloc; ", {name} is left with numbers that are too large: {wide}")?)
        }
        Some(_) => Ok(format!(in alloc; ", {name}: ANOTHER CAUSE")?),
        None => Ok(String::new(alloc)),
    }
}

/// By how many states the first step goes.
fn step_text(alloc: Global, book: &Book) -> Result<String> {
    for news in &book.after(alloc, 0)? {
        if let Statement::Step { k, .. } = &news.statement {
            return Ok(format!(in alloc; "valid, k = {k}")?);
        }
    }
    Ok(format!(in alloc; "NO STEP")?)
}

/// How many states the path of the entry at this place has.
fn path_text(alloc: Global, book: &Book, place: u64) -> Result<String> {
    for news in &book.after(alloc, place)? {
        if let Statement::Broken { path, .. } = &news.statement {
            let count = path.len();
            return Ok(format!(in alloc; "falsifiable by {count} states")?);
        }
    }
    Ok(format!(in alloc; "NO PATH")?)
}

/// What the book says of the first property.
fn verdict_text(alloc: Global, book: &Book) -> Result<String> {
    match book.verdict(0) {
        Verdict::Valid(_) => step_text(alloc, book),
        Verdict::Falsifiable(place) => path_text(alloc, book, place),
        Verdict::Unknown => {
            let bounded = cause_text(alloc, book, 0, "bounded search")?;
            let step = cause_text(alloc, book, 1, "induction")?;
            Ok(format!(in alloc; "unknown{bounded}{step}")?)
        }
    }
}

/// Who plays. One alone plays beside an engine that does nothing, and a taught one beside an engine that posts the
/// case's lemma.
#[derive(Clone, Copy)]
pub enum Cast {
    Bounded,
    Step,
    Both,
    /// Both, of whose book is told which states are kept.
    Shown,
    Taught,
}

fn cast_name(cast: Cast) -> &'static str {
    match cast {
        Cast::Bounded => "bounded search",
        Cast::Step => "induction",
        Cast::Both | Cast::Shown => "both",
        Cast::Taught => "taught induction",
    }
}

fn order(alloc: Global, order: Order, depth: u32) -> Result<Vec<u32>> {
    let mut numbers = Vec::new(alloc);
    match order {
        Order::First => numbers.push(0)?,
        Order::Second => numbers.push(1)?,
        Order::Turns => push_turns(&mut numbers, depth)?,
    }
    Ok(numbers)
}

fn push_turns(numbers: &mut Vec<u32>, depth: u32) -> Result<()> {
    for _ in 0..depth {
        numbers.extend_from_slice(&[0, 1])?;
    }
    Ok(())
}

fn bounded_alone(alloc: Global, system: System, plan: Plan, order: &[u32]) -> Result<Book>
    requires system { IsPlayable (system_view system) }
    requires plan { IsPlan plan }
{
    let mut bounded = BoundedEngine::new(alloc, system.copied(alloc)?, plan)?;
    Ok(play(alloc, system, plan, &mut bounded, &mut Sleeper {}, order)?)
}

fn step_alone(alloc: Global, system: System, plan: Plan, order: &[u32]) -> Result<Book>
    requires system { IsPlayable (system_view system) }
    requires plan { IsPlan plan }
{
    let mut step = StepEngine::new(alloc, system.copied(alloc)?, plan)?;
    Ok(play(alloc, system, plan, &mut Sleeper {}, &mut step, order)?)
}

fn both(alloc: Global, system: System, plan: Plan, order: &[u32]) -> Result<Book>
    requires system { IsPlayable (system_view system) }
    requires plan { IsPlan plan }
{
    let mut bounded = BoundedEngine::new(alloc, system.copied(alloc)?, plan)?;
    let mut step = StepEngine::new(alloc, system.copied(alloc)?, plan)?;
    Ok(play(alloc, system, plan, &mut bounded, &mut step, order)?)
}

fn taught(alloc: Global, lemma: Term, system: System, plan: Plan, order: &[u32]) -> Result<Book>
    requires system { IsPlayable (system_view system) }
    requires plan { IsPlan plan }
{
    let mut teacher = Teacher {
        system: system.copied(alloc)?,
        lemma,
        budgets: plan.budgets,
    };
    let mut step = StepEngine::new(alloc, system.copied(alloc)?, plan)?;
    Ok(play(alloc, system, plan, &mut teacher, &mut step, order)?)
}

/// A lemma of the system.
fn lemma_for(alloc: Global, named: &Named) -> Result<Term> {
    match named.lemmas.first() {
        Some(lemma) => Ok(lemma.copied(alloc)?),
        None => bail!("nothing is taught of that system"),
    }
}

fn played(alloc: Global, cast: Cast, named: &Named, plan: Plan, order: &[u32]) -> Result<Book>
    requires system { IsPlayable (system_view named.now.system) }
    requires plan { IsPlan plan }
{
    let system = named.system.copied(alloc)?;
    match cast {
        Cast::Bounded => bounded_alone(alloc, system, plan, order),
        Cast::Step => step_alone(alloc, system, plan, order),
        Cast::Both | Cast::Shown => both(alloc, system, plan, order),
        Cast::Taught => taught(alloc, lemma_for(alloc, named)?, system, plan, order),
    }
}

/// The entries of a taught play, the states that are kept in one that is shown, and nothing of another.
fn told(alloc: Global, cast: Cast, book: &Book) -> Result<String> {
    match cast {
        Cast::Taught => entries_text(alloc, book),
        Cast::Shown => states_text(alloc, book),
        Cast::Bounded | Cast::Step | Cast::Both => Ok(String::new(alloc)),
    }
}

/// What the book of a play says.
fn book_text(alloc: Global, cast: Cast, book: &Book) -> Result<String> {
    let count = book.count();
    let verdict = verdict_text(alloc, book)?;
    let told = told(alloc, cast, book)?;
    Ok(format!(in alloc; "{verdict}; entries: {count}{told}")?)
}

/// What comes of the case.
fn text(alloc: Global, named: &Named, case: Case<'_>) -> Result<String> {
    let Some(plan) = plan(case) else {
        bail!("no plan");
    };
    if !is_playable(&named.system) {
        bail!("not playable");
    }
    let order = order(alloc, case.order, case.depth)?;
    let book = played(alloc, case.cast, named, plan, &order)?;
    book_text(alloc, case.cast, &book)
}

/// The line of the case.
pub fn line(alloc: Global, systems: &[Named], case: Case<'_>) -> Result<String> {
    let cast = cast_name(case.cast);
    let (name, depth) = (case.name, case.depth);
    let text = text(alloc, find(systems, name)?, case)?;
    Ok(format!(in alloc; "{cast}, {name} to depth {depth}: {text}")?)
}
