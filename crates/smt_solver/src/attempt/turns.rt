//! The turns of an attempt, up to what it gives or the end of its budgets.

ghost use Rattle.std.specs.Prelude.{◌≡◌, true, OnOk, IfOk, IfNone, IfSome};
ghost use Rattle.cnf_maker.specs.View.{AreFew, form_view};

use crate::attempt::bounding::{assert_picked, push_own};
use crate::attempt::columns::{Columns, columns_of};
use crate::attempt::cutting::{add_cut, column_among, small_cut};
use crate::attempt::definitions::{Definitions, definitions_of};
use crate::attempt::equations::looking::{Refutations, Solution, solution_of};
use crate::attempt::equations::valuing::prefer;
use crate::attempt::outcome::Attempt;
use crate::attempt::picking::picked;
use crate::attempt::plain::is_plain;
use crate::attempt::record::{
    Record, add_all, add_refutation, copy_last, push_decided, refutations,
};
use crate::attempt::splitting::add_split;
use crate::fault::SolveFault;
use crate::numbers::meanings::Meaning;
use crate::numbers::order::orders;
use crate::numbers::rows::tableau;
use cnf_maker::Cnf;
use int_cuts::{Cut, split_of};
use int_simplex::{Checkup, Tableau};
use kind_num::Shape;
use proof_steps::{Atom, Budgets, Literal, Proof};
use sat_core::{Found, Search};
use std::alloc::{AllocError, Global};
use sys_terms::Entry;

// How many cuts come before a split or a conflict at most.
const CUTS: u64 = 8;

/// What an attempt is about: the form, which clauses define what, and how many variables are the query's own.
#[derive(Clone, Copy)]
struct Subject<'a> {
    cnf: &'a Cnf,
    definitions: &'a Definitions,
    shapes: &'a [Shape],
    truth: u32,
}

/// An attempt at work.
#[derive(Drop)]
struct Work {
    record: Record,
    tableau: Tableau,
    sums: Cnf,
    meanings: Vec<Meaning>,
    atoms: Vec<Atom>,
    conflicts: u64,
    splits: u64,
    cuts: u64,
}

/// How an attempt ends.
#[derive(Drop)]
pub enum Ending {
    GivesUp,
    Refutes,
    Finds(Vec<Entry>),
}

// Takes one from what is left, if there is any.
fn spend(left: &mut u64) -> bool {
    if *left == 0 {
        return false;
    }
    *left -= 1;
    true
}

// Takes so many from what is left, or all of it, and gives how many.
fn spend_some(left: &mut u64, count: usize) -> usize {
    let some = u64::min(*left, count as u64);
    *left -= some;
    some as usize
}

// The whole parts of the values of the first columns.
fn values_of(alloc: Global, tableau: &Tableau, count: usize) -> Result<Vec<i128>, AllocError>
    requires usable { tableau.now.usable ≡ true }
{
    let mut values = Vec::new(alloc);
    for number in 0..tableau.columns() {
        if number as usize >= count {
            break;
        }
        let (top, _) = tableau.value(number);
        values.push(top)?;
    }
    Ok(values)
}

fn entry(search: &Search, values: &[i128], number: u32, shape: Shape) -> Entry {
    match shape {
        Shape::Flag => {
            let truth = search.value(Literal::Flag(number, true));
            Entry::Flag(truth == Some(true))
        }
        Shape::Number => match values.get(number as usize) {
            Some(value) => Entry::Number(*value),
            None => Entry::Number(0),
        },
    }
}

// The values of the query's variables, where those of its numbers are these.
fn entries(
    alloc: Global,
    search: &Search,
    values: &[i128],
    shapes: &[Shape],
) -> Result<Vec<Entry>, AllocError> {
    let mut entries = Vec::new(alloc);
    for number in 0..u32::MAX {
        match shapes.get(number as usize) {
            Some(shape) => entries.push(entry(search, values, number, *shape))?,
            None => break,
        }
    }
    Ok(entries)
}

// The column of the cut's sum. A new sum comes to the tableau, whose values then begin anew.
fn column_of_cut(alloc: Global, work: &mut Work, cut: &Cut) -> Result<Option<u32>, SolveFault>
    requires usable { work.old.tableau.usable ≡ true }
    ensures usable { OnOk result (work.new.tableau.usable ≡ true) }
{
    if cut.atom.terms.as_slice().is_empty() {
        return Ok(Some(0));
    }
    let count = work.sums.atoms.len();
    let first = match u32::try_from(work.sums.shapes.len()) {
        Ok(first) => first,
        Err(_) => return Ok(None),
    };
    let column = column_among(alloc, &mut work.sums.atoms, first, &cut.atom)?;
    if work.sums.atoms.len() == count {
        return Ok(Some(column));
    }
    match tableau_of(alloc, &work.sums)? {
        Some(tableau) => {
            work.tableau = tableau;
            Ok(Some(column))
        }
        None => {
            work.sums.atoms.pop();
            Ok(None)
        }
    }
}

// Adds a cut, where there is one and not too many came before.
fn cuts(alloc: Global, work: &mut Work) -> Result<bool, SolveFault>
    requires usable { work.old.tableau.usable ≡ true }
    ensures usable { OnOk result (work.new.tableau.usable ≡ true) }
{
    if !spend(&mut work.cuts) {
        return Ok(false);
    }
    let cut = match small_cut(alloc, &work.tableau)? {
        Some(cut) => cut,
        None => return Ok(false),
    };
    let column = match column_of_cut(alloc, work, &cut)? {
        Some(column) => column,
        None => return Ok(false),
    };
    add_cut(
        alloc,
        &mut work.record,
        &mut work.atoms,
        &mut work.meanings,
        cut,
        column,
    )?;
    Ok(true)
}

// Gives the values where they are whole, and else cuts or splits.
fn at_fit(alloc: Global, subject: &Subject, work: &mut Work) -> Result<Option<Ending>, SolveFault>
    requires usable { work.old.tableau.usable ≡ true }
    ensures usable { OnOk result (work.new.tableau.usable ≡ true) }
{
    let (x, c) = match split_of(&work.tableau) {
        Some(split) => split,
        None => {
            let values = values_of(alloc, &work.tableau, subject.shapes.len())?;
            let values = entries(alloc, &work.record.search, &values, subject.shapes)?;
            return Ok(Some(Ending::Finds(values)));
        }
    };
    if cuts(alloc, work)? {
        return Ok(None);
    }
    if x as usize >= subject.cnf.shapes.len() || !spend(&mut work.splits) {
        return Ok(Some(Ending::GivesUp));
    }
    work.cuts = CUTS;
    add_split(
        alloc,
        &mut work.record,
        &mut work.atoms,
        &mut work.meanings,
        x,
        c,
    )?;
    Ok(None)
}

fn refuted(
    alloc: Global,
    work: &mut Work,
    parts: &[(i128, u32)],
) -> Result<Option<Ending>, SolveFault>
    requires usable { work.old.tableau.usable ≡ true }
    ensures usable { OnOk result (work.new.tableau.usable ≡ true) }
{
    if !spend(&mut work.conflicts) {
        return Ok(Some(Ending::GivesUp));
    }
    work.cuts = CUTS;
    add_refutation(alloc, &mut work.record, &work.meanings, parts)?;
    Ok(None)
}

// Adds that the bounds of each of these sums don't all stand, of as many as conflicts are left, and what others decide.
fn refuted_by_all(
    alloc: Global,
    work: &mut Work,
    mut sums: Vec<Vec<(i128, u32)>>,
    decided: &[Vec<(i128, u32)>],
) -> Result<Option<Ending>, SolveFault>
    requires usable { work.old.tableau.usable ≡ true }
    ensures usable { OnOk result (work.new.tableau.usable ≡ true) }
{
    let some = spend_some(&mut work.conflicts, sums.len());
    if some == 0 {
        return Ok(Some(Ending::GivesUp));
    }
    sums.truncate(some);
    let mut steps = refutations(alloc, &work.record.search, &work.meanings, &sums)?;
    push_decided(
        alloc,
        &mut steps,
        &work.record.search,
        &work.meanings,
        decided,
    )?;
    work.cuts = CUTS;
    add_all(alloc, &mut work.record, steps)?;
    Ok(None)
}

// Asks the tableau whether its bounds can be met.
fn checked(
    alloc: Global,
    subject: &Subject,
    work: &mut Work,
    pivots: u64,
) -> Result<Option<Ending>, SolveFault>
    requires usable { work.old.tableau.usable ≡ true }
    ensures usable { IfOk result (λ r. IfNone r (work.new.tableau.usable ≡ true)) }
{
    match work.tableau.check(alloc, pivots)? {
        Checkup::Fits => at_fit(alloc, subject, work),
        Checkup::Refuted(farkas) => refuted(alloc, work, &farkas.parts),
        Checkup::Pivots(_) | Checkup::Past(_) => Ok(Some(Ending::GivesUp)),
    }
}

// Checks the bounds that matter.
fn at_full(
    alloc: Global,
    subject: &Subject,
    work: &mut Work,
    pivots: u64,
) -> Result<Option<Ending>, SolveFault>
    requires usable { work.old.tableau.usable ≡ true }
    ensures usable { IfOk result (λ r. IfNone r (work.new.tableau.usable ≡ true)) }
{
    let search = &work.record.search;
    let count = subject.cnf.atoms.len();
    let mut numbers = picked(
        alloc,
        search,
        subject.definitions,
        &subject.cnf.clauses,
        count,
        subject.truth,
    )?;
    push_own(&mut numbers, count, work.meanings.len())?;
    if let Some((first, second)) = assert_picked(
        alloc,
        search,
        &mut work.tableau,
        &work.meanings,
        &numbers,
    )? {
        let parts = vec![in alloc; (1, first), (1, second)]?;
        return refuted(alloc, work, &parts);
    }
    match solution_of(alloc, &work.tableau, &work.sums, &work.meanings, &numbers)? {
        Solution::Open => checked(alloc, subject, work, pivots),
        Solution::Refuted(found) => {
            let Refutations {
                sums,
                decided,
                values,
            } = found;
            let end = refuted_by_all(alloc, work, sums, &decided)?;
            if let Some(values) = values {
                prefer(&mut work.record.search, &subject.cnf.atoms, &values);
            }
            Ok(end)
        }
        Solution::Met(values) => {
            let values = entries(alloc, &work.record.search, &values, subject.shapes)?;
            Ok(Some(Ending::Finds(values)))
        }
    }
}

fn turn(
    alloc: Global,
    subject: &Subject,
    work: &mut Work,
    pivots: u64,
) -> Result<Option<Ending>, SolveFault>
    requires usable { work.old.tableau.usable ≡ true }
    ensures usable { IfOk result (λ r. IfNone r (work.new.tableau.usable ≡ true)) }
{
    match work.record.search.decide_or_conflict(alloc)? {
        Found::Full => at_full(alloc, subject, work, pivots),
        Found::Empty => {
            copy_last(alloc, &mut work.record)?;
            Ok(Some(Ending::Refutes))
        }
        Found::Conflict => {
            if !spend(&mut work.conflicts) {
                return Ok(Some(Ending::GivesUp));
            }
            work.cuts = CUTS;
            work.record.search.learn(alloc)?;
            copy_last(alloc, &mut work.record)?;
            Ok(None)
        }
    }
}

// The sums alone, as a form.
fn form_of_sums(alloc: Global, sums: Vec<Atom>, shapes: &[Shape]) -> Result<Cnf, AllocError> {
    Ok(Cnf {
        atoms: sums,
        clauses: Vec::new(alloc),
        shapes: Vec::from_slice(alloc, shapes)?,
    })
}

fn is_few(cnf: &Cnf) -> bool
    ensures { result ≡ true → AreFew (form_view cnf.now) }
{
    let most = u32::MAX as usize;
    cnf.shapes.len() <= most && cnf.atoms.len() <= most && cnf.clauses.len() <= most
}

// The tableau of the sums, where they are plain.
fn tableau_of(alloc: Global, sums: &Cnf) -> Result<Option<Tableau>, SolveFault>
    ensures usable { IfOk result (λ r. IfSome r (λ t. t.usable ≡ true)) }
{
    if !is_few(sums) || !is_plain(sums) {
        return Ok(None);
    }
    Ok(Some(tableau(alloc, sums)?))
}

fn begun(alloc: Global, cnf: &Cnf, budgets: Budgets) -> Result<Option<Work>, SolveFault>
    requires few { AreFew (form_view cnf.now) }
    ensures usable { IfOk result (λ r. IfSome r (λ w. w.tableau.usable ≡ true)) }
{
    let Columns { sums, meanings } = columns_of(alloc, &cnf.atoms, cnf.shapes.len() as u32)?;
    let sums = form_of_sums(alloc, sums, &cnf.shapes)?;
    let tableau = match tableau_of(alloc, &sums)? {
        Some(tableau) => tableau,
        None => return Ok(None),
    };
    let mut record = Record {
        search: Search::new(alloc, cnf)?,
        steps: Vec::new(alloc),
    };
    add_all(alloc, &mut record, orders(alloc, &cnf.atoms)?)?;
    Ok(Some(Work {
        record,
        tableau,
        sums,
        meanings,
        atoms: Vec::new(alloc),
        conflicts: budgets.conflicts,
        splits: budgets.splits,
        cuts: CUTS,
    }))
}

// Turn after turn.
fn ended(
    alloc: Global,
    subject: &Subject,
    work: &mut Work,
    budgets: Budgets,
) -> Result<Ending, SolveFault>
    requires usable { work.old.tableau.usable ≡ true }
{
    let most = budgets
        .conflicts
        .saturating_add(budgets.splits)
        .saturating_add(1)
        .saturating_mul(CUTS + 1);
    for _turn in 0..most {
        if let Some(end) = turn(alloc, subject, work, budgets.pivots)? {
            return Ok(end);
        }
    }
    Ok(Ending::GivesUp)
}

/// Tries to answer a query with the variables of these shapes by its clause form, within the budgets.
pub fn attempted(
    alloc: Global,
    cnf: &Cnf,
    shapes: &[Shape],
    budgets: Budgets,
) -> Result<Option<Attempt>, SolveFault>
    requires few { AreFew (form_view cnf.now) }
{
    let Ok(truth) = u32::try_from(shapes.len()) else {
        return Ok(None);
    };
    let definitions = definitions_of(alloc, &cnf.clauses, cnf.shapes.len(), truth)?;
    let mut work = match begun(alloc, cnf, budgets)? {
        Some(work) => work,
        None => return Ok(None),
    };
    let subject = Subject {
        cnf,
        definitions: &definitions,
        shapes,
        truth,
    };
    match ended(alloc, &subject, &mut work, budgets)? {
        Ending::Finds(values) => Ok(Some(Attempt::Found(values))),
        Ending::Refutes => Ok(Some(Attempt::Refuted(Proof {
            atoms: work.atoms,
            steps: work.record.steps,
        }))),
        Ending::GivesUp => Ok(None),
    }
}
