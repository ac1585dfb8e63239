//! The states that the values of a search and a tableau make.

ghost use Rattle.std.specs.Prelude.{◌≡◌, ◌<◌, ◌≤◌, ◌*◌, ◌^◌, true, length, IfOk};
ghost use Rattle.sys_terms.specs.View.{states_view};
ghost use Rattle.sys_terms.specs.Answers.{states_in};
ghost use Rattle.smt_solver.specs.NumberStates.{number_entry, number_entries};

use int_simplex::Tableau;
use kind_num::Shape;
use proof_steps::Literal;
use sat_core::Search;
use std::alloc::{AllocError, Global};
use sys_terms::{Entry, State};

/// The value of a variable. A number's is the upper number of its column's fraction.
fn entry(search: &Search, tableau: &Tableau, number: u32, shape: Shape) -> Entry
    requires usable { tableau.now.usable ≡ true }
    requires in_range { number < tableau.now.columns }
    ensures { result ≡ number_entry search.now.trail tableau.now.values number shape }
{
    match shape {
        Shape::Flag => {
            let truth = search.value(Literal::Flag(number, true));
            Entry::Flag(matches!(truth, Some(true)))
        }
        Shape::Number => {
            let (top, _) = tableau.value(number);
            Entry::Number(top)
        }
    }
}

/// The values of the variables of these shapes.
pub fn entries(
    alloc: Global,
    search: &Search,
    tableau: &Tableau,
    shapes: &[Shape],
) -> Result<Vec<Entry>, AllocError>
    requires few { length shapes.now < 2 ^ 32 }
    requires usable { tableau.now.usable ≡ true }
    requires columns { length shapes.now ≤ tableau.now.columns }
    ensures { IfOk result (λ v. v.items ≡ number_entries search.now.trail tableau.now.values 0 shapes.now) }
{
    let mut entries = Vec::new(alloc);
    for i in 0..shapes.len() {
        entries.push(entry(search, tableau, i as u32, shapes[i]))?;
    }
    Ok(entries)
}

/// The values cut into states of `size` variables each.
pub fn states(
    alloc: Global,
    values: &[Entry],
    size: usize,
    count: u64,
) -> Result<Vec<State>, AllocError>
    requires { count * size ≤ length values.now }
    ensures { IfOk result (λ v. states_view v.items ≡ states_in size count values.now) }
{
    let mut states = Vec::new(alloc);
    let mut rest = values;
    for _i in 0..count {
        let (first, later) = rest.split_at(size);
        let values = Vec::from_slice(alloc, first)?;
        states.push(State { values })?;
        rest = later;
    }
    Ok(states)
}
