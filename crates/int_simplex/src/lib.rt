//! The simplex over whole numbers: rows are whole combinations of given rows, and values are
//! fractions. Exit and entering columns follow Bland's rule.

#![tactic(auto)]

mod answers;
mod bounds;
mod choosing;
mod crossing;
mod holders;
pub mod laws;
mod making;
mod moving;
mod pivoting;
mod refuting;
mod run;
mod seats;
mod stale;
mod stopping;
mod table;
mod trouble;
mod values;

pub use answers::{BoundFault, Checkup, Farkas, TableauFault};
pub use table::Tableau;
