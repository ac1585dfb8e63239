//! The rules of equations, and the order in which they can be evaluated at one instant.
#![tactic(auto)]

mod callees_first;
mod checks;
mod circle_faults;
mod clock_circles;
mod declarations;
mod dependence;
mod found;
pub mod laws;
mod learned;
mod left_names;
mod library;
mod modes;
mod ordered;
mod output_reads;
mod own;
mod own_rows;
mod reads;
mod repeated;
mod rows;
mod setting;
mod sides;
mod streams;
mod summary;
mod words;

pub use checks::equations;
pub use dependence::Dependence;
