//! Conditions.

use slot_values::Resolved;

/// What is asked at each instant, of expressions whose clock is always on.
#[derive(Drop)]
pub struct Conditions {
    /// Those by which instants are lawful.
    pub legal: Vec<Resolved>,
    pub properties: Vec<Resolved>,
}
