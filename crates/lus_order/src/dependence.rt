//! What a declaration depends on at one instant.

/// The order of a declaration's equations, and on which inputs its outputs depend at the same instant.
#[derive(Drop)]
pub struct Dependence {
    /// The numbers of its equations, ghost ones first, in the least order in which each stands behind all that it
    /// needs at its instant.
    pub order: Vec<usize>,
    /// For each output the numbers of the inputs on which it depends at the same instant, counted from 0, ascending.
    pub reads: Vec<Vec<usize>>,
}
