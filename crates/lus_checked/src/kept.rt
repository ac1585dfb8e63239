//! What is kept beside a checked program.

use crate::property::Property;

/// The number of the main node, the orders of the equations of declarations with parts, and of each node and
/// function how many variables its system has, its properties, and on which inputs each output depends at the same
/// instant.
#[derive(Drop)]
pub(crate) struct Kept {
    pub(crate) main: u32,
    pub(crate) orders: Vec<Vec<u32>>,
    pub(crate) widths: Vec<u32>,
    pub(crate) properties: Vec<Vec<Property>>,
    pub(crate) reads: Vec<Vec<Vec<u32>>>,
}
