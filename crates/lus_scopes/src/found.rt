//! What is known of a part of an expression.

use crate::worth::Worth;
use lus_tree::{Pos, Sort};

/// What is known of a part of an expression: where it begins, its type where it has one, whether
/// it is constant by its form, and its value and weight.
#[derive(Clone, Copy)]
pub struct Part {
    pub from: Pos,
    pub sort: Option<Sort>,
    pub constant: bool,
    pub worth: Worth,
}
