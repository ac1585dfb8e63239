//! How much the engines may do.

use proof_steps::Budgets;

/// The greatest depth, the greatest numbers of frames and of blocked clauses, and the budgets of one
/// query. The ranges of these numbers are those of the program's options (`IsPlan`).
#[derive(Clone, Copy, Debug, PartialEq, Eq)]
pub struct Plan {
    pub depth: u32,
    pub frames: u32,
    pub blocked: u32,
    pub budgets: Budgets,
}
