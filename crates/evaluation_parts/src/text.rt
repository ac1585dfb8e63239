//! What is evaluated in a frame, and for its conditions.

use crate::part::Part;

/// What a mode requires, as operands of a whole that names the mode and as conditions, and each ensure as a condition,
/// behind what its mode requires. The mode goes by its name, and before it the imported contracts on the way to it.
#[derive(Drop)]
pub struct ModeText<'a> {
    pub contracts: Vec<&'a str>,
    pub mode: &'a str,
    pub asked: Vec<Part<'a>>,
    pub required: Vec<Part<'a>>,
    pub ensured: Vec<Part<'a>>,
}

/// The conditions of a contract with those of its imports, each kind in text order.
#[derive(Drop)]
pub struct ContractText<'a> {
    pub assumed: Vec<Part<'a>>,
    pub guaranteed: Vec<Part<'a>>,
    pub modes: Vec<ModeText<'a>>,
}

/// What is evaluated in a frame where it is called: its imports and its equations. And the conditions of its contract,
/// and the assertions of its text and of its calls.
#[derive(Drop)]
pub struct FrameText<'a> {
    pub body: Vec<Part<'a>>,
    pub contract: ContractText<'a>,
    pub asserted: Vec<Part<'a>>,
}
