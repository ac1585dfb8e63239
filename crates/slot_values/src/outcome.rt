//! What an expression comes to, with no place of an operation.

/// What an expression comes to in 128 bits: its value, or that one of its operations has a result outside them.
#[derive(Clone, Copy, Debug)]
pub enum Outcome {
    /// No value: its clock is off.
    Absent,
    /// A truth value.
    Truth(bool),
    /// A whole number.
    Whole(i128),
    /// An operation has a result outside 128 bits.
    Outside,
}
