//! Properties with their labels as text.

/// What a property is of.
#[derive(Clone, Copy)]
pub enum PropertyKind {
    /// A property of the body.
    Body,
    /// A guarantee of the contract, or of one that it imports.
    Guarantee,
    /// An ensure of a mode of the contract, or of one that it imports.
    Ensure,
    /// That one of the modes is active.
    OneMode,
    /// An assumption of a callee's contract, or of one that this imports.
    CalleeAssume,
}

/// A property: its label, as it is printed, and what it is of.
#[derive(Drop)]
pub struct Property {
    pub label: String,
    pub kind: PropertyKind,
}
