//! What a book says of a property.

/// What a book says of a property, with the place of the entry that says so.
#[derive(Clone, Copy, Debug, PartialEq, Eq)]
pub enum Verdict {
    /// The first entry that decides the property holds it.
    Valid(u64),
    /// The first entry that decides the property breaks it.
    Falsifiable(u64),
    /// No entry decides it.
    Unknown,
}
