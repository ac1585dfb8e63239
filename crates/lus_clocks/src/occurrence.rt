//! Numbered occurrences.

/// An occurrence of a declaration with its number: a `pre`, an `->`, or a call or import.
#[derive(Clone, Copy)]
pub enum Occurrence {
    Pre(u32),
    Arrow(u32),
    Call(u32),
}
