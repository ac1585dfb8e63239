//! What the bytes at a place spell.

use crate::token::Class;

/// A comment, by what opens it.
#[derive(Clone, Copy)]
pub enum Comment {
    /// `--`, up to the end of the line.
    Line,
    /// `(*`, up to `*)`.
    Round,
    /// `/*`, up to `*/`.
    Slash,
}

/// What is spelled at a place.
#[derive(Clone, Copy)]
pub enum Lexeme {
    Token(Class),
    Opens(Comment),
}
