//! With which tokens an expression begins.

ghost use Rattle.std.specs.Prelude.{◌≡◌, ℕ, List, length};
ghost use Rattle.lus_grammar.specs.Stream.{stream};
ghost use Rattle.lus_grammar.specs.Starts.{code, listed, conditions, codes_of};
ghost use Rattle.lus_reader.specs.Look.{start_of, Begins, IsInside};

use crate::token::class_at;
use lus_lexer::{Class, Keyword, Sign, Token};

/// The first token of a primary.
#[derive(Clone, Copy)]
pub(crate) enum Start {
    Number,
    Truth(bool),
    Name,
    DoubleColon,
    Merge,
    Condact,
    Open,
    /// No primary begins with it.
    Other,
}

/// What primary begins with the token at a place.
pub(crate) fn start_at(tokens: &[Token], at: usize) -> Start
    ensures begins { (bytes : List ℕ) → Begins (stream bytes tokens.now) at result }
    ensures inside { IsInside at (length tokens.now) result }
{
    start_of(class_at(tokens, at))
}

fn start_of(class: Option<Class>) -> Start
    ensures { result ≡ start_of class }
{
    match class {
        Some(Class::Number) => Start::Number,
        Some(Class::Keyword(Keyword::True)) => Start::Truth(true),
        Some(Class::Keyword(Keyword::False)) => Start::Truth(false),
        Some(Class::Ident) => Start::Name,
        Some(Class::Sign(Sign::DoubleColon)) => Start::DoubleColon,
        Some(Class::Keyword(Keyword::Merge)) => Start::Merge,
        Some(Class::Keyword(Keyword::Condact)) => Start::Condact,
        Some(Class::Sign(Sign::Open)) => Start::Open,
        _ => Start::Other,
    }
}

/// Whether an expression may begin with the token at a place.
pub(crate) fn may_begin(tokens: &[Token], at: usize) -> bool
    ensures { (bytes : List ℕ)
        → listed (code (stream bytes tokens.now at).class) (codes_of conditions) ≡ result }
{
    begins(class_at(tokens, at))
}

fn begins(class: Option<Class>) -> bool
    ensures { listed (code class) (codes_of conditions) ≡ result }
{
    match class {
        Some(Class::Keyword(Keyword::If)) => true,
        Some(Class::Keyword(Keyword::Not)) => true,
        Some(Class::Sign(Sign::Minus)) => true,
        Some(Class::Keyword(Keyword::Pre)) => true,
        _ => match start_of(class) {
            Start::Other => false,
            _ => true,
        },
    }
}
