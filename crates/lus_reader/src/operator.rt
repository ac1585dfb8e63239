//! The operators between operands.

ghost use Rattle.std.specs.Prelude.{◌≡◌, ◌<◌, ℕ, List, length, IfSome};
ghost use Rattle.lus_grammar.specs.Stream.{stream};
ghost use Rattle.lus_reader.specs.Operators.{operator_of, relation_of, Joins, Relates};
ghost use Rattle.lus_reader.specs.View.{level_view};

use crate::token::class_at;
use lus_lexer::{Class, Keyword, Sign, Token};
use lus_tree::Operator;

/// The levels at which operators are repeated.
#[derive(Clone, Copy)]
pub(crate) enum Level {
    Products,
    Sums,
    Conjunctions,
    Disjunctions,
}

/// The operator of a level that the token at a place is.
pub(crate) fn operator_at(tokens: &[Token], at: usize, level: Level) -> Option<Operator>
    ensures joins { (bytes : List ℕ) → Joins (stream bytes tokens.now) at (level_view level) result }
    ensures inside { IfSome result (λ o. at < length tokens.now) }
{
    operator_of(level, class_at(tokens, at))
}

fn operator_of(level: Level, class: Option<Class>) -> Option<Operator>
    ensures { result ≡ operator_of (level_view level) class }
{
    match level {
        Level::Products => match class {
            Some(Class::Sign(Sign::Times)) => Some(Operator::Mul),
            Some(Class::Keyword(Keyword::Div)) => Some(Operator::Div),
            Some(Class::Keyword(Keyword::Mod)) => Some(Operator::Mod),
            _ => None,
        },
        Level::Sums => match class {
            Some(Class::Sign(Sign::Plus)) => Some(Operator::Add),
            Some(Class::Sign(Sign::Minus)) => Some(Operator::Sub),
            _ => None,
        },
        Level::Conjunctions => match class {
            Some(Class::Keyword(Keyword::And)) => Some(Operator::And),
            _ => None,
        },
        Level::Disjunctions => match class {
            Some(Class::Keyword(Keyword::Or)) => Some(Operator::Or),
            Some(Class::Keyword(Keyword::Xor)) => Some(Operator::Xor),
            _ => None,
        },
    }
}

/// The relation that the token at a place is.
pub(crate) fn relation_at(tokens: &[Token], at: usize) -> Option<Operator>
    ensures relates { (bytes : List ℕ) → Relates (stream bytes tokens.now) at result }
    ensures inside { IfSome result (λ o. at < length tokens.now) }
{
    relation_of(class_at(tokens, at))
}

fn relation_of(class: Option<Class>) -> Option<Operator>
    ensures { result ≡ relation_of class }
{
    match class {
        Some(Class::Sign(Sign::Less)) => Some(Operator::Less),
        Some(Class::Sign(Sign::AtMost)) => Some(Operator::AtMost),
        Some(Class::Sign(Sign::Equals)) => Some(Operator::Equal),
        Some(Class::Sign(Sign::Differs)) => Some(Operator::Differs),
        Some(Class::Sign(Sign::AtLeast)) => Some(Operator::AtLeast),
        Some(Class::Sign(Sign::More)) => Some(Operator::More),
        _ => None,
    }
}
