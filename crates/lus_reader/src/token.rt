//! Looks at a token.

ghost use Rattle.std.specs.Prelude.{◌≡◌, ◌<◌, ℕ, List, length, IfSome, IfOk, IsTrue};
ghost use Rattle.lus_lexer.specs.declared.token.Class.TheVariants as C;
ghost use Rattle.lus_grammar.specs.Stream.{stream};
ghost use Rattle.lus_reader.specs.Look.{Stands, Expects};

use crate::stop::Stop;
use lus_lexer::{Class, Keyword, Sign, Token};
use lus_tree::Pos;

/// What the token at a place is, and nothing behind the last one.
pub(crate) fn class_at(tokens: &[Token], at: usize) -> Option<Class>
    ensures class { (bytes : List ℕ) → (stream bytes tokens.now at).class ≡ result }
    ensures inside { IfSome result (λ c. at < length tokens.now) }
{
    if at < tokens.len() {
        Some(tokens[at].class)
    } else {
        None
    }
}

/// Where a token stands in the source.
pub(crate) fn pos_at(tokens: &[Token], at: usize) -> Pos
    requires { at < length tokens.now }
    ensures { (bytes : List ℕ) → (stream bytes tokens.now at).at ≡ result }
{
    tokens[at].at
}

/// Whether the token at a place is that keyword.
pub(crate) fn is_keyword(tokens: &[Token], at: usize, keyword: Keyword) -> bool
    ensures stands { (bytes : List ℕ) → Stands (stream bytes tokens.now) at (C.Keyword keyword) result }
    ensures inside { IsTrue result → at < length tokens.now }
{
    match class_at(tokens, at) {
        Some(Class::Keyword(here)) => here == keyword,
        _ => false,
    }
}

/// Whether the token at a place is that sign.
pub(crate) fn is_sign(tokens: &[Token], at: usize, sign: Sign) -> bool
    ensures stands { (bytes : List ℕ) → Stands (stream bytes tokens.now) at (C.Sign sign) result }
    ensures inside { IsTrue result → at < length tokens.now }
{
    match class_at(tokens, at) {
        Some(Class::Sign(here)) => here == sign,
        _ => false,
    }
}

/// Whether the token at a place is a name.
pub(crate) fn is_name(tokens: &[Token], at: usize) -> bool
    ensures stands { (bytes : List ℕ) → Stands (stream bytes tokens.now) at C.Ident result }
    ensures inside { IsTrue result → at < length tokens.now }
{
    match class_at(tokens, at) {
        Some(Class::Ident) => true,
        _ => false,
    }
}

/// Stops where the token at a place is not that keyword.
pub(crate) fn expect_keyword(tokens: &[Token], at: usize, keyword: Keyword) -> Result<(), Stop>
    ensures expects { (bytes : List ℕ) → Expects (stream bytes tokens.now) at (C.Keyword keyword) result }
    ensures inside { IfOk result (λ u. at < length tokens.now) }
{
    if is_keyword(tokens, at, keyword) {
        Ok(())
    } else {
        Err(Stop::Unexpected(at))
    }
}

/// Stops where the token at a place is not that sign.
pub(crate) fn expect_sign(tokens: &[Token], at: usize, sign: Sign) -> Result<(), Stop>
    ensures expects { (bytes : List ℕ) → Expects (stream bytes tokens.now) at (C.Sign sign) result }
    ensures inside { IfOk result (λ u. at < length tokens.now) }
{
    if is_sign(tokens, at, sign) {
        Ok(())
    } else {
        Err(Stop::Unexpected(at))
    }
}

/// Stops where the token at a place is no name.
pub(crate) fn expect_name(tokens: &[Token], at: usize) -> Result<(), Stop>
    ensures expects { (bytes : List ℕ) → Expects (stream bytes tokens.now) at C.Ident result }
    ensures inside { IfOk result (λ u. at < length tokens.now) }
{
    if is_name(tokens, at) {
        Ok(())
    } else {
        Err(Stop::Unexpected(at))
    }
}
