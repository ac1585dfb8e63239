//! Refusals of tokens.

ghost use Rattle.std.specs.Prelude.{◌≡◌, ◌≤◌, ◌⊎◌, length};
ghost use Rattle.lus_tree.specs.Reason.{memory, refusal_view, too_large, what_view};
ghost use Rattle.lus_grammar.specs.Run.{unexpected};
ghost use Rattle.lus_grammar.specs.Source.{AreTokens, IsReason};
ghost use Rattle.lus_grammar.specs.Stream.{stream};
ghost use Rattle.lus_reader.specs.Look.{is_left_out};

use crate::token::class_at;
use crate::word::string_at;
use lus_lexer::{Class, Token, end};
use lus_tree::{Pos, Refusal, What};
use std::alloc::Global;

/// Where a token stands, or the end of the source behind the last one.
pub(crate) fn place_at(tokens: &[Token], bytes: &[u8], at: usize) -> Pos
    requires { length bytes.now ≤ 1048576 }
    ensures { result ≡ (stream bytes.now tokens.now at).at }
{
    if at < tokens.len() {
        tokens[at].at
    } else {
        end(bytes)
    }
}

/// The refusal of a token that no text goes on with.
pub(crate) fn unexpected(alloc: Global, tokens: &[Token], bytes: &[u8], at: usize) -> Refusal
    requires cut { AreTokens bytes.now tokens.now }
    requires small { length bytes.now ≤ 1048576 }
    ensures at { result.at ≡ (stream bytes.now tokens.now at).at }
    ensures reason { ((refusal_view result).reason ≡ memory)
        ⊎ IsReason (stream bytes.now tokens.now at) unexpected (refusal_view result).reason }
{
    Refusal {
        at: place_at(tokens, bytes, at),
        what: reason_at(alloc, tokens, bytes, at),
    }
}

/// Why no text goes on with a token.
fn reason_at(alloc: Global, tokens: &[Token], bytes: &[u8], at: usize) -> What
    requires { AreTokens bytes.now tokens.now }
    ensures { (what_view result ≡ memory)
        ⊎ IsReason (stream bytes.now tokens.now at) unexpected (what_view result) }
{
    if !is_left_out(class_at(tokens, at)) {
        return What::Unexpected;
    }
    match string_at(alloc, tokens, bytes, at) {
        Ok(word) => What::LeftOut(word),
        Err(_) => What::Memory,
    }
}

fn is_left_out(class: Option<Class>) -> bool
    ensures { result ≡ is_left_out class }
{
    match class {
        Some(Class::LeftOut(_)) => true,
        _ => false,
    }
}

/// The refusal of an expression with a token too many.
pub(crate) fn too_large(tokens: &[Token], bytes: &[u8], at: usize) -> Refusal
    requires { length bytes.now ≤ 1048576 }
    ensures at { result.at ≡ (stream bytes.now tokens.now at).at }
    ensures reason { (refusal_view result).reason ≡ too_large }
{
    Refusal {
        at: place_at(tokens, bytes, at),
        what: What::TooLarge,
    }
}
