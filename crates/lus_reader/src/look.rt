//! Looks at one token.

ghost use Rattle.std.specs.Prelude.{◌≡◌, ◌<◌, ◌≤◌, ◌+◌, ◌↔◌, [], ◌∷◌, List, ℕ, Some, true, length, IfOk, IfErr, IfSome, IsTrue};
ghost use Rattle.std.specs.Str.{IsAscii};
ghost use Rattle.std.specs.String.{string_bytes};
ghost use Rattle.lus_tree.specs.Reason.{refusal_view, memory};
ghost use Rattle.lus_grammar.specs.Stream.{stream};
ghost use Rattle.lus_grammar.specs.Phrase.{one_of, optional};
ghost use Rattle.lus_grammar.specs.Source.{AreTokens};
ghost use Rattle.lus_reader.specs.Marks.{RefusesMark, is_kept, nothing_of};
ghost use Rattle.lus_reader.specs.Told.{ReadsAt, RefusesAt, Takes};

use crate::{refusal, token, word};
use lus_lexer::{Class, Token};
use lus_tree::{Pos, Refusal, What};
use std::alloc::Global;

/// The class of the token at a place, and none behind the last one.
pub fn class_at(tokens: &[Token], at: u32) -> Option<Class>
    ensures class { (bytes : List ℕ) → (stream bytes tokens.now at).class ≡ result }
    ensures inside { IfSome result (λ c. at < length tokens.now) }
{
    token::class_at(tokens, at as usize)
}

/// Whether the token at a place is of a class.
pub fn is_at(tokens: &[Token], at: u32, class: Class) -> bool
    ensures when { (bytes : List ℕ) → IsTrue result ↔ ((stream bytes tokens.now at).class ≡ Some class) }
    ensures inside { IsTrue result → at < length tokens.now }
{
    match class_at(tokens, at) {
        Some(other) => same(other, class),
        None => false,
    }
}

/// Whether two classes are one.
fn same(one: Class, other: Class) -> bool
    ensures { IsTrue result ↔ one ≡ other }
{
    match (one, other) {
        (Class::Ident, Class::Ident) => true,
        (Class::Number, Class::Number) => true,
        (Class::Text, Class::Text) => true,
        (Class::Sign(sign), Class::Sign(of)) => sign == of,
        (Class::ContractOpen(opening), Class::ContractOpen(of)) => opening == of,
        (Class::ContractClose(closing), Class::ContractClose(of)) => closing == of,
        (Class::Annotation(annotation), Class::Annotation(of)) => annotation == of,
        (Class::LeftOut(word), Class::LeftOut(of)) => word == of,
        (Class::Keyword(word), Class::Keyword(of)) => word == of,
        _ => false,
    }
}

/// The refusal for want of memory. Its place says nothing.
pub fn out_of_memory() -> Refusal
    ensures { (refusal_view result).reason ≡ memory }
{
    Refusal {
        at: Pos { line: 1, column: 1 },
        what: What::Memory,
    }
}

/// An equal text.
pub(crate) fn copied(alloc: Global, text: &[u8]) -> Result<String, Refusal>
    requires ascii { IsAscii text.now }
    ensures text { IfOk result (λ t. string_bytes t ≡ text.now) }
    ensures memory { IfErr result (λ e. (refusal_view e).reason ≡ memory) }
{
    match std::str::from_utf8(text) {
        Ok(text) => match String::from_str(alloc, text) {
            Ok(text) => Ok(text),
            Err(_) => Err(out_of_memory()),
        },
        Err(_) => unreachable!(),
    }
}

/// The bytes of a token.
pub(crate) fn slice_at<'s>(tokens: &[Token], bytes: &'s [u8], at: u32) -> &'s [u8]
    requires cut { AreTokens bytes.now tokens.now }
    requires small { length bytes.now ≤ 1048576 }
    requires inside { at < length tokens.now }
    ensures text { result.now ≡ (stream bytes.now tokens.now at).text }
    ensures ascii { IsAscii result.now }
{
    word::slice_at(tokens, bytes, at as usize)
}

/// Why the mark at a place, a token or the end, is refused where nothing goes on with it, or
/// `Memory`.
pub fn refusal_at(alloc: Global, tokens: &[Token], bytes: &[u8], at: u32) -> Refusal
    requires cut { AreTokens bytes.now tokens.now }
    requires small { length bytes.now ≤ 1048576 }
    ensures { RefusesMark (stream bytes.now tokens.now) at (refusal_view result) }
{
    refusal::unexpected(alloc, tokens, bytes, at as usize)
}

/// Where a token stands, and where the source ends behind the last one.
pub(crate) fn place_at(tokens: &[Token], bytes: &[u8], at: u32) -> Pos
    requires small { length bytes.now ≤ 1048576 }
    ensures { result ≡ (stream bytes.now tokens.now at).at }
{
    refusal::place_at(tokens, bytes, at as usize)
}

/// One token of a class, and the place behind it.
pub fn expect(
    alloc: Global,
    tokens: &[Token],
    bytes: &[u8],
    at: u32,
    class: Class,
) -> Result<u32, Refusal>
    requires cut { AreTokens bytes.now tokens.now }
    requires small { length bytes.now ≤ 1048576 }
    ensures run { IfOk result (λ j. Takes bytes.now tokens.now (one_of (class ∷ [])) at j) }
    ensures token { IfOk result (λ j. (stream bytes.now tokens.now at).class ≡ Some class) }
    ensures stop { IfErr result (λ e. RefusesAt bytes.now tokens.now (one_of (class ∷ [])) at e) }
    ensures next { IfOk result (λ j. j ≡ at + 1) }
    ensures inside { IfOk result (λ j. j ≤ length tokens.now) }
{
    if !is_at(tokens, at, class) {
        return Err(refusal_at(alloc, tokens, bytes, at));
    }
    Ok(at + 1)
}

/// The place behind a token that may stand there.
pub fn optional_token(tokens: &[Token], bytes: &[u8], at: u32, class: Class) -> u32
    requires cut { AreTokens bytes.now tokens.now }
    requires small { length bytes.now ≤ 1048576 }
    requires inside { at ≤ length tokens.now }
    requires kept { is_kept class ≡ true }
    ensures run { ReadsAt nothing_of bytes.now tokens.now (optional (one_of (class ∷ []))) at result tt }
    ensures inside { (at ≤ result) × (result ≤ length tokens.now) }
{
    if is_at(tokens, at, class) { at + 1 } else { at }
}
