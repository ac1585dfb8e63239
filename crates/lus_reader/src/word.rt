//! The texts of tokens.

ghost use Rattle.std.specs.Prelude.{◌≡◌, ◌<◌, ◌≤◌, ◌-◌, length, take, drop, Some, IfOk, IfSome};
ghost use Rattle.std.specs.String.{string_bytes};
ghost use Rattle.lus_tree.specs.View.{word_view};
ghost use Rattle.lus_lexer.specs.declared.token.Class.TheVariants as C;
ghost use Rattle.lus_lexer.specs.Tokens.{byte, value};
ghost use Rattle.lus_grammar.specs.Stream.{stream};
ghost use Rattle.lus_grammar.specs.Trees.{spelled, digits_value};
ghost use Rattle.lus_reader.specs.Look.{AreFirst};

use lus_lexer::Token;
use lus_tree::PlacedName;
use std::alloc::{AllocError, Global};

/// The bytes of a token.
pub(crate) fn slice_at<'s>(tokens: &[Token], bytes: &'s [u8], at: usize) -> &'s [u8]
    requires first { AreFirst bytes.now tokens.now }
    requires inside { at < length tokens.now }
    ensures { result.now ≡ (stream bytes.now tokens.now at).text }
{
    let token = tokens[at];
    &bytes[token.from as usize..token.to as usize]
}

/// The text of a token.
pub(crate) fn string_at(
    alloc: Global,
    tokens: &[Token],
    bytes: &[u8],
    at: usize,
) -> Result<String, AllocError>
    requires first { AreFirst bytes.now tokens.now }
    requires inside { at < length tokens.now }
    ensures { IfOk result (λ x. string_bytes x ≡ (stream bytes.now tokens.now at).text) }
{
    match std::str::from_utf8(slice_at(tokens, bytes, at)) {
        Ok(text) => String::from_str(alloc, text),
        Err(_) => unreachable!(),
    }
}

/// A name and its place.
pub(crate) fn word_at(
    alloc: Global,
    tokens: &[Token],
    bytes: &[u8],
    at: usize,
) -> Result<PlacedName, AllocError>
    requires first { AreFirst bytes.now tokens.now }
    requires inside { at < length tokens.now }
    ensures { IfOk result (λ w. word_view w ≡ spelled (stream bytes.now tokens.now at)) }
{
    let text = string_at(alloc, tokens, bytes, at)?;
    Ok(PlacedName {
        text,
        at: tokens[at].at,
    })
}

/// The value of a number.
pub(crate) fn number_at(tokens: &[Token], bytes: &[u8], at: usize) -> u64
    requires first { AreFirst bytes.now tokens.now }
    requires inside { at < length tokens.now }
    requires number { (stream bytes.now tokens.now at).class ≡ Some C.Number }
    ensures { result ≡ digits_value (stream bytes.now tokens.now at).text }
{
    value_of(slice_at(tokens, bytes, at))
}

/// The value of digits.
fn value_of(digits: &[u8]) -> u64
    requires { value (byte digits.now) 0 (length digits.now) ≤ 9223372036854775807 }
    ensures { result ≡ digits_value digits.now }
{
    let mut value: u64 = 0;
    for digit in digits {
        value = 10 * value + u64::from(digit.saturating_sub(b'0'));
    }
    value
}
