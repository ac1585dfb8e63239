//! Names and labels.

ghost use Rattle.std.specs.Prelude.{◌≡◌, ◌<◌, ◌≤◌, ◌+◌, ◌++◌, [], ◌∷◌, Some, map, option_map, length, IfOk, IfErr};
ghost use Rattle.std.specs.String.{string_bytes};
ghost use Rattle.lus_tree.specs.Reason.{refusal_view, memory};
ghost use Rattle.lus_tree.specs.View.{word_view};
ghost use Rattle.lus_grammar.specs.Stream.{stream};
ghost use Rattle.lus_grammar.specs.Phrase.{one_of, optional, part, Names};
ghost use Rattle.lus_grammar.specs.Phrase as P;
ghost use Rattle.lus_grammar.specs.Source.{AreTokens};
ghost use Rattle.lus_grammar.specs.Trees.{spelled};
ghost use Rattle.lus_grammar.specs.Programs.{names_of, label_of, unquoted};
ghost use Rattle.lus_reader.specs.Told.{ReadsAt, RefusesAt, Takes};

use crate::list::push;
use crate::look::{copied, expect, is_at, place_at, slice_at};
use lus_lexer::{Class, Sign, Token};
use lus_tree::{PlacedName, Refusal};
use std::alloc::Global;

/// A name, and the place behind it.
pub fn identifier(
    alloc: Global,
    tokens: &[Token],
    bytes: &[u8],
    at: u32,
) -> Result<(PlacedName, u32), Refusal>
    requires cut { AreTokens bytes.now tokens.now }
    requires small { length bytes.now ≤ 1048576 }
    ensures run { IfOk result (λ r. Takes bytes.now tokens.now P.identifier at r.1) }
    ensures word { IfOk result (λ r. word_view r.0 ≡ spelled (stream bytes.now tokens.now at)) }
    ensures stop { IfErr result (λ e. RefusesAt bytes.now tokens.now P.identifier at e) }
    ensures next { IfOk result (λ r. r.1 ≡ at + 1) }
    ensures inside { IfOk result (λ r. r.1 ≤ length tokens.now) }
{
    let next = expect(alloc, tokens, bytes, at, Class::Ident)?;
    let text = copied(alloc, slice_at(tokens, bytes, at))?;
    let at = place_at(tokens, bytes, at);
    Ok((PlacedName { text, at }, next))
}

/// Names with commas between them, and the place behind the last one.
pub fn names(
    alloc: Global,
    tokens: &[Token],
    bytes: &[u8],
    at: u32,
) -> Result<(Vec<PlacedName>, u32), Refusal>
    requires cut { AreTokens bytes.now tokens.now }
    requires small { length bytes.now ≤ 1048576 }
    ensures run { IfOk result (λ r. ReadsAt names_of bytes.now tokens.now (part Names) at r.1
        (map word_view r.0.items)) }
    ensures stop { IfErr result (λ e. RefusesAt bytes.now tokens.now (part Names) at e) }
    ensures inside { IfOk result (λ r. (at < r.1) × (r.1 ≤ length tokens.now)) }
{
    let mut words = Vec::new(alloc);
    let mut next = add_name(alloc, tokens, bytes, at, &mut words)?;
    while is_at(tokens, next, Class::Sign(Sign::Comma)) {
        next = add_name(alloc, tokens, bytes, next + 1, &mut words)?;
    }
    Ok((words, next))
}

/// Puts a name behind others.
fn add_name(
    alloc: Global,
    tokens: &[Token],
    bytes: &[u8],
    at: u32,
    words: &mut Vec<PlacedName>,
) -> Result<u32, Refusal>
    requires cut { AreTokens bytes.now tokens.now }
    requires small { length bytes.now ≤ 1048576 }
    ensures run { IfOk result (λ j. Takes bytes.now tokens.now P.identifier at j) }
    ensures word { IfOk result (λ j. map word_view words.new.items ≡ map word_view words.old.items ++ spelled
        (stream bytes.now tokens.now at) ∷ []) }
    ensures stop { IfErr result (λ e. RefusesAt bytes.now tokens.now P.identifier at e) }
    ensures next { IfOk result (λ j. j ≡ at + 1) }
    ensures inside { IfOk result (λ j. j ≤ length tokens.now) }
{
    let (word, next) = identifier(alloc, tokens, bytes, at)?;
    push(words, word)?;
    Ok(next)
}

/// A text that may stand there, without its quotes, and the place behind it.
pub fn label(
    alloc: Global,
    tokens: &[Token],
    bytes: &[u8],
    at: u32,
) -> Result<(Option<String>, u32), Refusal>
    requires cut { AreTokens bytes.now tokens.now }
    requires small { length bytes.now ≤ 1048576 }
    requires inside { at ≤ length tokens.now }
    ensures run { IfOk result (λ r. ReadsAt label_of bytes.now tokens.now
        (optional (one_of (Class.Text ∷ []))) at r.1 (option_map string_bytes r.0)) }
    ensures stop { IfErr result (λ e. RefusesAt bytes.now tokens.now (optional (one_of (Class.Text ∷ []))) at e) }
    ensures inside { IfOk result (λ r. (at ≤ r.1) × (r.1 ≤ length tokens.now)) }
{
    if !is_at(tokens, at, Class::Text) {
        return Ok((None, at));
    }
    let text = unquoted(alloc, tokens, bytes, at)?;
    Ok((Some(text), at + 1))
}

/// What stands between the quotes of a text.
fn unquoted(alloc: Global, tokens: &[Token], bytes: &[u8], at: u32) -> Result<String, Refusal>
    requires cut { AreTokens bytes.now tokens.now }
    requires small { length bytes.now ≤ 1048576 }
    requires inside { at < length tokens.now }
    requires text { (stream bytes.now tokens.now at).class ≡ Some Class.Text }
    ensures text { IfOk result (λ t. string_bytes t ≡ unquoted (stream bytes.now tokens.now at).text) }
    ensures memory { IfErr result (λ e. (refusal_view e).reason ≡ memory) }
{
    let text = slice_at(tokens, bytes, at);
    copied(alloc, &text[1..text.len() - 1])
}
