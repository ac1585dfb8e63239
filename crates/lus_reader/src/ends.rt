//! What ends with an expression and a semicolon.

ghost use Rattle.std.specs.Prelude.{◌≡◌, ◌<◌, ◌≤◌, ◌+◌, [], ◌∷◌, length, IfOk, IfErr};
ghost use Rattle.lus_tree.specs.View.{expr_view, named_view, definition_view};
ghost use Rattle.lus_grammar.specs.Stream.{stream};
ghost use Rattle.lus_grammar.specs.Phrase.{◌⨾◌, optional, part, limited};
ghost use Rattle.lus_grammar.specs.Phrase as P;
ghost use Rattle.lus_grammar.specs.Grammar.{labelled, semicolon};
ghost use Rattle.lus_grammar.specs.Source.{AreTokens};
ghost use Rattle.lus_grammar.specs.Programs.{labelled_of, constants_of, optional_sort_of};
ghost use Rattle.lus_reader.specs.View.{counts_view};
ghost use Rattle.lus_reader.specs.Values.{ReadsEnded};
ghost use Rattle.lus_reader.specs.Told.{ReadsAt, RefusesAt, ReadsFrom, RefusesFrom};

use crate::counts::Counts;
use crate::look::{expect, is_at, place_at};
use crate::params::sort;
use crate::reader::read_expr;
use crate::words::{identifier, label};
use lus_lexer::{Class, Keyword, Sign, Token};
use lus_tree::{Definition, Expr, Named, Refusal, Sort};
use std::alloc::Global;

/// An expression and its semicolon, and the place behind them.
pub fn read_ended(
    alloc: Global,
    tokens: &[Token],
    bytes: &[u8],
    at: u32,
    counts: &mut Counts,
) -> Result<(Expr, u32), Refusal>
    requires cut { AreTokens bytes.now tokens.now }
    requires small { length bytes.now ≤ 1048576 }
    requires inside { at ≤ length tokens.now }
    ensures run { IfOk result (λ r. ReadsEnded (stream bytes.now tokens.now) at (counts_view counts.old) r.1
        (counts_view counts.new) (expr_view r.0)) }
    ensures stop { IfErr result (λ e. RefusesFrom bytes.now tokens.now
        (limited P.Expression ⨾ semicolon) at counts.old e) }
    ensures kept { IfErr result (λ e. counts.new ≡ counts.old) }
    ensures inside { IfOk result (λ r. (at < r.1) × (r.1 ≤ length tokens.now)) }
{
    let mut after = *counts;
    let (value, next) = read_expr(alloc, tokens, bytes, at, &mut after)?;
    let next = expect(alloc, tokens, bytes, next, Class::Sign(Sign::Semicolon))?;
    *counts = after;
    Ok((value, next))
}

/// What follows the first token of an item, an expression that may have a label, and the place
/// behind its semicolon.
pub fn read_labelled(
    alloc: Global,
    tokens: &[Token],
    bytes: &[u8],
    first: u32,
    counts: &mut Counts,
) -> Result<(Named, u32), Refusal>
    requires cut { AreTokens bytes.now tokens.now }
    requires small { length bytes.now ≤ 1048576 }
    requires inside { first < length tokens.now }
    ensures run { IfOk result (λ r. ReadsFrom
        (labelled_of (stream bytes.now tokens.now first)) bytes.now tokens.now labelled
        (first + 1) counts.old r.1 counts.new (named_view r.0)) }
    ensures stop { IfErr result (λ e. RefusesFrom bytes.now tokens.now labelled (first + 1) counts.old e) }
    ensures kept { IfErr result (λ e. counts.new ≡ counts.old) }
    ensures inside { IfOk result (λ r. (first < r.1) × (r.1 ≤ length tokens.now)) }
{
    let (label, next) = label(alloc, tokens, bytes, first + 1)?;
    let (value, next) = read_ended(alloc, tokens, bytes, next, counts)?;
    let named = Named {
        label,
        at: place_at(tokens, bytes, first),
        value,
    };
    Ok((named, next))
}

/// A type behind a colon, which may stand there, and the place behind it.
fn optional_sort(
    alloc: Global,
    tokens: &[Token],
    bytes: &[u8],
    at: u32,
) -> Result<(Option<Sort>, u32), Refusal>
    requires cut { AreTokens bytes.now tokens.now }
    requires small { length bytes.now ≤ 1048576 }
    requires inside { at ≤ length tokens.now }
    ensures run { IfOk result (λ r. ReadsAt optional_sort_of bytes.now tokens.now
        (optional (P.sign Sign.Colon ⨾ part P.Sort)) at r.1 r.0) }
    ensures stop { IfErr result (λ e. RefusesAt bytes.now tokens.now
        (optional (P.sign Sign.Colon ⨾ part P.Sort)) at e) }
    ensures inside { IfOk result (λ r. (at ≤ r.1) × (r.1 ≤ length tokens.now)) }
{
    if !is_at(tokens, at, Class::Sign(Sign::Colon)) {
        return Ok((None, at));
    }
    let (sort, next) = sort(alloc, tokens, bytes, at + 1)?;
    Ok((Some(sort), next))
}

/// A constant's definition, and the place behind its semicolon.
pub fn read_constant(
    alloc: Global,
    tokens: &[Token],
    bytes: &[u8],
    at: u32,
    counts: &mut Counts,
) -> Result<(Definition, u32), Refusal>
    requires cut { AreTokens bytes.now tokens.now }
    requires small { length bytes.now ≤ 1048576 }
    ensures run { IfOk result (λ r. ReadsFrom constants_of bytes.now tokens.now
        (part P.Constant) at counts.old r.1 counts.new (definition_view r.0 ∷ [])) }
    ensures stop { IfErr result (λ e. RefusesFrom bytes.now tokens.now (part P.Constant) at counts.old e) }
    ensures kept { IfErr result (λ e. counts.new ≡ counts.old) }
    ensures inside { IfOk result (λ r. (at < r.1) × (r.1 ≤ length tokens.now)) }
{
    let next = expect(alloc, tokens, bytes, at, Class::Keyword(Keyword::Const))?;
    let (name, next) = identifier(alloc, tokens, bytes, next)?;
    let (sort, next) = optional_sort(alloc, tokens, bytes, next)?;
    let next = expect(alloc, tokens, bytes, next, Class::Sign(Sign::Equals))?;
    let (value, next) = read_ended(alloc, tokens, bytes, next, counts)?;
    Ok((Definition { name, sort, value }, next))
}
