//! Reads what operators, `not`, `-` and `pre` stand beside.

ghost use Rattle.std.specs.Prelude.{◌≡◌, ◌<◌, ◌+◌, ℕ, List, length, Some};
ghost use Rattle.lus_lexer.specs.declared.token.Class.TheVariants as C;
ghost use Rattle.lus_lexer.specs.declared.token.Keyword.TheVariants as K;
ghost use Rattle.lus_lexer.specs.declared.token.Sign.TheVariants as S;
ghost use Rattle.lus_grammar.specs.Stream.{stream};
ghost use Rattle.lus_grammar.specs.Phrase.{Primary};
ghost use Rattle.lus_reader.specs.Look.{AreFirst, IsTruth};
ghost use Rattle.lus_reader.specs.Outcome.{Outcome, Onward, Branch};

use crate::arguments::{read_arguments, read_bracketed, read_more};
use crate::built::{self, Head};
use crate::counts::{Counts, one_call};
use crate::expression::read_expression;
use crate::start::{Start, start_at};
use crate::stop::{Found, Stop};
use crate::token::{expect_keyword, expect_name, expect_sign, is_keyword, is_sign, pos_at};
use crate::word::{number_at, string_at, word_at};
use lus_lexer::{Keyword, Sign, Token};
use lus_tree::Form;
use std::alloc::Global;

/// `NUMBER | "true" | "false" | ID [ "(" [ exprs ] ")" ] | "::" ID [ "::" ID ] | ..`
#[cycle(reader)]
pub(crate) fn read_primary(
    alloc: Global,
    tokens: &[Token],
    bytes: &[u8],
    at: usize,
    counts: Counts,
) -> Result<Found, Stop>
    requires { AreFirst bytes.now tokens.now }
    ensures reads { Outcome bytes.now tokens.now Primary at counts result }
    ensures onward { Onward tokens.now at result }
{
    match start_at(tokens, at) {
        Start::Number => read_number(alloc, tokens, bytes, at, counts),
        Start::Truth(value) => read_truth(alloc, tokens, at, value, counts),
        Start::Name => read_name(alloc, tokens, bytes, at, counts),
        Start::DoubleColon => read_mode_name(alloc, tokens, bytes, at, counts),
        Start::Merge => read_merge(alloc, tokens, bytes, at, counts),
        Start::Condact => read_condact(alloc, tokens, bytes, at, counts),
        Start::Open => read_round(alloc, tokens, bytes, at, counts),
        Start::Other => Err(Stop::Unexpected(at)),
    }
}

/// `NUMBER`
fn read_number(
    alloc: Global,
    tokens: &[Token],
    bytes: &[u8],
    at: usize,
    counts: Counts,
) -> Result<Found, Stop>
    requires first { AreFirst bytes.now tokens.now }
    requires here { (stream bytes.now tokens.now at).class ≡ Some C.Number }
    requires inside { at < length tokens.now }
    ensures reads { Outcome bytes.now tokens.now Primary at counts result }
    ensures onward { Onward tokens.now at result }
{
    let pos = pos_at(tokens, at);
    let form = Form::Number(number_at(tokens, bytes, at));
    Ok(built::found(alloc, pos, pos, form, at + 1, counts)?)
}

/// `"true" | "false"`
fn read_truth(
    alloc: Global,
    tokens: &[Token],
    at: usize,
    value: bool,
    counts: Counts,
) -> Result<Found, Stop>
    requires here { (bytes : List ℕ) → IsTruth (stream bytes tokens.now) at value }
    requires inside { at < length tokens.now }
    ensures reads { (bytes : List ℕ) → Outcome bytes tokens.now Primary at counts result }
    ensures onward { Onward tokens.now at result }
{
    let pos = pos_at(tokens, at);
    let form = Form::Truth(value);
    Ok(built::found(alloc, pos, pos, form, at + 1, counts)?)
}

/// `ID [ "(" [ exprs ] ")" ]`
#[cycle(reader)]
fn read_name(
    alloc: Global,
    tokens: &[Token],
    bytes: &[u8],
    at: usize,
    counts: Counts,
) -> Result<Found, Stop>
    requires first { AreFirst bytes.now tokens.now }
    requires here { (stream bytes.now tokens.now at).class ≡ Some C.Ident }
    requires inside { at < length tokens.now }
    ensures reads { Outcome bytes.now tokens.now Primary at counts result }
    ensures onward { Onward tokens.now at result }
{
    let open = at + 1;
    if is_sign(tokens, open, Sign::Open) {
        return read_call(alloc, tokens, bytes, at, counts);
    }
    let form = Form::Name(string_at(alloc, tokens, bytes, at)?);
    let pos = pos_at(tokens, at);
    Ok(built::found(alloc, pos, pos, form, open, counts)?)
}

/// `ID "(" [ exprs ] ")"`
#[cycle(reader)]
fn read_call(
    alloc: Global,
    tokens: &[Token],
    bytes: &[u8],
    at: usize,
    counts: Counts,
) -> Result<Found, Stop>
    requires first { AreFirst bytes.now tokens.now }
    requires here { (stream bytes.now tokens.now at).class ≡ Some C.Ident }
    requires open { (stream bytes.now tokens.now (at + 1)).class ≡ Some (C.Sign S.Open) }
    requires inside { at + 1 < length tokens.now }
    ensures reads { Outcome bytes.now tokens.now Primary at counts result }
    ensures onward { Onward tokens.now at result }
{
    let behind = one_call(counts)?;
    let arguments = read_arguments(alloc, tokens, bytes, at + 1 + 1, behind)?;
    expect_sign(tokens, arguments.next, Sign::Close)?;
    let callee = word_at(alloc, tokens, bytes, at)?;
    Ok(built::called(alloc, behind.calls, callee, arguments)?)
}

/// `"::" ID [ "::" ID ]`
fn read_mode_name(
    alloc: Global,
    tokens: &[Token],
    bytes: &[u8],
    at: usize,
    counts: Counts,
) -> Result<Found, Stop>
    requires first { AreFirst bytes.now tokens.now }
    requires here { (stream bytes.now tokens.now at).class ≡ Some (C.Sign S.DoubleColon) }
    requires inside { at < length tokens.now }
    ensures reads { Outcome bytes.now tokens.now Primary at counts result }
    ensures onward { Onward tokens.now at result }
{
    let name = at + 1;
    expect_name(tokens, name)?;
    let pos = pos_at(tokens, at);
    let first = word_at(alloc, tokens, bytes, name)?;
    let sign = name + 1;
    if !is_sign(tokens, sign, Sign::DoubleColon) {
        let form = Form::ModeName(None, first);
        return Ok(built::found(alloc, pos, pos, form, sign, counts)?);
    }
    let second = sign + 1;
    expect_name(tokens, second)?;
    let mode = word_at(alloc, tokens, bytes, second)?;
    let form = Form::ModeName(Some(first), mode);
    Ok(built::found(alloc, pos, pos, form, second + 1, counts)?)
}

/// `"merge" ID "(" "true" "->" expr ")" "(" "false" "->" expr ")"`
#[cycle(reader)]
fn read_merge(
    alloc: Global,
    tokens: &[Token],
    bytes: &[u8],
    at: usize,
    counts: Counts,
) -> Result<Found, Stop>
    requires first { AreFirst bytes.now tokens.now }
    requires here { (stream bytes.now tokens.now at).class ≡ Some (C.Keyword K.Merge) }
    requires inside { at < length tokens.now }
    ensures reads { Outcome bytes.now tokens.now Primary at counts result }
    ensures onward { Onward tokens.now at result }
{
    let name = at + 1;
    expect_name(tokens, name)?;
    let yes = read_branch(alloc, tokens, bytes, name + 1, Keyword::True, counts)?;
    expect_sign(tokens, yes.next, Sign::Close)?;
    let other = yes.next + 1;
    let no = read_branch(alloc, tokens, bytes, other, Keyword::False, yes.counts)?;
    expect_sign(tokens, no.next, Sign::Close)?;
    let clock = word_at(alloc, tokens, bytes, name)?;
    Ok(built::merged(alloc, pos_at(tokens, at), clock, yes, no)?)
}

/// `"(" VALUE "->" expr`
#[cycle(reader)]
fn read_branch(
    alloc: Global,
    tokens: &[Token],
    bytes: &[u8],
    at: usize,
    value: Keyword,
    counts: Counts,
) -> Result<Found, Stop>
    requires { AreFirst bytes.now tokens.now }
    ensures reads { Branch bytes.now tokens.now value at counts result }
    ensures onward { Onward tokens.now at result }
{
    expect_sign(tokens, at, Sign::Open)?;
    let word = at + 1;
    expect_keyword(tokens, word, value)?;
    let arrow = word + 1;
    expect_sign(tokens, arrow, Sign::Arrow)?;
    read_expression(alloc, tokens, bytes, arrow + 1, counts)
}

/// `"condact" "(" expr "," ID "(" [ exprs ] ")" { "," expr } ")"`
#[cycle(reader)]
fn read_condact(
    alloc: Global,
    tokens: &[Token],
    bytes: &[u8],
    at: usize,
    counts: Counts,
) -> Result<Found, Stop>
    requires first { AreFirst bytes.now tokens.now }
    requires here { (stream bytes.now tokens.now at).class ≡ Some (C.Keyword K.Condact) }
    requires inside { at < length tokens.now }
    ensures reads { Outcome bytes.now tokens.now Primary at counts result }
    ensures onward { Onward tokens.now at result }
{
    let behind = one_call(counts)?;
    let open = at + 1;
    expect_sign(tokens, open, Sign::Open)?;
    let condition = read_expression(alloc, tokens, bytes, open + 1, behind)?;
    expect_sign(tokens, condition.next, Sign::Comma)?;
    let name = condition.next + 1;
    expect_name(tokens, name)?;
    let arguments = read_bracketed(alloc, tokens, bytes, name + 1, condition.counts)?;
    let none = built::none(alloc, arguments.next, arguments.counts);
    let defaults = read_more(alloc, tokens, bytes, none)?;
    expect_sign(tokens, defaults.next, Sign::Close)?;
    let pos = pos_at(tokens, at);
    let head = Head {
        from: pos,
        at: pos,
        number: behind.calls,
    };
    let callee = word_at(alloc, tokens, bytes, name)?;
    let (next, counts) = (defaults.next + 1, defaults.counts);
    let (arguments, defaults) = (arguments.items, defaults.items);
    Ok(built::condact(
        alloc, head, condition, callee, arguments, defaults, next, counts,
    )?)
}

/// `"(" ( "activate" .. | expr ")" )`
#[cycle(reader)]
fn read_round(
    alloc: Global,
    tokens: &[Token],
    bytes: &[u8],
    at: usize,
    counts: Counts,
) -> Result<Found, Stop>
    requires first { AreFirst bytes.now tokens.now }
    requires here { (stream bytes.now tokens.now at).class ≡ Some (C.Sign S.Open) }
    requires inside { at < length tokens.now }
    ensures reads { Outcome bytes.now tokens.now Primary at counts result }
    ensures onward { Onward tokens.now at result }
{
    if is_keyword(tokens, at + 1, Keyword::Activate) {
        return read_activate(alloc, tokens, bytes, at, counts);
    }
    let inner = read_expression(alloc, tokens, bytes, at + 1, counts)?;
    expect_sign(tokens, inner.next, Sign::Close)?;
    Ok(built::enclosed(inner, pos_at(tokens, at)))
}

/// `"(" "activate" ID "every" expr "initial" "default" "(" [ exprs ] ")" ")" "(" [ exprs ] ")"`
#[cycle(reader)]
fn read_activate(
    alloc: Global,
    tokens: &[Token],
    bytes: &[u8],
    at: usize,
    counts: Counts,
) -> Result<Found, Stop>
    requires first { AreFirst bytes.now tokens.now }
    requires here { (stream bytes.now tokens.now at).class ≡ Some (C.Sign S.Open) }
    requires word { (stream bytes.now tokens.now (at + 1)).class ≡ Some (C.Keyword K.Activate) }
    requires inside { at + 1 < length tokens.now }
    ensures reads { Outcome bytes.now tokens.now Primary at counts result }
    ensures onward { Onward tokens.now at result }
{
    let behind = one_call(counts)?;
    let name = at + 1 + 1;
    expect_name(tokens, name)?;
    let every = name + 1;
    expect_keyword(tokens, every, Keyword::Every)?;
    let condition = read_expression(alloc, tokens, bytes, every + 1, behind)?;
    expect_keyword(tokens, condition.next, Keyword::Initial)?;
    let default = condition.next + 1;
    expect_keyword(tokens, default, Keyword::Default)?;
    let defaults = read_bracketed(alloc, tokens, bytes, default + 1, condition.counts)?;
    expect_sign(tokens, defaults.next, Sign::Close)?;
    let open = defaults.next + 1;
    let arguments = read_bracketed(alloc, tokens, bytes, open, defaults.counts)?;
    let head = Head {
        from: pos_at(tokens, at),
        at: pos_at(tokens, at + 1),
        number: behind.calls,
    };
    let callee = word_at(alloc, tokens, bytes, name)?;
    let (next, counts) = (arguments.next, arguments.counts);
    let (arguments, defaults) = (arguments.items, defaults.items);
    Ok(built::condact(
        alloc, head, condition, callee, arguments, defaults, next, counts,
    )?)
}
