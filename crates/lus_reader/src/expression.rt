//! Reads expressions, down to the operands of operators.

ghost use Rattle.std.specs.Prelude.{◌≡◌, ◌<◌, length, Some};
ghost use Rattle.lus_lexer.specs.declared.token.Class.TheVariants as C;
ghost use Rattle.lus_lexer.specs.declared.token.Keyword.TheVariants as K;
ghost use Rattle.lus_grammar.specs.Stream.{stream};
ghost use Rattle.lus_grammar.specs.Phrase.{Expression, Condition, Arrow, Implication, Relation, Unary, Chain, Sums};
ghost use Rattle.lus_grammar.specs.Grammar.{operand};
ghost use Rattle.lus_reader.specs.View.{level_view};
ghost use Rattle.lus_reader.specs.Look.{AreFirst};
ghost use Rattle.lus_reader.specs.Outcome.{Outcome, Onward, Goes, Further, Turn};

use crate::built;
use crate::counts::{Counts, one_arrow, one_pre};
use crate::operator::{Level, operator_at, relation_at};
use crate::primary::read_primary;
use crate::stop::{Found, Stop};
use crate::token::{expect_keyword, expect_name, is_keyword, is_name, is_sign, pos_at};
use crate::word::word_at;
use lus_lexer::{Keyword, Sign, Token};
use lus_tree::Operator;
use std::alloc::Global;

/// `cond { "when" [ "not" ] ID }`
#[cycle(reader)]
pub(crate) fn read_expression(
    alloc: Global,
    tokens: &[Token],
    bytes: &[u8],
    at: usize,
    counts: Counts,
) -> Result<Found, Stop>
    requires { AreFirst bytes.now tokens.now }
    ensures reads { Outcome bytes.now tokens.now Expression at counts result }
    ensures onward { Onward tokens.now at result }
{
    let mut found = read_condition(alloc, tokens, bytes, at, counts)?;
    while is_keyword(tokens, found.next, Keyword::When) {
        found = read_sample(alloc, tokens, bytes, found)?;
    }
    Ok(found)
}

/// `"when" [ "not" ] ID`
fn read_sample(alloc: Global, tokens: &[Token], bytes: &[u8], of: Found) -> Result<Found, Stop>
    requires first { AreFirst bytes.now tokens.now }
    requires when { (stream bytes.now tokens.now of.next).class ≡ Some (C.Keyword K.When) }
    requires inside { of.next < length tokens.now }
    ensures turn { Turn bytes.now tokens.now of result }
    ensures onward { Onward tokens.now of.next result }
{
    let when = of.next;
    let pos = pos_at(tokens, when);
    let first = when + 1;
    if is_keyword(tokens, first, Keyword::Not) {
        let name = first + 1;
        expect_name(tokens, name)?;
        let clock = word_at(alloc, tokens, bytes, name)?;
        return Ok(built::sampled(alloc, of, pos, false, clock, name + 1)?);
    }
    expect_name(tokens, first)?;
    let clock = word_at(alloc, tokens, bytes, first)?;
    Ok(built::sampled(alloc, of, pos, true, clock, first + 1)?)
}

/// `"if" expr "then" expr "else" cond | arrow`
#[cycle(reader)]
fn read_condition(
    alloc: Global,
    tokens: &[Token],
    bytes: &[u8],
    at: usize,
    counts: Counts,
) -> Result<Found, Stop>
    requires { AreFirst bytes.now tokens.now }
    ensures reads { Outcome bytes.now tokens.now Condition at counts result }
    ensures onward { Onward tokens.now at result }
{
    if is_keyword(tokens, at, Keyword::If) {
        return read_if(alloc, tokens, bytes, at, counts);
    }
    read_arrow(alloc, tokens, bytes, at, counts)
}

/// `"if" expr "then" expr "else" cond`
#[cycle(reader)]
fn read_if(
    alloc: Global,
    tokens: &[Token],
    bytes: &[u8],
    at: usize,
    counts: Counts,
) -> Result<Found, Stop>
    requires first { AreFirst bytes.now tokens.now }
    requires here { (stream bytes.now tokens.now at).class ≡ Some (C.Keyword K.If) }
    requires inside { at < length tokens.now }
    ensures reads { Outcome bytes.now tokens.now Condition at counts result }
    ensures onward { Onward tokens.now at result }
{
    let test = read_expression(alloc, tokens, bytes, at + 1, counts)?;
    expect_keyword(tokens, test.next, Keyword::Then)?;
    let yes = read_expression(alloc, tokens, bytes, test.next + 1, test.counts)?;
    expect_keyword(tokens, yes.next, Keyword::Else)?;
    let no = read_condition(alloc, tokens, bytes, yes.next + 1, yes.counts)?;
    Ok(built::choice(alloc, pos_at(tokens, at), test, yes, no)?)
}

/// `impl [ "->" cond ]`
#[cycle(reader)]
fn read_arrow(
    alloc: Global,
    tokens: &[Token],
    bytes: &[u8],
    at: usize,
    counts: Counts,
) -> Result<Found, Stop>
    requires { AreFirst bytes.now tokens.now }
    ensures reads { Outcome bytes.now tokens.now Arrow at counts result }
    ensures onward { Onward tokens.now at result }
{
    let left = read_implication(alloc, tokens, bytes, at, counts)?;
    let sign = left.next;
    if !is_sign(tokens, sign, Sign::Arrow) {
        return Ok(left);
    }
    let behind = one_arrow(left.counts)?;
    let right = read_condition(alloc, tokens, bytes, sign + 1, behind)?;
    let pos = pos_at(tokens, sign);
    Ok(built::arrow(alloc, behind.arrows, left, pos, right)?)
}

/// `disj [ "=>" impl ]`
#[cycle(reader)]
fn read_implication(
    alloc: Global,
    tokens: &[Token],
    bytes: &[u8],
    at: usize,
    counts: Counts,
) -> Result<Found, Stop>
    requires { AreFirst bytes.now tokens.now }
    ensures reads { Outcome bytes.now tokens.now Implication at counts result }
    ensures onward { Onward tokens.now at result }
{
    let left = read_chain(alloc, tokens, bytes, Level::Disjunctions, at, counts)?;
    let sign = left.next;
    if !is_sign(tokens, sign, Sign::Implies) {
        return Ok(left);
    }
    let right = read_implication(alloc, tokens, bytes, sign + 1, left.counts)?;
    let pos = pos_at(tokens, sign);
    Ok(built::binary(alloc, Operator::Implies, left, pos, right)?)
}

/// `operand { operator operand }`, grouped to the left
#[cycle(reader)]
fn read_chain(
    alloc: Global,
    tokens: &[Token],
    bytes: &[u8],
    level: Level,
    at: usize,
    counts: Counts,
) -> Result<Found, Stop>
    requires { AreFirst bytes.now tokens.now }
    ensures reads { Outcome bytes.now tokens.now (Chain (level_view level)) at counts result }
    ensures onward { Onward tokens.now at result }
{
    let first = read_operand(alloc, tokens, bytes, level, at, counts)?;
    read_rest(alloc, tokens, bytes, level, first)
}

/// What stands between the operators of a level.
#[cycle(reader)]
fn read_operand(
    alloc: Global,
    tokens: &[Token],
    bytes: &[u8],
    level: Level,
    at: usize,
    counts: Counts,
) -> Result<Found, Stop>
    requires { AreFirst bytes.now tokens.now }
    ensures reads { Outcome bytes.now tokens.now (operand (level_view level)) at counts result }
    ensures onward { Onward tokens.now at result }
{
    let unary = read_unary(alloc, tokens, bytes, at, counts)?;
    read_upward(alloc, tokens, bytes, level, unary)
}

/// The operand of a level that begins with a unary: from there the levels are climbed, so that
/// few calls stand between two parentheses.
#[cycle(reader)]
fn read_upward(
    alloc: Global,
    tokens: &[Token],
    bytes: &[u8],
    level: Level,
    of: Found,
) -> Result<Found, Stop>
    requires { AreFirst bytes.now tokens.now }
    ensures goes { Goes bytes.now tokens.now Unary (operand (level_view level)) of result }
    ensures further { Further tokens.now of result }
{
    match level {
        Level::Products => Ok(of),
        Level::Sums => read_rest(alloc, tokens, bytes, Level::Products, of),
        Level::Conjunctions => {
            let product = read_upward(alloc, tokens, bytes, Level::Sums, of)?;
            let sum = read_rest(alloc, tokens, bytes, Level::Sums, product)?;
            read_comparison(alloc, tokens, bytes, sum)
        }
        Level::Disjunctions => {
            let relation = read_upward(alloc, tokens, bytes, Level::Conjunctions, of)?;
            read_rest(alloc, tokens, bytes, Level::Conjunctions, relation)
        }
    }
}

/// `{ operator operand }` behind the first operand of a level
#[cycle(reader)]
fn read_rest(
    alloc: Global,
    tokens: &[Token],
    bytes: &[u8],
    level: Level,
    of: Found,
) -> Result<Found, Stop>
    requires { AreFirst bytes.now tokens.now }
    ensures goes { Goes bytes.now tokens.now (operand (level_view level)) (Chain (level_view level)) of result }
    ensures further { Further tokens.now of result }
{
    let mut left = of;
    while let Some(operator) = operator_at(tokens, left.next, level) {
        let sign = left.next;
        let right = read_operand(alloc, tokens, bytes, level, sign + 1, left.counts)?;
        left = built::binary(alloc, operator, left, pos_at(tokens, sign), right)?;
    }
    Ok(left)
}

/// `[ ("<" | "<=" | "=" | "<>" | ">=" | ">") sum ]` behind a sum
#[cycle(reader)]
fn read_comparison(
    alloc: Global,
    tokens: &[Token],
    bytes: &[u8],
    left: Found,
) -> Result<Found, Stop>
    requires { AreFirst bytes.now tokens.now }
    ensures goes { Goes bytes.now tokens.now (Chain Sums) Relation left result }
    ensures further { Further tokens.now left result }
{
    let sign = left.next;
    match relation_at(tokens, sign) {
        Some(operator) => {
            let right = read_chain(alloc, tokens, bytes, Level::Sums, sign + 1, left.counts)?;
            Ok(built::binary(alloc, operator, left, pos_at(tokens, sign), right)?)
        }
        None => Ok(left),
    }
}

/// `("not" | "-" | "pre") unary | primary`
#[cycle(reader)]
fn read_unary(
    alloc: Global,
    tokens: &[Token],
    bytes: &[u8],
    at: usize,
    counts: Counts,
) -> Result<Found, Stop>
    requires { AreFirst bytes.now tokens.now }
    ensures reads { Outcome bytes.now tokens.now Unary at counts result }
    ensures onward { Onward tokens.now at result }
{
    if is_keyword(tokens, at, Keyword::Not) {
        let of = read_unary(alloc, tokens, bytes, at + 1, counts)?;
        return Ok(built::negation(alloc, pos_at(tokens, at), of)?);
    }
    if is_sign(tokens, at, Sign::Minus) {
        let of = read_unary(alloc, tokens, bytes, at + 1, counts)?;
        return Ok(built::minus(alloc, pos_at(tokens, at), of)?);
    }
    if is_keyword(tokens, at, Keyword::Pre) {
        let behind = one_pre(counts)?;
        let of = read_unary(alloc, tokens, bytes, at + 1, behind)?;
        return Ok(built::pre(alloc, pos_at(tokens, at), behind.pres, of)?);
    }
    read_primary(alloc, tokens, bytes, at, counts)
}
