//! Declared streams: types, clocks, groups of names and lists of parameters.

ghost use Rattle.std.specs.Prelude.{◌≡◌, ◌<◌, ◌≤◌, ◌++◌, None, map, length, IfOk, IfErr};
ghost use Rattle.lus_tree.specs.Reason.{refusal_view, memory};
ghost use Rattle.lus_tree.specs.View.{word_view, clock_view, param_view};
ghost use Rattle.lus_grammar.specs.Phrase.{optional, part};
ghost use Rattle.lus_grammar.specs.Phrase as P;
ghost use Rattle.lus_grammar.specs.Grammar.{when};
ghost use Rattle.lus_grammar.specs.Source.{AreTokens};
ghost use Rattle.lus_grammar.specs.Programs.{sort_of, clock_of, variable_of, group_of, groups_of, parameters_of, local_group_of};
ghost use Rattle.lus_reader.specs.Values.{typed_of, more_of};
ghost use Rattle.lus_reader.specs.Told.{ReadsAt, RefusesAt};

use crate::list::push;
use crate::look::{expect, is_at, out_of_memory};
use crate::words::{identifier, names};
use lus_lexer::{Class, Keyword, Sign, Token};
use lus_tree::{Param, PlacedName, Refusal, Sort};
use std::alloc::Global;

/// `bool` or `int`, and the place behind it.
pub fn sort(alloc: Global, tokens: &[Token], bytes: &[u8], at: u32) -> Result<(Sort, u32), Refusal>
    requires cut { AreTokens bytes.now tokens.now }
    requires small { length bytes.now ≤ 1048576 }
    ensures run { IfOk result (λ r. ReadsAt sort_of bytes.now tokens.now (part P.Sort) at r.1 r.0) }
    ensures stop { IfErr result (λ e. RefusesAt bytes.now tokens.now (part P.Sort) at e) }
    ensures inside { IfOk result (λ r. (at < r.1) × (r.1 ≤ length tokens.now)) }
{
    if is_at(tokens, at, Class::Keyword(Keyword::Bool)) {
        return Ok((Sort::Bool, at + 1));
    }
    let next = expect(alloc, tokens, bytes, at, Class::Keyword(Keyword::Int))?;
    Ok((Sort::Int, next))
}

/// A clock that may stand there, `when NAME` or `when not NAME`, and the place behind it.
pub fn when_clock(
    alloc: Global,
    tokens: &[Token],
    bytes: &[u8],
    at: u32,
) -> Result<(Option<(bool, PlacedName)>, u32), Refusal>
    requires cut { AreTokens bytes.now tokens.now }
    requires small { length bytes.now ≤ 1048576 }
    requires inside { at ≤ length tokens.now }
    ensures run { IfOk result (λ r. ReadsAt clock_of bytes.now tokens.now (optional when) at r.1 (clock_view r.0)) }
    ensures stop { IfErr result (λ e. RefusesAt bytes.now tokens.now (optional when) at e) }
    ensures inside { IfOk result (λ r. (at ≤ r.1) × (r.1 ≤ length tokens.now)) }
{
    if !is_at(tokens, at, Class::Keyword(Keyword::When)) {
        return Ok((None, at));
    }
    let first = at + 1;
    if is_at(tokens, first, Class::Keyword(Keyword::Not)) {
        let (name, next) = identifier(alloc, tokens, bytes, first + 1)?;
        return Ok((Some((false, name)), next));
    }
    let (name, next) = identifier(alloc, tokens, bytes, first)?;
    Ok((Some((true, name)), next))
}

/// Names, their type, and the place behind it.
fn typed_names(
    alloc: Global,
    tokens: &[Token],
    bytes: &[u8],
    at: u32,
) -> Result<((Vec<PlacedName>, Sort), u32), Refusal>
    requires cut { AreTokens bytes.now tokens.now }
    requires small { length bytes.now ≤ 1048576 }
    ensures run { IfOk result (λ r. ReadsAt typed_of bytes.now tokens.now (part P.Group) at r.1
        (λ c. map (variable_of r.0.1 c) (map word_view r.0.0.items))) }
    ensures stop { IfErr result (λ e. RefusesAt bytes.now tokens.now (part P.Group) at e) }
    ensures inside { IfOk result (λ r. (at < r.1) × (r.1 ≤ length tokens.now)) }
{
    let (words, next) = names(alloc, tokens, bytes, at)?;
    let next = expect(alloc, tokens, bytes, next, Class::Sign(Sign::Colon))?;
    let (of, next) = sort(alloc, tokens, bytes, next)?;
    Ok(((words, of), next))
}

/// Puts streams of one type and one clock behind others.
fn add_params(
    alloc: Global,
    params: &mut Vec<Param>,
    names: Vec<PlacedName>,
    sort: Sort,
    clock: &Option<(bool, PlacedName)>,
) -> Result<(), Refusal>
    ensures params { IfOk result (λ u. map param_view params.new.items ≡ map param_view params.old.items ++ map
        (variable_of sort (clock_view clock.now)) (map word_view names.items)) }
    ensures memory { IfErr result (λ e. (refusal_view e).reason ≡ memory) }
{
    for name in names {
        let clock = copied_clock(alloc, clock)?;
        push(params, Param { name, sort, clock })?;
    }
    Ok(())
}

/// An equal clock.
fn copied_clock(
    alloc: Global,
    clock: &Option<(bool, PlacedName)>,
) -> Result<Option<(bool, PlacedName)>, Refusal>
    ensures clock { IfOk result (λ c. clock_view c ≡ clock_view clock.now) }
    ensures memory { IfErr result (λ e. (refusal_view e).reason ≡ memory) }
{
    match clock {
        Some((on, word)) => match word.copied(alloc) {
            Ok(word) => Ok(Some((*on, word))),
            Err(_) => Err(out_of_memory()),
        },
        None => Ok(None),
    }
}

/// Puts the streams of a group behind others, and gives the place behind the group.
fn add_group(
    alloc: Global,
    tokens: &[Token],
    bytes: &[u8],
    at: u32,
    params: &mut Vec<Param>,
) -> Result<u32, Refusal>
    requires cut { AreTokens bytes.now tokens.now }
    requires small { length bytes.now ≤ 1048576 }
    ensures run { IfOk result (λ r. ReadsAt
        (more_of (map param_view params.old.items) (group_of None)) bytes.now tokens.now (part P.Group) at r
        (map param_view params.new.items)) }
    ensures stop { IfErr result (λ e. RefusesAt bytes.now tokens.now (part P.Group) at e) }
    ensures inside { IfOk result (λ r. (at < r) × (r ≤ length tokens.now)) }
{
    let ((names, sort), next) = typed_names(alloc, tokens, bytes, at)?;
    add_params(alloc, params, names, sort, &None)?;
    Ok(next)
}

/// The streams of a group, `NAMES : TYPE`, and the place behind it.
pub fn group(
    alloc: Global,
    tokens: &[Token],
    bytes: &[u8],
    at: u32,
) -> Result<(Vec<Param>, u32), Refusal>
    requires cut { AreTokens bytes.now tokens.now }
    requires small { length bytes.now ≤ 1048576 }
    ensures run { IfOk result (λ r. ReadsAt (group_of None) bytes.now tokens.now (part P.Group) at r.1
        (map param_view r.0.items)) }
    ensures stop { IfErr result (λ e. RefusesAt bytes.now tokens.now (part P.Group) at e) }
    ensures inside { IfOk result (λ r. (at < r.1) × (r.1 ≤ length tokens.now)) }
{
    let mut params = Vec::new(alloc);
    let next = add_group(alloc, tokens, bytes, at, &mut params)?;
    Ok((params, next))
}

/// The streams of groups with semicolons between them, and the place behind the last one, or
/// behind a last semicolon.
pub fn groups(
    alloc: Global,
    tokens: &[Token],
    bytes: &[u8],
    at: u32,
) -> Result<(Vec<Param>, u32), Refusal>
    requires cut { AreTokens bytes.now tokens.now }
    requires small { length bytes.now ≤ 1048576 }
    ensures run { IfOk result (λ r. ReadsAt groups_of bytes.now tokens.now (part P.Groups) at r.1
        (map param_view r.0.items)) }
    ensures stop { IfErr result (λ e. RefusesAt bytes.now tokens.now (part P.Groups) at e) }
    ensures inside { IfOk result (λ r. (at < r.1) × (r.1 ≤ length tokens.now)) }
{
    let mut params = Vec::new(alloc);
    let mut next = at;
    loop {
        next = add_group(alloc, tokens, bytes, next, &mut params)?;
        if !is_at(tokens, next, Class::Sign(Sign::Semicolon)) {
            return Ok((params, next));
        }
        next += 1;
        if !is_at(tokens, next, Class::Ident) {
            return Ok((params, next));
        }
    }
}

/// The streams of a list in parentheses, which may be empty, and the place behind it.
pub fn parameters(
    alloc: Global,
    tokens: &[Token],
    bytes: &[u8],
    at: u32,
) -> Result<(Vec<Param>, u32), Refusal>
    requires cut { AreTokens bytes.now tokens.now }
    requires small { length bytes.now ≤ 1048576 }
    ensures run { IfOk result (λ r. ReadsAt parameters_of bytes.now tokens.now (part P.Parameters) at r.1
        (map param_view r.0.items)) }
    ensures stop { IfErr result (λ e. RefusesAt bytes.now tokens.now (part P.Parameters) at e) }
    ensures inside { IfOk result (λ r. (at < r.1) × (r.1 ≤ length tokens.now)) }
{
    let first = expect(alloc, tokens, bytes, at, Class::Sign(Sign::Open))?;
    if !is_at(tokens, first, Class::Ident) {
        let next = expect(alloc, tokens, bytes, first, Class::Sign(Sign::Close))?;
        return Ok((Vec::new(alloc), next));
    }
    let (params, close) = groups(alloc, tokens, bytes, first)?;
    let next = expect(alloc, tokens, bytes, close, Class::Sign(Sign::Close))?;
    Ok((params, next))
}

/// Puts the streams of a local group behind others, and gives the place behind the group.
fn add_local_group(
    alloc: Global,
    tokens: &[Token],
    bytes: &[u8],
    at: u32,
    params: &mut Vec<Param>,
) -> Result<u32, Refusal>
    requires cut { AreTokens bytes.now tokens.now }
    requires small { length bytes.now ≤ 1048576 }
    ensures run { IfOk result (λ r. ReadsAt
        (more_of (map param_view params.old.items) local_group_of) bytes.now tokens.now (part P.LocalGroup) at r
        (map param_view params.new.items)) }
    ensures stop { IfErr result (λ e. RefusesAt bytes.now tokens.now (part P.LocalGroup) at e) }
    ensures inside { IfOk result (λ r. (at < r) × (r ≤ length tokens.now)) }
{
    let ((names, sort), next) = typed_names(alloc, tokens, bytes, at)?;
    let (clock, next) = when_clock(alloc, tokens, bytes, next)?;
    add_params(alloc, params, names, sort, &clock)?;
    Ok(next)
}

/// The streams of a local group, `NAMES : TYPE` and perhaps a clock, and the place behind it.
pub fn local_group(
    alloc: Global,
    tokens: &[Token],
    bytes: &[u8],
    at: u32,
) -> Result<(Vec<Param>, u32), Refusal>
    requires cut { AreTokens bytes.now tokens.now }
    requires small { length bytes.now ≤ 1048576 }
    ensures run { IfOk result (λ r. ReadsAt local_group_of bytes.now tokens.now (part P.LocalGroup) at r.1
        (map param_view r.0.items)) }
    ensures stop { IfErr result (λ e. RefusesAt bytes.now tokens.now (part P.LocalGroup) at e) }
    ensures inside { IfOk result (λ r. (at < r.1) × (r.1 ≤ length tokens.now)) }
{
    let mut params = Vec::new(alloc);
    let next = add_local_group(alloc, tokens, bytes, at, &mut params)?;
    Ok((params, next))
}
