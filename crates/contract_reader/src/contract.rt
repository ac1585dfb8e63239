//! Reads contracts and their items.

ghost use Rattle.std.specs.Prelude.{◌≡◌, ◌<◌, ◌≤◌, length, map, IfOk, IfErr, Some};
ghost use Rattle.lus_tree.specs.View.{contract_item_view, contract_view};
ghost use Rattle.lus_grammar.specs.Stream.{stream};
ghost use Rattle.lus_grammar.specs.Phrase as P;
ghost use Rattle.lus_grammar.specs.Phrase.{part, optional, repeated};
ghost use Rattle.lus_grammar.specs.Programs.{contract_statements_of, contract_of};
ghost use Rattle.lus_grammar.specs.Source.{AreTokens};
ghost use Rattle.contract_reader.specs.Begin.{contract_item_class};
ghost use Rattle.contract_reader.specs.Values.{closing_of, enclosed_of};
ghost use Rattle.lus_reader.specs.Told.{ReadsFrom, RefusesFrom};
ghost use Rattle.contract_reader.specs.Told.{ReadsContractItem};

use crate::begin::{ContractItemStart, contract_item_start, contract_start};
use crate::import::read_import;
use crate::mode::{ModeItems, read_mode_items};
use lus_lexer::{Class, Closing, Keyword, Opening, Sign, Token};
use lus_reader::{Counts, class_at, expect, identifier, push, read_ended, read_labelled, sort};
use lus_tree::{ContractItem, Param, Refusal};
use std::alloc::Global;

/// `[ contract ]`
pub fn read_contract(
    alloc: Global,
    tokens: &[Token],
    bytes: &[u8],
    at: u32,
    counts: &mut Counts,
) -> Result<(Option<Vec<ContractItem>>, u32), Refusal>
    requires cut { AreTokens bytes.now tokens.now }
    requires small { length bytes.now ≤ 1048576 }
    requires few { length tokens.now ≤ 1048576 }
    requires inside { at ≤ length tokens.now }
    ensures run { IfOk result (λ r. ReadsFrom contract_of bytes.now tokens.now
        (optional (part P.Contract)) at counts.old r.1 counts.new (contract_view r.0)) }
    ensures stop { IfErr result (λ e. RefusesFrom bytes.now tokens.now (optional (part P.Contract)) at counts.old e) }
    ensures inside { IfOk result (λ r. (at ≤ r.1) × (r.1 ≤ length tokens.now)) }
{
    let Some(opening) = contract_start(class_at(tokens, at)) else {
        return Ok((None, at));
    };
    let (items, next) = read_enclosed(alloc, tokens, bytes, at, opening, counts)?;
    Ok((Some(items), next))
}

/// What closes a contract.
fn closing(opening: Opening) -> Closing
    ensures { result ≡ closing_of opening }
{
    match opening {
        Opening::Round => Closing::Round,
        Opening::Slash => Closing::Slash,
    }
}

/// A contract, whose opening token stands here
fn read_enclosed(
    alloc: Global,
    tokens: &[Token],
    bytes: &[u8],
    at: u32,
    opening: Opening,
    counts: &mut Counts,
) -> Result<(Vec<ContractItem>, u32), Refusal>
    requires cut { AreTokens bytes.now tokens.now }
    requires small { length bytes.now ≤ 1048576 }
    requires few { length tokens.now ≤ 1048576 }
    requires word { (stream bytes.now tokens.now at).class ≡ Some (Class.ContractOpen opening) }
    requires inside { at < length tokens.now }
    ensures run { IfOk result (λ r. ReadsFrom enclosed_of bytes.now tokens.now
        (part P.Contract) at counts.old r.1 counts.new (Some (map contract_item_view r.0.items))) }
    ensures stop { IfErr result (λ e. RefusesFrom bytes.now tokens.now (part P.Contract) at counts.old e) }
    ensures inside { IfOk result (λ r. (at < r.1) × (r.1 ≤ length tokens.now)) }
{
    let (items, close) = read_contract_items(alloc, tokens, bytes, at + 1, counts)?;
    let class = Class::ContractClose(closing(opening));
    let next = expect(alloc, tokens, bytes, close, class)?;
    Ok((items, next))
}

/// `{ citem }`
pub fn read_contract_items(
    alloc: Global,
    tokens: &[Token],
    bytes: &[u8],
    at: u32,
    counts: &mut Counts,
) -> Result<(Vec<ContractItem>, u32), Refusal>
    requires cut { AreTokens bytes.now tokens.now }
    requires small { length bytes.now ≤ 1048576 }
    requires few { length tokens.now ≤ 1048576 }
    requires inside { at ≤ length tokens.now }
    ensures run { IfOk result (λ r. ReadsFrom contract_statements_of bytes.now tokens.now
        (repeated (part P.ContractItem)) at counts.old r.1 counts.new (map contract_item_view r.0.items)) }
    ensures stop { IfErr result (λ e. RefusesFrom bytes.now tokens.now
        (repeated (part P.ContractItem)) at counts.old e) }
    ensures inside { IfOk result (λ r. (at ≤ r.1) × (r.1 ≤ length tokens.now)) }
{
    let mut items = Vec::new(alloc);
    let mut next = at;
    while let Some(start) = contract_item_start(class_at(tokens, next)) {
        let (item, end) = read_contract_item(alloc, tokens, bytes, next, start, counts)?;
        push(&mut items, item)?;
        next = end;
    }
    Ok((items, next))
}

/// An item of a contract.
fn read_contract_item(
    alloc: Global,
    tokens: &[Token],
    bytes: &[u8],
    at: u32,
    start: ContractItemStart,
    counts: &mut Counts,
) -> Result<(ContractItem, u32), Refusal>
    requires cut { AreTokens bytes.now tokens.now }
    requires small { length bytes.now ≤ 1048576 }
    requires few { length tokens.now ≤ 1048576 }
    requires word { (stream bytes.now tokens.now at).class ≡ Some (contract_item_class start) }
    requires inside { at < length tokens.now }
    ensures run { IfOk result (λ r. ReadsContractItem bytes.now tokens.now at counts.old r.1 counts.new r.0) }
    ensures stop { IfErr result (λ e. RefusesFrom bytes.now tokens.now (part P.ContractItem) at counts.old e) }
    ensures inside { IfOk result (λ r. (at < r.1) × (r.1 ≤ length tokens.now)) }
{
    match start {
        ContractItemStart::Assume => read_assumption(alloc, tokens, bytes, at, counts),
        ContractItemStart::Guarantee => read_guarantee(alloc, tokens, bytes, at, counts),
        ContractItemStart::Ghost => read_ghost(alloc, tokens, bytes, at, counts),
        ContractItemStart::Constant => read_constant(alloc, tokens, bytes, at, counts),
        ContractItemStart::Mode => read_mode(alloc, tokens, bytes, at, counts),
        ContractItemStart::Import => read_import(alloc, tokens, bytes, at, counts),
    }
}

/// `"assume" [ TEXT ] expr ";"`
fn read_assumption(
    alloc: Global,
    tokens: &[Token],
    bytes: &[u8],
    at: u32,
    counts: &mut Counts,
) -> Result<(ContractItem, u32), Refusal>
    requires cut { AreTokens bytes.now tokens.now }
    requires small { length bytes.now ≤ 1048576 }
    requires few { length tokens.now ≤ 1048576 }
    requires word { (stream bytes.now tokens.now at).class ≡ Some (Class.Keyword Keyword.Assume) }
    requires inside { at < length tokens.now }
    ensures run { IfOk result (λ r. ReadsContractItem bytes.now tokens.now at counts.old r.1 counts.new r.0) }
    ensures stop { IfErr result (λ e. RefusesFrom bytes.now tokens.now (part P.ContractItem) at counts.old e) }
    ensures inside { IfOk result (λ r. (at < r.1) × (r.1 ≤ length tokens.now)) }
{
    let (named, next) = read_labelled(alloc, tokens, bytes, at, counts)?;
    Ok((ContractItem::Assume(named), next))
}

/// `"guarantee" [ TEXT ] expr ";"`
fn read_guarantee(
    alloc: Global,
    tokens: &[Token],
    bytes: &[u8],
    at: u32,
    counts: &mut Counts,
) -> Result<(ContractItem, u32), Refusal>
    requires cut { AreTokens bytes.now tokens.now }
    requires small { length bytes.now ≤ 1048576 }
    requires few { length tokens.now ≤ 1048576 }
    requires word { (stream bytes.now tokens.now at).class ≡ Some (Class.Keyword Keyword.Guarantee) }
    requires inside { at < length tokens.now }
    ensures run { IfOk result (λ r. ReadsContractItem bytes.now tokens.now at counts.old r.1 counts.new r.0) }
    ensures stop { IfErr result (λ e. RefusesFrom bytes.now tokens.now (part P.ContractItem) at counts.old e) }
    ensures inside { IfOk result (λ r. (at < r.1) × (r.1 ≤ length tokens.now)) }
{
    let (named, next) = read_labelled(alloc, tokens, bytes, at, counts)?;
    Ok((ContractItem::Guarantee(named), next))
}

/// `"var" ID ":" sort "=" expr ";"`
fn read_ghost(
    alloc: Global,
    tokens: &[Token],
    bytes: &[u8],
    at: u32,
    counts: &mut Counts,
) -> Result<(ContractItem, u32), Refusal>
    requires cut { AreTokens bytes.now tokens.now }
    requires small { length bytes.now ≤ 1048576 }
    requires few { length tokens.now ≤ 1048576 }
    requires word { (stream bytes.now tokens.now at).class ≡ Some (Class.Keyword Keyword.Var) }
    requires inside { at < length tokens.now }
    ensures run { IfOk result (λ r. ReadsContractItem bytes.now tokens.now at counts.old r.1 counts.new r.0) }
    ensures stop { IfErr result (λ e. RefusesFrom bytes.now tokens.now (part P.ContractItem) at counts.old e) }
    ensures inside { IfOk result (λ r. (at < r.1) × (r.1 ≤ length tokens.now)) }
{
    let (name, colon) = identifier(alloc, tokens, bytes, at + 1)?;
    let kind = expect(alloc, tokens, bytes, colon, Class::Sign(Sign::Colon))?;
    let (sort, equals) = sort(alloc, tokens, bytes, kind)?;
    let first = expect(alloc, tokens, bytes, equals, Class::Sign(Sign::Equals))?;
    let (value, next) = read_ended(alloc, tokens, bytes, first, counts)?;
    let param = Param {
        name,
        sort,
        clock: None,
    };
    Ok((ContractItem::Ghost(param, value), next))
}

/// `const ..`
fn read_constant(
    alloc: Global,
    tokens: &[Token],
    bytes: &[u8],
    at: u32,
    counts: &mut Counts,
) -> Result<(ContractItem, u32), Refusal>
    requires cut { AreTokens bytes.now tokens.now }
    requires small { length bytes.now ≤ 1048576 }
    requires few { length tokens.now ≤ 1048576 }
    requires word { (stream bytes.now tokens.now at).class ≡ Some (Class.Keyword Keyword.Const) }
    requires inside { at < length tokens.now }
    ensures run { IfOk result (λ r. ReadsContractItem bytes.now tokens.now at counts.old r.1 counts.new r.0) }
    ensures stop { IfErr result (λ e. RefusesFrom bytes.now tokens.now (part P.ContractItem) at counts.old e) }
    ensures inside { IfOk result (λ r. (at < r.1) × (r.1 ≤ length tokens.now)) }
{
    let (definition, next) = lus_reader::read_constant(alloc, tokens, bytes, at, counts)?;
    Ok((ContractItem::Constant(definition), next))
}

/// `"mode" ID "(" { .. } ")" ";"`
fn read_mode(
    alloc: Global,
    tokens: &[Token],
    bytes: &[u8],
    at: u32,
    counts: &mut Counts,
) -> Result<(ContractItem, u32), Refusal>
    requires cut { AreTokens bytes.now tokens.now }
    requires small { length bytes.now ≤ 1048576 }
    requires few { length tokens.now ≤ 1048576 }
    requires word { (stream bytes.now tokens.now at).class ≡ Some (Class.Keyword Keyword.Mode) }
    requires inside { at < length tokens.now }
    ensures run { IfOk result (λ r. ReadsContractItem bytes.now tokens.now at counts.old r.1 counts.new r.0) }
    ensures stop { IfErr result (λ e. RefusesFrom bytes.now tokens.now (part P.ContractItem) at counts.old e) }
    ensures inside { IfOk result (λ r. (at < r.1) × (r.1 ≤ length tokens.now)) }
{
    let (name, open) = identifier(alloc, tokens, bytes, at + 1)?;
    let first = expect(alloc, tokens, bytes, open, Class::Sign(Sign::Open))?;
    let (items, close) = read_mode_items(alloc, tokens, bytes, first, counts)?;
    let end = expect(alloc, tokens, bytes, close, Class::Sign(Sign::Close))?;
    let next = expect(alloc, tokens, bytes, end, Class::Sign(Sign::Semicolon))?;
    let ModeItems { required, ensured } = items;
    Ok((ContractItem::Mode(name, required, ensured), next))
}
