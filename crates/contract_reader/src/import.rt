//! Reads imports of contracts.

ghost use Rattle.std.specs.Prelude.{◌≡◌, ◌<◌, ◌≤◌, length, map, IfOk, IfErr, Some};
ghost use Rattle.lus_tree.specs.View.{expr_view, word_view};
ghost use Rattle.lus_grammar.specs.Stream.{stream};
ghost use Rattle.lus_grammar.specs.Phrase as P;
ghost use Rattle.lus_grammar.specs.Phrase.{part, limited, optional, repeated, sign, ◌⨾◌};
ghost use Rattle.lus_grammar.specs.Syntax.{Counts as Occurrences};
ghost use Rattle.lus_grammar.specs.Programs.{import_arguments_of, more_arguments_of, optional_names_of};
ghost use Rattle.lus_grammar.specs.Source.{AreTokens};
ghost use Rattle.contract_reader.specs.Parts.{IsOutputs};
ghost use Rattle.contract_reader.specs.Values.{behind, outputs};
ghost use Rattle.lus_reader.specs.Told.{ReadsAt, RefusesAt, ReadsFrom, RefusesFrom};
ghost use Rattle.contract_reader.specs.Told.{ReadsContractItem};

use crate::begin::{begins_expression, is_comma, is_name};
use lus_lexer::{Class, Keyword, Sign, Token};
use lus_reader::{Counts, class_at, expect, identifier, names, out_of_memory, push, read_expr};
use lus_tree::{ContractItem, Expr, PlacedName, Refusal};
use std::alloc::Global;

/// `"import" ID "(" [ exprs ] ")" "returns" "(" [ names ] ")" ";"`
pub fn read_import(
    alloc: Global,
    tokens: &[Token],
    bytes: &[u8],
    at: u32,
    counts: &mut Counts,
) -> Result<(ContractItem, u32), Refusal>
    requires cut { AreTokens bytes.now tokens.now }
    requires small { length bytes.now ≤ 1048576 }
    requires few { length tokens.now ≤ 1048576 }
    requires word { (stream bytes.now tokens.now at).class ≡ Some (Class.Keyword Keyword.Import) }
    requires inside { at < length tokens.now }
    ensures run { IfOk result (λ r. ReadsContractItem bytes.now tokens.now at counts.old r.1 counts.new r.0) }
    ensures stop { IfErr result (λ e. RefusesFrom bytes.now tokens.now (part P.ContractItem) at counts.old e) }
    ensures inside { IfOk result (λ r. (at < r.1) × (r.1 ≤ length tokens.now)) }
{
    let Some(number) = counts.calls.checked_add(1) else {
        return Err(out_of_memory());
    };
    counts.calls = number;
    let (contract, open) = identifier(alloc, tokens, bytes, at + 1)?;
    let first = expect(alloc, tokens, bytes, open, Class::Sign(Sign::Open))?;
    let (arguments, close) = read_arguments(alloc, tokens, bytes, first, counts)?;
    let end = expect(alloc, tokens, bytes, close, Class::Sign(Sign::Close))?;
    let given = expect(alloc, tokens, bytes, end, Class::Keyword(Keyword::Returns))?;
    let (outputs, next) = read_outputs(alloc, tokens, bytes, given)?;
    Ok((
        ContractItem::Import(number, contract, arguments, outputs),
        next,
    ))
}

/// `[ exprs ]`, each with the limit for itself
fn read_arguments(
    alloc: Global,
    tokens: &[Token],
    bytes: &[u8],
    at: u32,
    counts: &mut Counts,
) -> Result<(Vec<Expr>, u32), Refusal>
    requires cut { AreTokens bytes.now tokens.now }
    requires small { length bytes.now ≤ 1048576 }
    requires few { length tokens.now ≤ 1048576 }
    requires inside { at ≤ length tokens.now }
    ensures run { IfOk result (λ r. ReadsFrom import_arguments_of bytes.now tokens.now
        (optional (part P.Arguments)) at counts.old r.1 counts.new (map expr_view r.0.items)) }
    ensures stop { IfErr result (λ e. RefusesFrom bytes.now tokens.now (optional (part P.Arguments)) at counts.old e) }
    ensures inside { IfOk result (λ r. (at ≤ r.1) × (r.1 ≤ length tokens.now)) }
{
    let mut arguments = Vec::new(alloc);
    if begins_expression(class_at(tokens, at)) {
        let (first, end) = read_expr(alloc, tokens, bytes, at, counts)?;
        push(&mut arguments, first)?;
        let next = add_arguments(alloc, tokens, bytes, end, &mut arguments, counts)?;
        return Ok((arguments, next));
    }
    Ok((arguments, at))
}

/// `{ "," expr }`, put behind others
fn add_arguments(
    alloc: Global,
    tokens: &[Token],
    bytes: &[u8],
    at: u32,
    arguments: &mut Vec<Expr>,
    counts: &mut Counts,
) -> Result<u32, Refusal>
    requires cut { AreTokens bytes.now tokens.now }
    requires small { length bytes.now ≤ 1048576 }
    requires few { length tokens.now ≤ 1048576 }
    requires inside { at ≤ length tokens.now }
    ensures run { IfOk result (λ r. ReadsFrom
        (behind more_arguments_of (map expr_view arguments.old.items)) bytes.now tokens.now
        (repeated (sign Sign.Comma ⨾ limited P.Expression)) at counts.old r counts.new
        (map expr_view arguments.new.items)) }
    ensures stop { IfErr result (λ e. RefusesFrom bytes.now tokens.now
        (repeated (sign Sign.Comma ⨾ limited P.Expression)) at counts.old e) }
    ensures inside { IfOk result (λ r. (at ≤ r) × (r ≤ length tokens.now)) }
{
    let mut next = at;
    while is_comma(class_at(tokens, next)) {
        let (argument, end) = read_expr(alloc, tokens, bytes, next + 1, counts)?;
        push(arguments, argument)?;
        next = end;
    }
    Ok(next)
}

/// `"(" [ names ] ")" ";"`
fn read_outputs(
    alloc: Global,
    tokens: &[Token],
    bytes: &[u8],
    at: u32,
) -> Result<(Vec<PlacedName>, u32), Refusal>
    requires cut { AreTokens bytes.now tokens.now }
    requires small { length bytes.now ≤ 1048576 }
    requires few { length tokens.now ≤ 1048576 }
    requires inside { at ≤ length tokens.now }
    ensures run { IfOk result (λ r. (n : Occurrences)
        → IsOutputs (stream bytes.now tokens.now) at n r.1 (map word_view r.0.items)) }
    ensures stop { IfErr result (λ e. RefusesAt bytes.now tokens.now outputs at e) }
    ensures inside { IfOk result (λ r. (at < r.1) × (r.1 ≤ length tokens.now)) }
{
    let first = expect(alloc, tokens, bytes, at, Class::Sign(Sign::Open))?;
    let (words, close) = read_optional_names(alloc, tokens, bytes, first)?;
    let end = expect(alloc, tokens, bytes, close, Class::Sign(Sign::Close))?;
    let next = expect(alloc, tokens, bytes, end, Class::Sign(Sign::Semicolon))?;
    Ok((words, next))
}

/// `[ names ]`
fn read_optional_names(
    alloc: Global,
    tokens: &[Token],
    bytes: &[u8],
    at: u32,
) -> Result<(Vec<PlacedName>, u32), Refusal>
    requires cut { AreTokens bytes.now tokens.now }
    requires small { length bytes.now ≤ 1048576 }
    requires few { length tokens.now ≤ 1048576 }
    requires inside { at ≤ length tokens.now }
    ensures run { IfOk result (λ r. ReadsAt optional_names_of bytes.now tokens.now (optional (part P.Names)) at r.1
        (map word_view r.0.items)) }
    ensures stop { IfErr result (λ e. RefusesAt bytes.now tokens.now (optional (part P.Names)) at e) }
    ensures inside { IfOk result (λ r. (at ≤ r.1) × (r.1 ≤ length tokens.now)) }
{
    if is_name(class_at(tokens, at)) {
        let (words, next) = names(alloc, tokens, bytes, at)?;
        return Ok((words, next));
    }
    Ok((Vec::new(alloc), at))
}
