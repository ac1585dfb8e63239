//! Reads nodes, functions and contract nodes.

ghost use Rattle.std.specs.Prelude.{◌≡◌, ◌<◌, ◌≤◌, [], ◌∷◌, List, ℕ, length, IfOk, IfErr, Some};
ghost use Rattle.lus_tree.specs.Tree.{declared_node, declared_contract};
ghost use Rattle.lus_tree.specs.View.{node_view, contract_node_view};
ghost use Rattle.lus_grammar.specs.Stream.{stream};
ghost use Rattle.lus_grammar.specs.Phrase as P;
ghost use Rattle.lus_grammar.specs.Phrase.{part};
ghost use Rattle.lus_grammar.specs.Programs.{nodes_of, contract_nodes_of};
ghost use Rattle.lus_grammar.specs.Source.{AreTokens};
ghost use Rattle.contract_reader.specs.Parts.{headed};
ghost use Rattle.contract_reader.specs.Values.{node_body, node_class};
ghost use Rattle.lus_reader.specs.Told.{ReadsFrom, RefusesFrom};
ghost use Rattle.contract_reader.specs.Told.{ReadsHead, ReadsNodeBody, RefusesBefore, SkipsSemicolon};

use crate::begin::is_semicolon;
use crate::contract::{read_contract, read_contract_items};
use crate::locals::{Locals, read_locals};
use lus_lexer::{Class, Keyword, Sign, Token};
use lus_reader::{Counts, class_at, expect, identifier, parameters, read_body};
use lus_tree::{ContractNode, Item, Node, Param, PlacedName, Refusal};
use std::alloc::Global;

/// What nodes and contract nodes begin with.
#[derive(Drop)]
pub struct Head {
    pub name: PlacedName,
    pub inputs: Vec<Param>,
    pub outputs: Vec<Param>,
}

/// `ID params "returns" params`
fn read_head(alloc: Global, tokens: &[Token], bytes: &[u8], at: u32) -> Result<(Head, u32), Refusal>
    requires cut { AreTokens bytes.now tokens.now }
    requires small { length bytes.now ≤ 1048576 }
    requires few { length tokens.now ≤ 1048576 }
    requires inside { at ≤ length tokens.now }
    ensures run { IfOk result (λ r. ReadsHead bytes.now tokens.now at r.1 r.0) }
    ensures stop { IfErr result (λ e. RefusesBefore headed bytes.now tokens.now at e) }
    ensures inside { IfOk result (λ r. (at < r.1) × (r.1 ≤ length tokens.now)) }
{
    let (name, open) = identifier(alloc, tokens, bytes, at)?;
    let (inputs, end) = parameters(alloc, tokens, bytes, open)?;
    let given = expect(alloc, tokens, bytes, end, Class::Keyword(Keyword::Returns))?;
    let (outputs, next) = parameters(alloc, tokens, bytes, given)?;
    Ok((
        Head {
            name,
            inputs,
            outputs,
        },
        next,
    ))
}

/// `[ ";" ]`
fn past_semicolon(tokens: &[Token], at: u32) -> u32
    requires few { length tokens.now ≤ 1048576 }
    requires inside { at ≤ length tokens.now }
    ensures run { (bytes : List ℕ) → SkipsSemicolon bytes tokens.now at result }
    ensures inside { (at ≤ result) × (result ≤ length tokens.now) }
{
    if is_semicolon(class_at(tokens, at)) {
        at + 1
    } else {
        at
    }
}

/// `("node" | "function") ID params "returns" params [";"] [ contract ] { locals } "let" { item } "tel" [";"]`
pub fn read_node(
    alloc: Global,
    tokens: &[Token],
    bytes: &[u8],
    at: u32,
    function: bool,
    counts: &mut Counts,
) -> Result<(Node, u32), Refusal>
    requires cut { AreTokens bytes.now tokens.now }
    requires small { length bytes.now ≤ 1048576 }
    requires few { length tokens.now ≤ 1048576 }
    requires word { (stream bytes.now tokens.now at).class ≡ Some (node_class function) }
    requires inside { at < length tokens.now }
    ensures run { IfOk result (λ r. ReadsFrom nodes_of bytes.now tokens.now
        (part P.Node) at counts.old r.1 counts.new (declared_node (node_view r.0) ∷ [])) }
    ensures stop { IfErr result (λ e. RefusesFrom bytes.now tokens.now (part P.Node) at counts.old e) }
    ensures inside { IfOk result (λ r. (at < r.1) × (r.1 ≤ length tokens.now)) }
{
    let (head, end) = read_head(alloc, tokens, bytes, at + 1)?;
    let begin = past_semicolon(tokens, end);
    let (contract, behind) = read_contract(alloc, tokens, bytes, begin, counts)?;
    let (locals, word) = read_locals(alloc, tokens, bytes, behind, counts)?;
    let (items, next) = read_node_body(alloc, tokens, bytes, word, counts)?;
    let Head {
        name,
        inputs,
        outputs,
    } = head;
    let Locals {
        variables,
        constants,
    } = locals;
    let node = Node {
        name,
        function,
        inputs,
        outputs,
        locals: variables,
        consts: constants,
        contract,
        items,
    };
    Ok((node, next))
}

/// `"let" { item } "tel" [";"]`
fn read_node_body(
    alloc: Global,
    tokens: &[Token],
    bytes: &[u8],
    at: u32,
    counts: &mut Counts,
) -> Result<(Vec<Item>, u32), Refusal>
    requires cut { AreTokens bytes.now tokens.now }
    requires small { length bytes.now ≤ 1048576 }
    requires few { length tokens.now ≤ 1048576 }
    requires inside { at ≤ length tokens.now }
    ensures run { IfOk result (λ r. ReadsNodeBody bytes.now tokens.now at counts.old r.1 counts.new r.0.items) }
    ensures stop { IfErr result (λ e. RefusesFrom bytes.now tokens.now node_body at counts.old e) }
    ensures inside { IfOk result (λ r. (at < r.1) × (r.1 ≤ length tokens.now)) }
{
    let first = expect(alloc, tokens, bytes, at, Class::Keyword(Keyword::Let))?;
    let (items, last) = read_body(alloc, tokens, bytes, first, counts)?;
    let past = expect(alloc, tokens, bytes, last, Class::Keyword(Keyword::Tel))?;
    Ok((items, past_semicolon(tokens, past)))
}

/// `"contract" ID params "returns" params ";" "let" { citem } "tel" [";"]`
pub fn read_contract_node(
    alloc: Global,
    tokens: &[Token],
    bytes: &[u8],
    at: u32,
    counts: &mut Counts,
) -> Result<(ContractNode, u32), Refusal>
    requires cut { AreTokens bytes.now tokens.now }
    requires small { length bytes.now ≤ 1048576 }
    requires few { length tokens.now ≤ 1048576 }
    requires word { (stream bytes.now tokens.now at).class ≡ Some (Class.Keyword Keyword.Contract) }
    requires inside { at < length tokens.now }
    ensures run { IfOk result (λ r. ReadsFrom contract_nodes_of bytes.now tokens.now
        (part P.ContractNode) at counts.old r.1 counts.new (declared_contract (contract_node_view r.0) ∷ [])) }
    ensures stop { IfErr result (λ e. RefusesFrom bytes.now tokens.now (part P.ContractNode) at counts.old e) }
    ensures inside { IfOk result (λ r. (at < r.1) × (r.1 ≤ length tokens.now)) }
{
    let (head, end) = read_head(alloc, tokens, bytes, at + 1)?;
    let word = expect(alloc, tokens, bytes, end, Class::Sign(Sign::Semicolon))?;
    let first = expect(alloc, tokens, bytes, word, Class::Keyword(Keyword::Let))?;
    let (items, last) = read_contract_items(alloc, tokens, bytes, first, counts)?;
    let past = expect(alloc, tokens, bytes, last, Class::Keyword(Keyword::Tel))?;
    let Head {
        name,
        inputs,
        outputs,
    } = head;
    let node = ContractNode {
        name,
        inputs,
        outputs,
        items,
    };
    Ok((node, past_semicolon(tokens, past)))
}
