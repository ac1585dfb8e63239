//! Reads the locals of a node.

ghost use Rattle.std.specs.Prelude.{◌≡◌, ◌<◌, ◌≤◌, ◌++◌, length, map, IfOk, IfErr, Some};
ghost use Rattle.lus_tree.specs.Tree.{Constant};
ghost use Rattle.lus_tree.specs.View.{param_view, definition_view};
ghost use Rattle.lus_tree.specs.Reason.{refusal_view, memory};
ghost use Rattle.lus_grammar.specs.Stream.{stream};
ghost use Rattle.lus_grammar.specs.Phrase as P;
ghost use Rattle.lus_grammar.specs.Phrase.{part, repeated, ◌⨾◌};
ghost use Rattle.lus_grammar.specs.Grammar.{semicolon};
ghost use Rattle.lus_grammar.specs.Source.{AreTokens};
ghost use Rattle.contract_reader.specs.Begin.{locals_class};
ghost use Rattle.contract_reader.specs.Values.{locals_of};
ghost use Rattle.lus_reader.specs.Told.{RefusesAt, ReadsFrom, RefusesFrom};
ghost use Rattle.contract_reader.specs.Told.{GrowsLocals, GrowsVariables, GrowsGroup, RefusesBefore};

use crate::begin::{LocalsStart, is_name, locals_start};
use lus_lexer::{Class, Keyword, Sign, Token};
use lus_reader::{Counts, class_at, expect, local_group, out_of_memory, push, read_constant};
use lus_tree::{Definition, Param, Refusal};
use std::alloc::Global;

/// The streams and the constants of a node, each kind in text order.
#[derive(Drop)]
pub struct Locals {
    pub variables: Vec<Param>,
    pub constants: Vec<Definition>,
}

/// `{ locals }`
pub fn read_locals(
    alloc: Global,
    tokens: &[Token],
    bytes: &[u8],
    at: u32,
    counts: &mut Counts,
) -> Result<(Locals, u32), Refusal>
    requires cut { AreTokens bytes.now tokens.now }
    requires small { length bytes.now ≤ 1048576 }
    requires few { length tokens.now ≤ 1048576 }
    requires inside { at ≤ length tokens.now }
    ensures run { IfOk result (λ r. ReadsFrom locals_of bytes.now tokens.now
        (repeated (part P.Locals)) at counts.old r.1 counts.new
        (map param_view r.0.variables.items, map definition_view r.0.constants.items)) }
    ensures stop { IfErr result (λ e. RefusesFrom bytes.now tokens.now (repeated (part P.Locals)) at counts.old e) }
    ensures inside { IfOk result (λ r. (at ≤ r.1) × (r.1 ≤ length tokens.now)) }
{
    let mut locals = Locals {
        variables: Vec::new(alloc),
        constants: Vec::new(alloc),
    };
    let mut next = at;
    while let Some(start) = locals_start(class_at(tokens, next)) {
        next = add_locals(alloc, tokens, bytes, next, start, &mut locals, counts)?;
    }
    Ok((locals, next))
}

/// `"var" lgroup ";" { lgroup ";" } | const`, put behind others
fn add_locals(
    alloc: Global,
    tokens: &[Token],
    bytes: &[u8],
    at: u32,
    start: LocalsStart,
    locals: &mut Locals,
    counts: &mut Counts,
) -> Result<u32, Refusal>
    requires cut { AreTokens bytes.now tokens.now }
    requires small { length bytes.now ≤ 1048576 }
    requires few { length tokens.now ≤ 1048576 }
    requires word { (stream bytes.now tokens.now at).class ≡ Some (locals_class start) }
    requires inside { at < length tokens.now }
    ensures run { IfOk result (λ r. GrowsLocals bytes.now tokens.now at counts.old r counts.new
        locals.old locals.new) }
    ensures stop { IfErr result (λ e. RefusesFrom bytes.now tokens.now (part P.Locals) at counts.old e) }
    ensures inside { IfOk result (λ r. (at < r) × (r ≤ length tokens.now)) }
{
    match start {
        LocalsStart::Variables => {
            let next = add_variables(alloc, tokens, bytes, at, &mut locals.variables)?;
            Ok(next)
        }
        LocalsStart::Constant => {
            let (definition, next) = read_constant(alloc, tokens, bytes, at, counts)?;
            push(&mut locals.constants, definition)?;
            Ok(next)
        }
    }
}

/// `"var" lgroup ";" { lgroup ";" }`, put behind others
fn add_variables(
    alloc: Global,
    tokens: &[Token],
    bytes: &[u8],
    at: u32,
    variables: &mut Vec<Param>,
) -> Result<u32, Refusal>
    requires cut { AreTokens bytes.now tokens.now }
    requires small { length bytes.now ≤ 1048576 }
    requires few { length tokens.now ≤ 1048576 }
    requires word { (stream bytes.now tokens.now at).class ≡ Some (Class.Keyword Keyword.Var) }
    requires inside { at < length tokens.now }
    ensures run { IfOk result (λ r. GrowsVariables bytes.now tokens.now at r variables.old.items variables.new.items) }
    ensures stop { IfErr result (λ e. RefusesAt bytes.now tokens.now (part P.Locals) at e) }
    ensures inside { IfOk result (λ r. (at < r) × (r ≤ length tokens.now)) }
{
    let mut next = add_group(alloc, tokens, bytes, at + 1, variables)?;
    while is_name(class_at(tokens, next)) {
        next = add_group(alloc, tokens, bytes, next, variables)?;
    }
    Ok(next)
}

/// `lgroup ";"`, put behind others
fn add_group(
    alloc: Global,
    tokens: &[Token],
    bytes: &[u8],
    at: u32,
    variables: &mut Vec<Param>,
) -> Result<u32, Refusal>
    requires cut { AreTokens bytes.now tokens.now }
    requires small { length bytes.now ≤ 1048576 }
    requires few { length tokens.now ≤ 1048576 }
    requires inside { at ≤ length tokens.now }
    ensures run { IfOk result (λ r. GrowsGroup bytes.now tokens.now at r variables.old.items variables.new.items) }
    ensures stop { IfErr result (λ e. RefusesAt bytes.now tokens.now (part P.LocalGroup ⨾ semicolon) at e) }
    ensures stop_before { IfErr result
        (λ e. RefusesBefore (λ h. part P.LocalGroup ⨾ semicolon ⨾ h) bytes.now tokens.now at e) }
    ensures inside { IfOk result (λ r. (at < r) × (r ≤ length tokens.now)) }
{
    let (group, end) = local_group(alloc, tokens, bytes, at)?;
    let next = expect(alloc, tokens, bytes, end, Class::Sign(Sign::Semicolon))?;
    append(variables, group)?;
    Ok(next)
}

/// Puts values behind a list's last one. The refusal is `Memory`, and leaves the list as it was.
fn append<T: Drop>(list: &mut Vec<T>, values: Vec<T>) -> Result<(), Refusal>
    ensures items { IfOk result (λ u. list.new.items ≡ list.old.items ++ values.items) }
    ensures memory { IfErr result (λ e. (refusal_view e).reason ≡ memory) }
    ensures kept { IfErr result (λ e. list.new.items ≡ list.old.items) }
{
    let mut values = values;
    match list.append(&mut values) {
        Ok(()) => Ok(()),
        Err(_) => Err(out_of_memory()),
    }
}
