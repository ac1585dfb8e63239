//! Reads the declarations of a program.

ghost use Rattle.std.specs.Prelude.{◌≡◌, ◌<◌, ◌≤◌, length, IfOk, IfErr, Some};
ghost use Rattle.lus_tree.specs.View.{program_view};
ghost use Rattle.lus_tree.specs.Reason.{refusal_view};
ghost use Rattle.lus_grammar.specs.Stream.{stream};
ghost use Rattle.lus_grammar.specs.Phrase as P;
ghost use Rattle.lus_grammar.specs.Phrase.{fresh};
ghost use Rattle.lus_grammar.specs.Syntax.{none_before};
ghost use Rattle.lus_grammar.specs.Programs.{program_of};
ghost use Rattle.lus_grammar.specs.Answers.{Reads, Refuses};
ghost use Rattle.lus_grammar.specs.Source.{AreTokens, program};
ghost use Rattle.contract_reader.specs.Begin.{declaration_class};
ghost use Rattle.lus_reader.specs.Told.{RefusesAt};
ghost use Rattle.contract_reader.specs.Told.{ReadsDeclaration};

use crate::begin::{DeclarationStart, declaration_start};
use crate::node::{read_contract_node, read_node};
use lus_lexer::Token;
use lus_reader::{Counts, class_at, push, read_constant};
use lus_tree::{Decl, Program, Refusal};
use std::alloc::Global;

/// `{ decl }`, from the first token on, and the first token behind it.
pub fn read_declarations(
    alloc: Global,
    tokens: &[Token],
    bytes: &[u8],
) -> Result<(Program, u32), Refusal>
    requires cut { AreTokens bytes.now tokens.now }
    requires small { length bytes.now ≤ 1048576 }
    requires few { length tokens.now ≤ 1048576 }
    ensures run { IfOk result (λ r. Reads program_of
        (stream bytes.now tokens.now) program 0 none_before r.1 none_before (program_view r.0)) }
    ensures stop { IfErr result (λ e. Refuses (stream bytes.now tokens.now) program 0 none_before (refusal_view e)) }
    ensures inside { IfOk result (λ r. r.1 ≤ length tokens.now) }
{
    let mut decls = Vec::new(alloc);
    let mut next = 0;
    while let Some(start) = declaration_start(class_at(tokens, next)) {
        let (decl, end) = read_declaration(alloc, tokens, bytes, next, start)?;
        push(&mut decls, decl)?;
        next = end;
    }
    Ok((Program { decls }, next))
}

/// `const | node | cnode`, whose occurrences are numbered from 1
fn read_declaration(
    alloc: Global,
    tokens: &[Token],
    bytes: &[u8],
    at: u32,
    start: DeclarationStart,
) -> Result<(Decl, u32), Refusal>
    requires cut { AreTokens bytes.now tokens.now }
    requires small { length bytes.now ≤ 1048576 }
    requires few { length tokens.now ≤ 1048576 }
    requires word { (stream bytes.now tokens.now at).class ≡ Some (declaration_class start) }
    requires inside { at < length tokens.now }
    ensures run { IfOk result (λ r. ReadsDeclaration bytes.now tokens.now at r.1 r.0) }
    ensures stop { IfErr result (λ e. RefusesAt bytes.now tokens.now (fresh P.Declaration) at e) }
    ensures inside { IfOk result (λ r. (at < r.1) × (r.1 ≤ length tokens.now)) }
{
    let mut counts = Counts {
        pres: 0,
        arrows: 0,
        calls: 0,
    };
    match start {
        DeclarationStart::Constant => {
            let (definition, next) = read_constant(alloc, tokens, bytes, at, &mut counts)?;
            Ok((Decl::Constant(definition), next))
        }
        DeclarationStart::Node => {
            let (node, next) = read_node(alloc, tokens, bytes, at, false, &mut counts)?;
            Ok((Decl::Node(node), next))
        }
        DeclarationStart::Function => {
            let (node, next) = read_node(alloc, tokens, bytes, at, true, &mut counts)?;
            Ok((Decl::Node(node), next))
        }
        DeclarationStart::Contract => {
            let (contract, next) = read_contract_node(alloc, tokens, bytes, at, &mut counts)?;
            Ok((Decl::Contract(contract), next))
        }
    }
}
