//! Nodes by number and by name, and fronts of a program.

ghost use Rattle.std.specs.Prelude.{◌≤◌, ◌<◌, ◌^◌, length};
ghost use Rattle.lus_tree.specs.View.{program_view};

use crate::words::show_refusal;
use contract_reader::read_program;
use lus_lexer::{end, tokens};
use lus_tree::{Decl, Pos, Program, Refusal, What};
use std::alloc::{AllocError, Global};

/// The names of the nodes by their numbers, up to the first number without one, and the number of
/// each declared name.
pub fn nodes(alloc: Global, bytes: &[u8]) -> Result<String, AllocError>
    requires { length bytes.now ≤ 1048576 }
{
    match read_program(alloc, bytes) {
        Ok(program) if program.decls.len() < 1000 => numbered(alloc, &program),
        Ok(_) => String::from_str(alloc, "too long"),
        Err(refusal) => show_refusal(alloc, &refusal),
    }
}

fn numbered(alloc: Global, program: &Program) -> Result<String, AllocError>
    requires { length (program_view program.now) < 2 ^ 32 }
{
    let mut out = String::new(alloc);
    for number in 0..1000 {
        let Some(node) = program.node(number) else {
            write!(out, "no node {number};")?;
            break;
        };
        let name = node.name.text.as_str();
        write!(out, "node {number} is {name}; ")?;
    }
    for decl in &program.decls {
        let name = match decl {
            Decl::Constant(definition) => &definition.name,
            Decl::Node(node) => &node.name,
            Decl::Contract(contract) => &contract.name,
        };
        let name = name.text.as_str();
        match program.named(name) {
            Some(number) => write!(out, " {name} is node {number};")?,
            None => write!(out, " {name} is no node;")?,
        }
    }
    Ok(out)
}

/// How many tokens there are, and how many of the fronts that end with a token are refused at
/// their ends as `Unexpected`, are read, and neither.
pub fn fronts(alloc: Global, bytes: &[u8]) -> Result<String, AllocError>
    requires { length bytes.now ≤ 1048576 }
{
    let all = match tokens(alloc, bytes) {
        Ok(all) => all,
        Err(refusal) => return show_refusal(alloc, &refusal),
    };
    let (mut refused, mut read, mut other) = (0u64, 0u64, 0u64);
    for token in &all {
        match read_front(alloc, bytes, token.to as usize) {
            Front::Refused => refused = refused.saturating_add(1),
            Front::Read => read = read.saturating_add(1),
            Front::Other => other = other.saturating_add(1),
        }
    }
    let count = all.len();
    format!(in alloc;
        "{count} tokens: {refused} fronts refused at their ends, {read} read, {other} other"
    )
}

/// What comes of a front.
#[derive(Clone, Copy)]
enum Front {
    Refused,
    Read,
    Other,
}

fn read_front(alloc: Global, bytes: &[u8], to: usize) -> Front
    requires { length bytes.now ≤ 1048576 }
{
    if to > bytes.len() {
        return Front::Other;
    }
    let front = &bytes[..to];
    match read_program(alloc, front) {
        Ok(_) => Front::Read,
        Err(refusal) => {
            if is_unexpected(&refusal, end(front)) {
                Front::Refused
            } else {
                Front::Other
            }
        }
    }
}

fn is_unexpected(refusal: &Refusal, at: Pos) -> bool {
    refusal.at == at && matches!(&refusal.what, What::Unexpected)
}
