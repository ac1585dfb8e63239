//! Reads programs.

ghost use Rattle.std.specs.Prelude.{◌≤◌, length, IfOk, IfErr};
ghost use Rattle.lus_tree.specs.Reason.{refusal_view};
ghost use Rattle.lus_tree.specs.View.{program_view};
ghost use Rattle.lus_grammar.specs.Source.{IsSource, IsRefusal, OneTree};

use crate::declaration::read_declarations;
use lus_lexer::tokens;
use lus_reader::refusal_at;
use lus_tree::{Program, Refusal};
use std::alloc::Global;

/// The tree of a source of at most 1,048,576 bytes. One that is none is refused at its first
/// token with which no program goes on, or at its end, or for what its tokens are refused;
/// under `Memory` the place says nothing.
pub fn read_program(alloc: Global, bytes: &[u8]) -> Result<Program, Refusal>
    requires { length bytes.now ≤ 1048576 }
    ensures found { IfOk result (λ p. IsSource bytes.now (program_view p)) }
    ensures refused { IfErr result (λ e. IsRefusal bytes.now (refusal_view e)) }
{
    let tokens = tokens(alloc, bytes)?;
    let (program, next) = read_declarations(alloc, &tokens, bytes)?;
    if (next as usize) < tokens.len() {
        return Err(refusal_at(alloc, &tokens, bytes, next));
    }
    Ok(program)
}

/// No text has two trees.
pub fn one_tree()
    ensures { OneTree }
{}
