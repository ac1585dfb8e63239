//! How many tokens or declarations a source has, for the benchmarks of the lexer and of the reader.

ghost use Rattle.std.specs.Prelude.{◌≤◌, length};

use crate::words::show_refusal;
use contract_reader::read_program;
use lus_lexer::tokens;
use std::alloc::{AllocError, Global};

/// The number of tokens, or the first fault.
pub fn tokens_of(alloc: Global, bytes: &[u8]) -> Result<String, AllocError>
    requires { length bytes.now ≤ 1048576 }
{
    match tokens(alloc, bytes) {
        Ok(tokens) => number(alloc, tokens.len()),
        Err(refusal) => show_refusal(alloc, &refusal),
    }
}

/// The number of declarations, or the refusal.
pub fn declarations_of(alloc: Global, bytes: &[u8]) -> Result<String, AllocError>
    requires { length bytes.now ≤ 1048576 }
{
    match read_program(alloc, bytes) {
        Ok(program) => number(alloc, program.decls.len()),
        Err(refusal) => show_refusal(alloc, &refusal),
    }
}

fn number(alloc: Global, count: usize) -> Result<String, AllocError> {
    format!(in alloc; "{count}")
}
