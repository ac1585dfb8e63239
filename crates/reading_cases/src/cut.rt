//! Tokens, as text.

ghost use Rattle.std.specs.Prelude.{◌≤◌, length};

use crate::words::{show_place, show_refusal};
use lus_lexer::{Token, end, first_fault, is_name, tokens};
use std::alloc::{AllocError, Global};

/// Each token with the bytes from which to which it goes, or the first fault.
pub fn spans(alloc: Global, bytes: &[u8]) -> Result<String, AllocError>
    requires { length bytes.now ≤ 1048576 }
{
    match tokens(alloc, bytes) {
        Ok(tokens) => show_spans(alloc, &tokens),
        Err(refusal) => show_refusal(alloc, &refusal),
    }
}

fn show_spans(alloc: Global, tokens: &[Token]) -> Result<String, AllocError> {
    let mut text = String::new(alloc);
    for token in tokens {
        let comma = if text.is_empty() { "" } else { ", " };
        let (class, from, to) = (token.class, token.from, token.to);
        write!(text, "{comma}{class:?} {from}-{to}")?;
    }
    Ok(text)
}

/// Each token with its line and column, or the first fault.
pub fn places(alloc: Global, bytes: &[u8]) -> Result<String, AllocError>
    requires { length bytes.now ≤ 1048576 }
{
    match tokens(alloc, bytes) {
        Ok(tokens) => show_places(alloc, &tokens),
        Err(refusal) => show_refusal(alloc, &refusal),
    }
}

fn show_places(alloc: Global, tokens: &[Token]) -> Result<String, AllocError> {
    let mut text = String::new(alloc);
    for token in tokens {
        let comma = if text.is_empty() { "" } else { ", " };
        let class = token.class;
        write!(text, "{comma}{class:?} ")?;
        show_place(&mut text, token.at)?;
    }
    Ok(text)
}

/// The first fault.
pub fn fault(alloc: Global, bytes: &[u8]) -> Result<String, AllocError>
    requires { length bytes.now ≤ 1048576 }
{
    match first_fault(bytes) {
        Some(refusal) => show_refusal(alloc, &refusal),
        None => Ok(String::new(alloc)),
    }
}

/// The place behind the last byte.
pub fn last(alloc: Global, bytes: &[u8]) -> Result<String, AllocError>
    requires { length bytes.now ≤ 1048576 }
{
    let mut text = String::new(alloc);
    show_place(&mut text, end(bytes))?;
    Ok(text)
}

/// Whether it is a name.
pub fn identifier(alloc: Global, bytes: &[u8]) -> Result<String, AllocError> {
    String::from_str(alloc, if is_name(bytes) { "a name" } else { "no name" })
}
