//! Goes over a source, token by token.

ghost use Rattle.std.specs.Prelude.{◌≡◌, ◌<◌, ◌≤◌, length, IfOk, IfErr};
ghost use Rattle.lus_lexer.specs.Tokens.{byte, Longest, IsCursor, IsWide, Lexes, whole};
ghost use Rattle.lus_lexer.specs.Promise.{Refused, Steps, IsRead};

use crate::cursor::{Cursor, START, past};
use crate::lexeme::lexeme;
use crate::scan::{comment_end, is_blank, is_wide};
use crate::spelling::Lexeme;
use crate::token::{Class, Token};
use lus_tree::{Pos, Refusal, What};
use std::alloc::Global;

/// The tokens of a source of at most 1,048,576 bytes, in order. The first fault from its start on
/// is refused at its first byte: `BadByte` where nothing is spelled, `UnclosedComment` at the
/// opener, `WideLiteral` at a number above 2^63 - 1. Under `Memory` the place says nothing.
pub fn tokens(alloc: Global, bytes: &[u8]) -> Result<Vec<Token>, Refusal>
    requires { length bytes.now ≤ 1048576 }
    ensures tokens { IfOk result (λ v. Lexes (byte bytes.now) (length bytes.now) 0 v.items whole) }
    ensures fault { IfErr result (λ e. Refused bytes.now e.at e.what) }
{
    let mut tokens = Vec::new(alloc);
    let mut here = START;
    while here.at < bytes.len() {
        let (token, next) = step(bytes, here)?;
        if let Some(token) = token {
            if tokens.push(token).is_err() {
                return Err(refusal(here, What::Memory));
            }
        }
        here = next;
    }
    Ok(tokens)
}

/// The first fault of a source, or none where it is cut whole: each source has a reading. Takes
/// no memory.
pub fn first_fault(bytes: &[u8]) -> Option<Refusal>
    requires { length bytes.now ≤ 1048576 }
    ensures { IsRead bytes.now result }
{
    let mut here = START;
    while here.at < bytes.len() {
        match step(bytes, here) {
            Ok((_, next)) => here = next,
            Err(fault) => return Some(fault),
        }
    }
    None
}

/// The refusal of what begins here.
fn refusal(here: Cursor, what: What) -> Refusal
    ensures at { result.at ≡ here.pos }
    ensures what { result.what ≡ what }
{
    Refusal { at: here.pos, what }
}

/// Past one blank, one comment or one token, and that token; or the fault that is here.
fn step(bytes: &[u8], here: Cursor) -> Result<(Option<Token>, Cursor), Refusal>
    requires here { IsCursor (byte bytes.now) here.at here.pos }
    requires inside { here.at < length bytes.now }
    requires small { length bytes.now ≤ 1048576 }
    ensures step { Steps bytes.now here.at result }
    ensures there { IfOk result (λ x. IsCursor (byte bytes.now) x.1.at x.1.pos) }
    ensures within { IfOk result (λ x. (here.at < x.1.at) × (x.1.at ≤ length bytes.now)) }
{
    if is_blank(bytes[here.at]) {
        return Ok((None, past(bytes, here)));
    }
    match lexeme(bytes, here.at) {
        None => Err(refusal(here, What::BadByte)),
        Some((Lexeme::Opens(comment), end)) => match comment_end(
            bytes,
            behind(bytes, here, Lexeme::Opens(comment), end),
            comment,
        ) {
            None => Err(refusal(here, What::UnclosedComment)),
            Some(next) => Ok((None, next)),
        },
        Some((Lexeme::Token(class), end)) => token(bytes, here, class, end),
    }
}

/// A token, unless it is a number that is too wide.
fn token(
    bytes: &[u8],
    here: Cursor,
    class: Class,
    end: usize,
) -> Result<(Option<Token>, Cursor), Refusal>
    requires here { IsCursor (byte bytes.now) here.at here.pos }
    requires longest { Longest (byte bytes.now) here.at end (Lexeme.Token class) }
    requires small { length bytes.now ≤ 1048576 }
    ensures step { Steps bytes.now here.at result }
    ensures there { IfOk result (λ x. IsCursor (byte bytes.now) x.1.at x.1.pos) }
    ensures within { IfOk result (λ x. (here.at < x.1.at) × (x.1.at ≤ length bytes.now)) }
{
    match class {
        Class::Number => number(bytes, here, end),
        _ => Ok(step_over(bytes, here, class, end)),
    }
}

/// A number, unless it is too wide.
fn number(bytes: &[u8], here: Cursor, end: usize) -> Result<(Option<Token>, Cursor), Refusal>
    requires here { IsCursor (byte bytes.now) here.at here.pos }
    requires longest { Longest (byte bytes.now) here.at end (Lexeme.Token Class.Number) }
    requires small { length bytes.now ≤ 1048576 }
    ensures step { Steps bytes.now here.at result }
    ensures there { IfOk result (λ x. IsCursor (byte bytes.now) x.1.at x.1.pos) }
    ensures within { IfOk result (λ x. (here.at < x.1.at) × (x.1.at ≤ length bytes.now)) }
{
    if is_wide(bytes, here.at, end) {
        return Err(refusal(here, What::WideLiteral));
    }
    Ok(step_over(bytes, here, Class::Number, end))
}

/// A token, and the place behind it.
fn step_over(bytes: &[u8], here: Cursor, class: Class, end: usize) -> (Option<Token>, Cursor)
    requires here { IsCursor (byte bytes.now) here.at here.pos }
    requires longest { Longest (byte bytes.now) here.at end (Lexeme.Token class) }
    requires small { length bytes.now ≤ 1048576 }
    requires fits { class ≡ Class.Number → IsWide (byte bytes.now) here.at end → Prim.⊥ }
    ensures step { Steps bytes.now here.at (Ok result) }
    ensures there { IsCursor (byte bytes.now) result.1.at result.1.pos }
    ensures within { (here.at < result.1.at) × (result.1.at ≤ length bytes.now) }
{
    let next = behind(bytes, here, Lexeme::Token(class), end);
    (
        Some(Token {
            from: here.at as u32,
            to: end as u32,
            at: here.pos,
            class,
        }),
        next,
    )
}

/// The place behind a lexeme: none has a line feed in it.
fn behind(bytes: &[u8], here: Cursor, lexeme: Lexeme, end: usize) -> Cursor
    requires here { IsCursor (byte bytes.now) here.at here.pos }
    requires longest { Longest (byte bytes.now) here.at end lexeme }
    requires small { length bytes.now ≤ 1048576 }
    ensures at { result.at ≡ end }
    ensures there { IsCursor (byte bytes.now) result.at result.pos }
    ensures within { (here.at < end) × (end ≤ length bytes.now) }
{
    Cursor {
        at: end,
        pos: Pos {
            line: here.pos.line,
            column: here.pos.column + (end - here.at) as u32,
        },
    }
}
