//! What the public readers of parts answer of a text, from its first token on.

ghost use Rattle.std.specs.Prelude.{◌≤◌, length};
ghost use Rattle.lus_grammar.specs.Source.{AreTokens};

use crate::answer::Ask;
use crate::expression::show;
use crate::program::{show_definition, show_items};
use crate::words::{show_params, show_refusal, show_words};
use lus_lexer::{Token, tokens};
use lus_reader::{
    Counts, groups, label, local_group, names, parameters, read_body, read_constant, read_expr,
    read_left,
};
use lus_tree::{Param, PlacedName, Refusal};
use std::alloc::{AllocError, Global};

/// No occurrence yet.
const NONE: Counts = Counts {
    pres: 0,
    arrows: 0,
    calls: 0,
};

/// The answer for a part; a text that is not cut is refused.
pub fn part_of(alloc: Global, ask: Ask, bytes: &[u8]) -> Result<String, AllocError>
    requires { length bytes.now ≤ 1048576 }
{
    match tokens(alloc, bytes) {
        Ok(cut) => part(alloc, ask, &cut, bytes),
        Err(refusal) => show_refusal(alloc, &refusal),
    }
}

fn part(alloc: Global, ask: Ask, tokens: &[Token], bytes: &[u8]) -> Result<String, AllocError>
    requires cut { AreTokens bytes.now tokens.now }
    requires small { length bytes.now ≤ 1048576 }
{
    match ask {
        Ask::Expression(places) => expression(alloc, tokens, bytes, places),
        Ask::Names => show_names(alloc, names(alloc, tokens, bytes, 0)),
        Ask::Left => show_names(alloc, read_left(alloc, tokens, bytes, 0)),
        Ask::Parameters => show_streams(alloc, parameters(alloc, tokens, bytes, 0)),
        Ask::Groups => show_streams(alloc, groups(alloc, tokens, bytes, 0)),
        Ask::LocalGroup => show_streams(alloc, local_group(alloc, tokens, bytes, 0)),
        Ask::Label => label_of(alloc, tokens, bytes),
        Ask::Constant => constant_of(alloc, tokens, bytes),
        Ask::Body => body_of(alloc, tokens, bytes),
        _ => is_expression(alloc, tokens, bytes),
    }
}

/// ` | N` where the text goes on at the token N.
fn show_next(out: &mut String, tokens: &[Token], next: u32) -> Result<(), AllocError> {
    if (next as usize) < tokens.len() {
        write!(out, " | {next}")?;
    }
    Ok(())
}

/// The counts of occurrences behind it.
fn show_counts(out: &mut String, counts: Counts) -> Result<(), AllocError> {
    let (pres, arrows, calls) = (counts.pres, counts.arrows, counts.calls);
    write!(out, ", counts {pres} {arrows} {calls}")
}

/// The tree of a copy, or the refusal.
fn expression(
    alloc: Global,
    tokens: &[Token],
    bytes: &[u8],
    places: bool,
) -> Result<String, AllocError>
    requires cut { AreTokens bytes.now tokens.now }
    requires small { length bytes.now ≤ 1048576 }
{
    let mut counts = NONE;
    match read_expr(alloc, tokens, bytes, 0, &mut counts) {
        Ok((e, next)) => {
            let mut out = String::new(alloc);
            show(&mut out, &e.copied(alloc)?, places)?;
            show_next(&mut out, tokens, next)?;
            Ok(out)
        }
        Err(refusal) => show_refusal(alloc, &refusal),
    }
}

/// `read`, or the refusal.
fn is_expression(alloc: Global, tokens: &[Token], bytes: &[u8]) -> Result<String, AllocError>
    requires cut { AreTokens bytes.now tokens.now }
    requires small { length bytes.now ≤ 1048576 }
{
    let mut counts = NONE;
    match read_expr(alloc, tokens, bytes, 0, &mut counts) {
        Ok(_) => String::from_str(alloc, "read"),
        Err(refusal) => show_refusal(alloc, &refusal),
    }
}

/// The tree of an expression that begins at a token, behind so many occurrences, and the counts
/// behind it.
pub fn counted(alloc: Global, bytes: &[u8], from: u32, before: Counts) -> Result<String, AllocError>
    requires { length bytes.now ≤ 1048576 }
{
    match tokens(alloc, bytes) {
        Ok(cut) if from as usize <= cut.len() => expression_from(alloc, &cut, bytes, from, before),
        Ok(_) => String::from_str(alloc, "no such token"),
        Err(refusal) => show_refusal(alloc, &refusal),
    }
}

fn expression_from(
    alloc: Global,
    tokens: &[Token],
    bytes: &[u8],
    from: u32,
    before: Counts,
) -> Result<String, AllocError>
    requires cut { AreTokens bytes.now tokens.now }
    requires small { length bytes.now ≤ 1048576 }
    requires inside { from ≤ length tokens.now }
{
    let mut counts = before;
    let mut out = String::new(alloc);
    match read_expr(alloc, tokens, bytes, from, &mut counts) {
        Ok((e, next)) => {
            show(&mut out, &e, false)?;
            show_next(&mut out, tokens, next)?;
        }
        Err(refusal) => write!(out, "{refusal}")?,
    }
    show_counts(&mut out, counts)?;
    Ok(out)
}

/// The streams, and the token behind them; or the refusal.
fn show_streams(
    alloc: Global,
    read: Result<(Vec<Param>, u32), Refusal>,
) -> Result<String, AllocError> {
    match read {
        Ok((params, next)) => {
            let mut out = String::new(alloc);
            show_params(&mut out, &params, true)?;
            write!(out, " | {next}")?;
            Ok(out)
        }
        Err(refusal) => show_refusal(alloc, &refusal),
    }
}

/// The names, and the token behind them; or the refusal.
fn show_names(
    alloc: Global,
    read: Result<(Vec<PlacedName>, u32), Refusal>,
) -> Result<String, AllocError> {
    match read {
        Ok((words, next)) => {
            let mut out = String::new(alloc);
            show_words(&mut out, &words, true)?;
            write!(out, " | {next}")?;
            Ok(out)
        }
        Err(refusal) => show_refusal(alloc, &refusal),
    }
}

/// The label in `'` or `none`, and the token behind it.
fn label_of(alloc: Global, tokens: &[Token], bytes: &[u8]) -> Result<String, AllocError>
    requires cut { AreTokens bytes.now tokens.now }
    requires small { length bytes.now ≤ 1048576 }
{
    match label(alloc, tokens, bytes, 0) {
        Ok((label, next)) => show_label(alloc, &label, next),
        Err(refusal) => show_refusal(alloc, &refusal),
    }
}

fn show_label(alloc: Global, label: &Option<String>, next: u32) -> Result<String, AllocError> {
    match label {
        Some(label) => {
            let label = label.as_str();
            format!(in alloc; "'{label}' | {next}")
        }
        None => format!(in alloc; "none | {next}"),
    }
}

/// The definition and the token behind it, or the refusal; and the counts behind it.
fn constant_of(alloc: Global, tokens: &[Token], bytes: &[u8]) -> Result<String, AllocError>
    requires cut { AreTokens bytes.now tokens.now }
    requires small { length bytes.now ≤ 1048576 }
{
    let mut counts = NONE;
    let mut out = String::new(alloc);
    match read_constant(alloc, tokens, bytes, 0, &mut counts) {
        Ok((definition, next)) => {
            show_definition(&mut out, &definition, true)?;
            write!(out, " | {next}")?;
        }
        Err(refusal) => write!(out, "{refusal}")?,
    }
    show_counts(&mut out, counts)?;
    Ok(out)
}

/// The items and the token behind them, or the refusal; and the counts behind it.
fn body_of(alloc: Global, tokens: &[Token], bytes: &[u8]) -> Result<String, AllocError>
    requires cut { AreTokens bytes.now tokens.now }
    requires small { length bytes.now ≤ 1048576 }
{
    let mut counts = NONE;
    let mut out = String::new(alloc);
    match read_body(alloc, tokens, bytes, 0, &mut counts) {
        Ok((items, next)) => {
            show_items(&mut out, &items, true)?;
            write!(out, " | {next}")?;
        }
        Err(refusal) => write!(out, "{refusal}")?,
    }
    show_counts(&mut out, counts)?;
    Ok(out)
}
