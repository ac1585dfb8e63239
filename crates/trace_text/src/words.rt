//! The words of a trace.

ghost use Rattle.std.specs.Prelude.{◌≡◌, option_map, IfOk};
ghost use Rattle.std.specs.String.{string_bytes};
ghost use Rattle.lus_meaning.specs.TraceView.{spot_view, entry_view};
ghost use Rattle.trace_text.specs.Reading.{Gives, number_from, number_of, small_of, value_of, name_of, subject_of, address_of, or_misfit, word_view};

use crate::cursor::TraceWord;
use crate::fault::TraceFault;
use lus_lexer::is_name;
use lus_meaning::{Spot, Value};
use std::alloc::{AllocError, Global};

/// The number that these digits spell, with leading zeros or not. None is lost up to 2^63 - 1.
fn digits(word: &[u8]) -> Option<u64>
    ensures { result ≡ number_from 0 word.now }
{
    let mut rest = word;
    let mut number: u64 = 0;
    while let [first, later @ ..] = rest {
        if !first.is_ascii_digit() || 922_337_203_685_477_580 < number {
            return None;
        }
        number = number * 10 + (*first - b'0') as u64;
        rest = later;
    }
    Some(number)
}

/// The number up to 2^63 - 1 that a word spells.
#[tactic(auto, unfolding(crate::specs::Reading::number_of))]
fn number(word: &[u8]) -> Option<u64>
    ensures { result ≡ number_of word.now }
{
    match word {
        [] => return None,
        [b'0', _, ..] => return None,
        [_, ..] => {}
    }
    match digits(word) {
        Some(number) if number <= 9_223_372_036_854_775_807 => Some(number),
        _ => None,
    }
}

/// The number below 2^32 that a word spells.
#[tactic(auto, unfolding(crate::specs::Reading::small_of))]
pub fn small(word: &[u8]) -> Option<u32>
    ensures { result ≡ small_of word.now }
{
    match number(word) {
        Some(number) if number <= 4_294_967_295 => Some(number as u32),
        _ => None,
    }
}

/// The value that a word spells, where it spells one; `_` is no value.
#[tactic(auto, unfolding(crate::specs::Reading::value_of))]
pub fn value(word: &[u8]) -> Option<Option<Value>>
    ensures { option_map entry_view result ≡ value_of word.now }
{
    let [first, digits @ ..] = word else {
        return None;
    };
    if first.is_ascii_digit() {
        return match number(word) {
            Some(number) => Some(Some(Value::Whole(number as i128))),
            None => None,
        };
    }
    if *first == b'-' {
        return match number(digits) {
            Some(number) => Some(Some(Value::Whole(-(number as i128)))),
            None => None,
        };
    }
    if word == b"true".as_slice() {
        return Some(Some(Value::Truth(true)));
    }
    if word == b"false".as_slice() {
        return Some(Some(Value::Truth(false)));
    }
    if word == b"_".as_slice() {
        Some(None)
    } else {
        None
    }
}

/// The name that a word is.
#[tactic(auto, unfolding(crate::specs::Reading::name_of))]
pub fn name(alloc: Global, word: &[u8]) -> Result<Option<String>, AllocError>
    ensures { IfOk result (λ s. option_map string_bytes s ≡ name_of word.now) }
{
    if !is_name(word) {
        return Ok(None);
    }
    match std::str::from_utf8(word) {
        Ok(name) => Ok(Some(String::from_str(alloc, name)?)),
        Err(_) => Ok(None),
    }
}

/// A name or `#` and a number.
#[tactic(auto, unfolding(crate::specs::Reading::subject_of))]
fn spot(alloc: Global, word: &[u8]) -> Result<Option<Spot>, AllocError>
    ensures { IfOk result (λ s. option_map spot_view s ≡ subject_of word.now) }
{
    let [first, digits @ ..] = word else {
        return Ok(None);
    };
    if *first == b'#' {
        return Ok(match small(digits) {
            Some(number) => Some(Spot::First(number)),
            None => None,
        });
    }
    match name(alloc, word)? {
        Some(name) => Ok(Some(Spot::Name(name))),
        None => Ok(None),
    }
}

/// The numbers before dots, and what they lead to.
fn path(alloc: Global, word: &[u8]) -> Result<Option<(Vec<u32>, Spot)>, AllocError>
    ensures { IfOk result (λ p. option_map (λ x. (x.0.items, spot_view x.1)) p ≡ address_of word.now) }
{
    let mut path = Vec::new(alloc);
    let mut from = 0;
    for i in 0..word.len() {
        if word[i] == b'.' {
            let Some(number) = small(&word[from..i]) else {
                return Ok(None);
            };
            path.push(number)?;
            from = i + 1;
        }
    }
    match spot(alloc, &word[from..])? {
        Some(spot) => Ok(Some((path, spot))),
        None => Ok(None),
    }
}

/// The way and the subject that a word spells, which has to spell them.
pub fn address(alloc: Global, word: TraceWord) -> Result<(Vec<u32>, Spot), TraceFault>
    ensures { Gives (λ x. (x.0.items, spot_view x.1)) result
        (or_misfit word.entry.at (address_of word.entry.text.now)) }
{
    match path(alloc, word.text)? {
        Some(found) => Ok(found),
        None => Err(TraceFault::Form(word.at)),
    }
}
