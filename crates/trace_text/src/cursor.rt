//! What is left of a text, and its words.

ghost use Rattle.std.specs.Prelude.{◌≡◌, ◌+◌, ◌≤◌, length, drop, option_map, IfOk, IfSome, false, []};
ghost use Rattle.trace_text.specs.Cutting.{is_blank, begins_with_feed};
ghost use Rattle.trace_text.specs.Reading.{seen, Goes, ends_word, word_length, left_of, word_view, word_of, next_of, none_of, first_of, nothing_of, begins_with_blank, blank_length, end_length, shift, IsWithin};

use lus_tree::Pos;

/// The bytes that are left of a text, and the place of the first of them.
#[derive(Clone, Copy)]
pub struct Cursor<'a> {
    pub rest: &'a [u8],
    pub at: Pos,
}

/// A word, and the place of its first byte.
#[derive(Clone, Copy)]
pub struct TraceWord<'a> {
    pub text: &'a [u8],
    pub at: Pos,
}

/// Is it a space or a tab?
fn is_blank(b: u8) -> bool
    ensures { result ≡ is_blank b }
{
    b == b' ' || b == b'\t'
}

/// Does a line feed come first?
fn begins_with_feed(bytes: &[u8]) -> bool
    ensures { result ≡ begins_with_feed bytes.now }
{
    match bytes {
        [first, ..] => *first == b'\n',
        [] => false,
    }
}

/// Does this byte, which `later` follows, end a word?
fn ends_word(first: u8, later: &[u8]) -> bool
    ensures { result ≡ ends_word first later.now }
{
    if b' ' < first {
        return false;
    }
    first == b'\n' || is_blank(first) || (first == b'\r' && begins_with_feed(later))
}

/// How many bytes of a word come first.
#[tactic(auto, unfolding(crate::specs::Reading::word_length))]
fn word_length(bytes: &[u8]) -> usize
    ensures length { result ≡ word_length bytes.now }
    ensures within { result ≤ length bytes.now }
{
    let mut rest = bytes;
    while let [first, later @ ..] = rest {
        if ends_word(*first, later) {
            return bytes.len() - rest.len();
        }
        rest = later;
    }
    bytes.len()
}

/// How many blanks come first.
#[tactic(auto, unfolding(crate::specs::Reading::blank_length))]
fn blank_length(bytes: &[u8]) -> usize
    ensures length { result ≡ blank_length bytes.now }
    ensures within { result ≤ length bytes.now }
{
    let mut rest = bytes;
    while let [first, later @ ..] = rest {
        if !is_blank(*first) {
            return bytes.len() - rest.len();
        }
        rest = later;
    }
    bytes.len()
}

/// How many bytes of a line's end come first.
#[tactic(auto, unfolding(crate::specs::Reading::end_length))]
fn end_length(bytes: &[u8]) -> usize
    ensures length { result ≡ end_length bytes.now }
    ensures within { result ≤ length bytes.now }
{
    match bytes {
        [b'\n', ..] => 1,
        [b'\r', b'\n', ..] => 2,
        _ => 0,
    }
}

/// Past so many bytes of a line.
fn past(here: Cursor, count: usize) -> Cursor
    requires within { IsWithin here }
    requires inside { count ≤ length here.rest.now }
    ensures rest { result.rest.now ≡ drop count here.entry.rest.now }
    ensures at { result.at ≡ shift count here.entry.at }
    ensures within { IsWithin result }
{
    let (_, rest) = here.rest.split_at(count);
    let (line, column) = (here.at.line, here.at.column + count as u32);
    Cursor {
        rest,
        at: Pos { line, column },
    }
}

/// Past the blanks.
fn past_blanks(here: Cursor) -> Cursor
    requires { IsWithin here }
    ensures same { left_of result ≡ left_of here.entry }
    ensures blank { begins_with_blank result.rest.now ≡ false }
    ensures shorter { length result.rest.now ≤ length here.entry.rest.now }
    ensures within { IsWithin result }
{
    past(here, blank_length(here.rest))
}

/// The next word of the line, and what is left behind it.
pub fn line_word(here: Cursor) -> Option<(TraceWord, Cursor)>
    requires { IsWithin here }
    ensures word { option_map (λ x. (word_view x.0, left_of x.1)) result ≡ word_of (left_of here.entry) }
    ensures within { IfSome result (λ x. IsWithin x.1) }
{
    let start = past_blanks(here);
    let count = word_length(start.rest);
    if count == 0 {
        return None;
    }
    let (text, _) = start.rest.split_at(count);
    Some((TraceWord { text, at: start.at }, past(start, count)))
}

/// The next word of the line, which has to be there.
pub fn next_word(here: Cursor) -> Result<(TraceWord, Cursor), Pos>
    requires { IsWithin here }
    ensures word { seen (λ x. (word_view x.0, left_of x.1)) result ≡ next_of (left_of here.entry) }
    ensures within { IfOk result (λ x. IsWithin x.1) }
{
    match line_word(here) {
        Some(found) => Ok(found),
        None => Err(past_blanks(here).at),
    }
}

/// Refuses a word that is left in the line.
pub fn no_word(here: Cursor) -> Result<(), Pos>
    requires { IsWithin here }
    ensures { result ≡ none_of (left_of here.entry) }
{
    match line_word(here) {
        Some((found, _)) => Err(found.at),
        None => Ok(()),
    }
}

/// The first place of the line below one that has no more words.
fn below(here: Cursor) -> Result<Cursor, Pos>
    requires within { IsWithin here }
    requires none { (left_of here).words ≡ [] }
    ensures below { Goes result (left_of here.entry) }
    ensures shorter { IfOk result (λ x. length x.rest.now + 1 ≤ length here.entry.rest.now) }
    ensures within { IfOk result (λ x. IsWithin x) }
{
    let end = past_blanks(here);
    let count = end_length(end.rest);
    if count == 0 {
        return Err(end.at);
    }
    let (_, rest) = end.rest.split_at(count);
    let (line, column) = (end.at.line + 1, 1);
    Ok(Cursor {
        rest,
        at: Pos { line, column },
    })
}

/// The first word that is left in the text.
pub fn first_word(start: Cursor) -> Result<(TraceWord, Cursor), Pos>
    requires { IsWithin start }
    ensures word { seen (λ x. (word_view x.0, left_of x.1)) result ≡ first_of (left_of start.entry) }
    ensures within { IfOk result (λ x. IsWithin x.1) }
{
    let mut here = start;
    loop {
        match line_word(here) {
            Some(found) => return Ok(found),
            None => here = below(here)?,
        }
    }
}

/// Refuses a word that is left in the text.
pub fn no_line(here: Cursor) -> Result<(), Pos>
    requires { IsWithin here }
    ensures { result ≡ nothing_of (left_of here.entry) }
{
    match first_word(here) {
        Ok((found, _)) => Err(found.at),
        Err(_) => Ok(()),
    }
}
