//! Where a word, a number, a text or a comment ends.

ghost use Rattle.std.specs.Prelude.{◌≡◌, ◌<◌, ◌≤◌, ◌+◌, length, ◌≢◌, MatchOption, IfSome, IfNone, IsTrue, ◌↔◌, true, false, ℕ};
ghost use Rattle.std.specs.Char.{is_ascii_digit};
ghost use Rattle.lus_lexer.specs.Tokens.{byte, is_letter, is_word, is_blank, is_plain, Each, IsText, IsCursor, IsWide, Closes, EndsWith, EndsLine};

use crate::cursor::{Cursor, past};
use crate::spelling::Comment;

/// The byte at `at`, and 0 past the end.
pub fn peek(bytes: &[u8], at: usize) -> u8
    ensures { result ≡ byte bytes.now at }
{
    if at < bytes.len() { bytes[at] } else { 0 }
}

/// Is it an ASCII letter or `_`?
pub fn is_letter(b: u8) -> bool
    ensures { result ≡ is_letter b }
{
    b.is_ascii_alphabetic() || b == b'_'
}

/// Is it an ASCII letter, a digit or `_`?
pub fn is_word(b: u8) -> bool
    ensures { result ≡ is_word b }
{
    is_letter(b) || b.is_ascii_digit()
}

/// Is it a space, a tab, a carriage return or a line feed?
pub fn is_blank(b: u8) -> bool
    ensures { result ≡ is_blank b }
{
    b == b' ' || b == b'\t' || b == b'\r' || b == b'\n'
}

/// May it stand in a text?
fn is_plain(b: u8) -> bool
    ensures { result ≡ is_plain b }
{
    32 <= b && b <= 126 && b != b'"' && b != b'\\'
}

/// Where the letters, digits and `_` from `from` on end.
pub fn word_end(bytes: &[u8], from: usize) -> usize
    requires { from ≤ length bytes.now }
    ensures within { (from ≤ result) × (result ≤ length bytes.now) }
    ensures word { Each (byte bytes.now) is_word from result }
    ensures last { is_word (byte bytes.now result) ≡ false }
{
    let mut end = from;
    while end < bytes.len() && is_word(bytes[end]) {
        end += 1;
    }
    end
}

/// Where the digits from `from` on end.
pub fn digits_end(bytes: &[u8], from: usize) -> usize
    requires { from ≤ length bytes.now }
    ensures within { (from ≤ result) × (result ≤ length bytes.now) }
    ensures digits { Each (byte bytes.now) is_ascii_digit from result }
    ensures last { is_ascii_digit (byte bytes.now result) ≡ false }
{
    let mut end = from;
    while end < bytes.len() && bytes[end].is_ascii_digit() {
        end += 1;
    }
    end
}

/// Where the text ends whose first quote stands at `from`.
pub fn text_end(bytes: &[u8], from: usize) -> Option<usize>
    requires { byte bytes.now from ≡ 34 }
    ensures found { MatchOption result ((j : ℕ) → IsText (byte bytes.now) from j → Prim.⊥)
        (λ j. IsText (byte bytes.now) from j) }
    ensures within { IfSome result (λ j. (from < j) × (j ≤ length bytes.now)) }
{
    let _quote = peek(bytes, from);
    let mut end = from + 1;
    while end < bytes.len() && is_plain(bytes[end]) {
        end += 1;
    }
    if peek(bytes, end) == b'"' {
        Some(end + 1)
    } else {
        None
    }
}

/// Is the value of the digits above 2^63 - 1?
pub fn is_wide(bytes: &[u8], from: usize, end: usize) -> bool
    requires within { (from ≤ end) × (end ≤ length bytes.now) }
    requires digits { Each (byte bytes.now) is_ascii_digit from end }
    ensures { IsTrue result ↔ IsWide (byte bytes.now) from end }
{
    let mut value: u128 = 0;
    for i in from..end {
        value = value * 10 + (bytes[i] - b'0') as u128;
        if 1 << 63 <= value {
            return true;
        }
    }
    false
}

/// Where the first `first` and `second` from here on end.
fn pair_end(bytes: &[u8], from: Cursor, first: u8, second: u8) -> Option<Cursor>
    requires here { IsCursor (byte bytes.now) from.at from.pos }
    requires within { from.at ≤ length bytes.now }
    requires small { length bytes.now ≤ 1048576 }
    requires some { second ≢ 0 }
    ensures none { IfNone result ((k : ℕ) → EndsWith (byte bytes.now) first second from.at k → Prim.⊥) }
    ensures ends { IfSome result (λ c. EndsWith (byte bytes.now) first second from.at c.at) }
    ensures there { IfSome result (λ c. IsCursor (byte bytes.now) c.at c.pos) }
    ensures within { IfSome result (λ c. (from.at < c.at) × (c.at ≤ length bytes.now)) }
{
    let mut here = from;
    while here.at < bytes.len() {
        if bytes[here.at] == first && peek(bytes, here.at + 1) == second {
            return Some(past(bytes, past(bytes, here)));
        }
        here = past(bytes, here);
    }
    None
}

/// The line feed from here on, or the end.
fn line_end(bytes: &[u8], from: Cursor) -> Cursor
    requires here { IsCursor (byte bytes.now) from.at from.pos }
    requires within { from.at ≤ length bytes.now }
    requires small { length bytes.now ≤ 1048576 }
    ensures ends { EndsLine (byte bytes.now) (length bytes.now) from.at result.at }
    ensures there { IsCursor (byte bytes.now) result.at result.pos }
{
    let mut here = from;
    while here.at < bytes.len() && bytes[here.at] != b'\n' {
        here = past(bytes, here);
    }
    here
}

/// Where a comment ends whose opening ends here.
pub fn comment_end(bytes: &[u8], from: Cursor, comment: Comment) -> Option<Cursor>
    requires here { IsCursor (byte bytes.now) from.at from.pos }
    requires within { from.at ≤ length bytes.now }
    requires small { length bytes.now ≤ 1048576 }
    ensures none { IfNone result ((k : ℕ) → Closes (byte bytes.now) (length bytes.now) comment from.at k → Prim.⊥) }
    ensures ends { IfSome result (λ c. Closes (byte bytes.now) (length bytes.now) comment from.at c.at) }
    ensures there { IfSome result (λ c. IsCursor (byte bytes.now) c.at c.pos) }
    ensures within { IfSome result (λ c. (from.at ≤ c.at) × (c.at ≤ length bytes.now)) }
{
    match comment {
        Comment::Line => Some(line_end(bytes, from)),
        Comment::Round => pair_end(bytes, from, b'*', b')'),
        Comment::Slash => pair_end(bytes, from, b'*', b'/'),
    }
}
