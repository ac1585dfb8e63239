//! The longest spelling at a place.

ghost use Rattle.std.specs.Prelude.{◌≡◌, ◌<◌, ◌≤◌, ◌≢◌, length, map, true, false, MatchOption};
ghost use Rattle.std.specs.Char.{is_ascii_digit};
ghost use Rattle.lus_lexer.specs.Tokens.{byte, NoneAt, Longest, is_letter};
ghost use Rattle.lus_lexer.specs.Search.{sign_in, word_in, row_of, word_of};

use crate::scan::{digits_end, is_letter, is_word, peek, text_end, word_end};
use crate::spelling::Lexeme;
use crate::table::{ReservedWord, SignRow, signs_from, words_from};
use crate::token::Class;

/// The first of the signs that stands at `at`, and where it ends.
fn sign_in(mut signs: &[SignRow], bytes: &[u8], at: usize) -> Option<(Lexeme, usize)>
    requires { at ≤ length bytes.now }
    ensures { result ≡ sign_in (map row_of signs.entry.now) bytes.now at }
{
    let rest = &bytes[at..];
    while let [(text, is, alone), later @ ..] = signs {
        if rest.starts_with(text) {
            let end = at + text.len();
            if !*alone || !is_word(peek(bytes, end)) {
                return Some((*is, end));
            }
        }
        signs = later;
    }
    None
}

/// The class of a word.
pub fn word_in(mut words: &[ReservedWord], word: &[u8]) -> Class
    ensures { result ≡ word_in (map word_of words.entry.now) word.now }
{
    while let [(text, class), later @ ..] = words {
        if *text == word {
            return *class;
        }
        words = later;
    }
    Class::Ident
}

/// The longest sign at `at`.
fn sign(bytes: &[u8], at: usize) -> Option<(Lexeme, usize)>
    requires inside { at < length bytes.now }
    requires letter { is_letter (byte bytes.now at) ≡ false }
    requires digit { is_ascii_digit (byte bytes.now at) ≡ false }
    requires quote { byte bytes.now at ≢ 34 }
    ensures { MatchOption result (NoneAt (byte bytes.now) at) (λ x. Longest (byte bytes.now) at x.1 x.0) }
{
    sign_in(signs_from(bytes[at]), bytes, at)
}

/// The name, keyword or left-out word at `at`.
fn word(bytes: &[u8], at: usize) -> (Lexeme, usize)
    requires inside { at < length bytes.now }
    requires letter { is_letter (byte bytes.now at) ≡ true }
    ensures { Longest (byte bytes.now) at result.1 result.0 }
{
    let end = word_end(bytes, at);
    (
        Lexeme::Token(word_in(words_from(bytes[at]), &bytes[at..end])),
        end,
    )
}

/// The longest spelling at `at`, and where it ends.
pub fn lexeme(bytes: &[u8], at: usize) -> Option<(Lexeme, usize)>
    requires { at < length bytes.now }
    ensures { MatchOption result (NoneAt (byte bytes.now) at) (λ x. Longest (byte bytes.now) at x.1 x.0) }
{
    let first = bytes[at];
    if is_letter(first) {
        return Some(word(bytes, at));
    }
    if first.is_ascii_digit() {
        return Some((Lexeme::Token(Class::Number), digits_end(bytes, at)));
    }
    if first == b'"' {
        return match text_end(bytes, at) {
            Some(end) => Some((Lexeme::Token(Class::Text), end)),
            None => None,
        };
    }
    sign(bytes, at)
}
