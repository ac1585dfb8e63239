//! Which bytes are a name.

ghost use Rattle.std.specs.Prelude.{◌≡◌, ◌↔◌, IsTrue, length};
ghost use Rattle.lus_lexer.specs.Names.{is_name};
ghost use Rattle.lus_lexer.specs.Tokens.{byte, IsName};

use crate::lexeme::word_in;
use crate::scan::{is_letter, peek, word_end};
use crate::table::words_from;
use crate::token::Class;

/// Is this a name: a letter or `_`, then letters, digits and `_`, and no keyword or word that the
/// language leaves out? It is exactly where the whole text is one token of the class `Ident`.
pub fn is_name(bytes: &[u8]) -> bool
    ensures same { result ≡ is_name bytes.now }
    ensures name { IsTrue result ↔ IsName (byte bytes.now) 0 (length bytes.now) }
{
    let first = peek(bytes, 0);
    if !is_letter(first) {
        return false;
    }
    if word_end(bytes, 0) != bytes.len() {
        return false;
    }
    match word_in(words_from(first), bytes) {
        Class::Ident => true,
        _ => false,
    }
}
