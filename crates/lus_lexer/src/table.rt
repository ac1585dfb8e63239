//! The fixed spellings, by their first bytes.

ghost use Rattle.std.specs.Prelude.{◌≡◌, map};
ghost use Rattle.lus_lexer.specs.Search.{sign_groups, word_groups, looked_up, row_of, word_of};

use crate::spelling::{Comment, Lexeme};
use crate::token::{Annotation, Class, Closing, Keyword, LeftOut, Opening, Sign};

/// A sign, what it is, and whether a letter, a digit or `_` may not follow it.
pub type SignRow = (&'static [u8], Lexeme, bool);

/// A word that is no name, and its class.
pub type ReservedWord = (&'static [u8], Class);

const ROUND: [SignRow; 3] = [
    (
        b"(*@contract",
        Lexeme::Token(Class::ContractOpen(Opening::Round)),
        true,
    ),
    (b"(*", Lexeme::Opens(Comment::Round), false),
    (b"(", Lexeme::Token(Class::Sign(Sign::Open)), false),
];

const CLOSE: [SignRow; 1] = [(b")", Lexeme::Token(Class::Sign(Sign::Close)), false)];

const COMMA: [SignRow; 1] = [(b",", Lexeme::Token(Class::Sign(Sign::Comma)), false)];

const SEMICOLON: [SignRow; 1] = [(b";", Lexeme::Token(Class::Sign(Sign::Semicolon)), false)];

const COLON: [SignRow; 2] = [
    (b"::", Lexeme::Token(Class::Sign(Sign::DoubleColon)), false),
    (b":", Lexeme::Token(Class::Sign(Sign::Colon)), false),
];

const EQUALS: [SignRow; 2] = [
    (b"=>", Lexeme::Token(Class::Sign(Sign::Implies)), false),
    (b"=", Lexeme::Token(Class::Sign(Sign::Equals)), false),
];

const LESS: [SignRow; 3] = [
    (b"<=", Lexeme::Token(Class::Sign(Sign::AtMost)), false),
    (b"<>", Lexeme::Token(Class::Sign(Sign::Differs)), false),
    (b"<", Lexeme::Token(Class::Sign(Sign::Less)), false),
];

const MORE: [SignRow; 2] = [
    (b">=", Lexeme::Token(Class::Sign(Sign::AtLeast)), false),
    (b">", Lexeme::Token(Class::Sign(Sign::More)), false),
];

const PLUS: [SignRow; 1] = [(b"+", Lexeme::Token(Class::Sign(Sign::Plus)), false)];

const MINUS: [SignRow; 7] = [
    (
        b"--%PROPERTY",
        Lexeme::Token(Class::Annotation(Annotation::Property)),
        true,
    ),
    (
        b"--!PROPERTY",
        Lexeme::Token(Class::LeftOut(LeftOut::Property)),
        false,
    ),
    (
        b"--%MAIN",
        Lexeme::Token(Class::Annotation(Annotation::Main)),
        true,
    ),
    (
        b"--!MAIN",
        Lexeme::Token(Class::LeftOut(LeftOut::Main)),
        false,
    ),
    (b"->", Lexeme::Token(Class::Sign(Sign::Arrow)), false),
    (b"--", Lexeme::Opens(Comment::Line), false),
    (b"-", Lexeme::Token(Class::Sign(Sign::Minus)), false),
];

const STAR: [SignRow; 3] = [
    (
        b"*)",
        Lexeme::Token(Class::ContractClose(Closing::Round)),
        false,
    ),
    (
        b"*/",
        Lexeme::Token(Class::ContractClose(Closing::Slash)),
        false,
    ),
    (b"*", Lexeme::Token(Class::Sign(Sign::Times)), false),
];

const SLASH: [SignRow; 3] = [
    (
        b"/*@contract",
        Lexeme::Token(Class::ContractOpen(Opening::Slash)),
        true,
    ),
    (b"/*", Lexeme::Opens(Comment::Slash), false),
    (b"/", Lexeme::Token(Class::LeftOut(LeftOut::Slash)), false),
];

const CARET: [SignRow; 1] = [(b"^", Lexeme::Token(Class::LeftOut(LeftOut::Caret)), false)];

const OPEN_BRACKET: [SignRow; 1] = [(
    b"[",
    Lexeme::Token(Class::LeftOut(LeftOut::OpenBracket)),
    false,
)];

const CLOSE_BRACKET: [SignRow; 1] = [(
    b"]",
    Lexeme::Token(Class::LeftOut(LeftOut::CloseBracket)),
    false,
)];

const OPEN_BRACE: [SignRow; 1] = [(
    b"{",
    Lexeme::Token(Class::LeftOut(LeftOut::OpenBrace)),
    false,
)];

const CLOSE_BRACE: [SignRow; 1] = [(
    b"}",
    Lexeme::Token(Class::LeftOut(LeftOut::CloseBrace)),
    false,
)];

const DOT: [SignRow; 1] = [(b".", Lexeme::Token(Class::LeftOut(LeftOut::Dot)), false)];

const HASH: [SignRow; 1] = [(b"#", Lexeme::Token(Class::LeftOut(LeftOut::Hash)), false)];

const BAR: [SignRow; 1] = [(b"|", Lexeme::Token(Class::LeftOut(LeftOut::Bar)), false)];

const WORDS_A: [ReservedWord; 6] = [
    (b"assume", Class::Keyword(Keyword::Assume)),
    (b"assert", Class::Keyword(Keyword::Assert)),
    (b"activate", Class::Keyword(Keyword::Activate)),
    (b"and", Class::Keyword(Keyword::And)),
    (b"automaton", Class::LeftOut(LeftOut::Automaton)),
    (b"array", Class::LeftOut(LeftOut::Array)),
];

const WORDS_B: [ReservedWord; 1] = [(b"bool", Class::Keyword(Keyword::Bool))];

const WORDS_C: [ReservedWord; 5] = [
    (b"contract", Class::Keyword(Keyword::Contract)),
    (b"const", Class::Keyword(Keyword::Const)),
    (b"check", Class::Keyword(Keyword::Check)),
    (b"condact", Class::Keyword(Keyword::Condact)),
    (b"current", Class::LeftOut(LeftOut::Current)),
];

const WORDS_D: [ReservedWord; 2] = [
    (b"default", Class::Keyword(Keyword::Default)),
    (b"div", Class::Keyword(Keyword::Div)),
];

const WORDS_E: [ReservedWord; 5] = [
    (b"ensure", Class::Keyword(Keyword::Ensure)),
    (b"else", Class::Keyword(Keyword::Else)),
    (b"every", Class::Keyword(Keyword::Every)),
    (b"enum", Class::LeftOut(LeftOut::Enum)),
    (b"exists", Class::LeftOut(LeftOut::Exists)),
];

const WORDS_F: [ReservedWord; 4] = [
    (b"function", Class::Keyword(Keyword::Function)),
    (b"false", Class::Keyword(Keyword::False)),
    (b"fby", Class::LeftOut(LeftOut::Fby)),
    (b"forall", Class::LeftOut(LeftOut::Forall)),
];

const WORDS_G: [ReservedWord; 1] = [(b"guarantee", Class::Keyword(Keyword::Guarantee))];

const WORDS_I: [ReservedWord; 9] = [
    (b"import", Class::Keyword(Keyword::Import)),
    (b"if", Class::Keyword(Keyword::If)),
    (b"initial", Class::Keyword(Keyword::Initial)),
    (b"int", Class::Keyword(Keyword::Int)),
    (b"imported", Class::LeftOut(LeftOut::Imported)),
    (b"int8", Class::LeftOut(LeftOut::Int8)),
    (b"int16", Class::LeftOut(LeftOut::Int16)),
    (b"int32", Class::LeftOut(LeftOut::Int32)),
    (b"int64", Class::LeftOut(LeftOut::Int64)),
];

const WORDS_L: [ReservedWord; 1] = [(b"let", Class::Keyword(Keyword::Let))];

const WORDS_M: [ReservedWord; 3] = [
    (b"mode", Class::Keyword(Keyword::Mode)),
    (b"merge", Class::Keyword(Keyword::Merge)),
    (b"mod", Class::Keyword(Keyword::Mod)),
];

const WORDS_N: [ReservedWord; 2] = [
    (b"node", Class::Keyword(Keyword::Node)),
    (b"not", Class::Keyword(Keyword::Not)),
];

const WORDS_O: [ReservedWord; 1] = [(b"or", Class::Keyword(Keyword::Or))];

const WORDS_P: [ReservedWord; 1] = [(b"pre", Class::Keyword(Keyword::Pre))];

const WORDS_R: [ReservedWord; 4] = [
    (b"returns", Class::Keyword(Keyword::Returns)),
    (b"require", Class::Keyword(Keyword::Require)),
    (b"real", Class::LeftOut(LeftOut::Real)),
    (b"restart", Class::LeftOut(LeftOut::Restart)),
];

const WORDS_S: [ReservedWord; 2] = [
    (b"struct", Class::LeftOut(LeftOut::Struct)),
    (b"subrange", Class::LeftOut(LeftOut::Subrange)),
];

const WORDS_T: [ReservedWord; 4] = [
    (b"tel", Class::Keyword(Keyword::Tel)),
    (b"then", Class::Keyword(Keyword::Then)),
    (b"true", Class::Keyword(Keyword::True)),
    (b"type", Class::LeftOut(LeftOut::TypeWord)),
];

const WORDS_U: [ReservedWord; 4] = [
    (b"uint8", Class::LeftOut(LeftOut::Uint8)),
    (b"uint16", Class::LeftOut(LeftOut::Uint16)),
    (b"uint32", Class::LeftOut(LeftOut::Uint32)),
    (b"uint64", Class::LeftOut(LeftOut::Uint64)),
];

const WORDS_V: [ReservedWord; 1] = [(b"var", Class::Keyword(Keyword::Var))];

const WORDS_W: [ReservedWord; 2] = [
    (b"when", Class::Keyword(Keyword::When)),
    (b"weakly", Class::LeftOut(LeftOut::Weakly)),
];

const WORDS_X: [ReservedWord; 1] = [(b"xor", Class::Keyword(Keyword::Xor))];

/// The signs that begin with a byte, the longest first.
pub fn signs_from(first: u8) -> &'static [SignRow]
    ensures { map row_of result.now ≡ looked_up first sign_groups }
{
    match first {
        b'(' => &ROUND,
        b')' => &CLOSE,
        b',' => &COMMA,
        b';' => &SEMICOLON,
        b':' => &COLON,
        b'=' => &EQUALS,
        b'<' => &LESS,
        b'>' => &MORE,
        b'+' => &PLUS,
        b'-' => &MINUS,
        b'*' => &STAR,
        b'/' => &SLASH,
        b'^' => &CARET,
        b'[' => &OPEN_BRACKET,
        b']' => &CLOSE_BRACKET,
        b'{' => &OPEN_BRACE,
        b'}' => &CLOSE_BRACE,
        b'.' => &DOT,
        b'#' => &HASH,
        b'|' => &BAR,
        _ => &[],
    }
}

/// The words that begin with a letter and are no names.
pub fn words_from(first: u8) -> &'static [ReservedWord]
    ensures { map word_of result.now ≡ looked_up first word_groups }
{
    match first {
        b'a' => &WORDS_A,
        b'b' => &WORDS_B,
        b'c' => &WORDS_C,
        b'd' => &WORDS_D,
        b'e' => &WORDS_E,
        b'f' => &WORDS_F,
        b'g' => &WORDS_G,
        b'i' => &WORDS_I,
        b'l' => &WORDS_L,
        b'm' => &WORDS_M,
        b'n' => &WORDS_N,
        b'o' => &WORDS_O,
        b'p' => &WORDS_P,
        b'r' => &WORDS_R,
        b's' => &WORDS_S,
        b't' => &WORDS_T,
        b'u' => &WORDS_U,
        b'v' => &WORDS_V,
        b'w' => &WORDS_W,
        b'x' => &WORDS_X,
        _ => &[],
    }
}
