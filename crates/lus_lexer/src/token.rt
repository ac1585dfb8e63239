//! Tokens and their classes.

use lus_tree::Pos;

/// A token: the bytes from `from` up to `to`, the line and column of its first byte, and its
/// class. Its text is that slice of the source.
#[derive(Clone, Copy, PartialEq, Eq, Debug)]
pub struct Token {
    pub from: u32,
    pub to: u32,
    pub at: Pos,
    pub class: Class,
}

/// What a token is. A number's value is that of the digits of its slice, and at most 2^63 - 1; a
/// name and a text have what stands in their slices.
#[derive(Clone, Copy, PartialEq, Eq, Debug)]
pub enum Class {
    /// A letter or `_`, and then letters, digits and `_`, that is no keyword and not left out.
    Ident,
    /// Digits.
    Number,
    /// Printable ASCII without `"` and `\`, between two `"`.
    Text,
    Sign(Sign),
    ContractOpen(Opening),
    ContractClose(Closing),
    Annotation(Annotation),
    LeftOut(LeftOut),
    Keyword(Keyword),
}

/// A sign of the language.
#[derive(Clone, Copy, PartialEq, Eq, Debug)]
pub enum Sign {
    /// `(`
    Open,
    /// `)`
    Close,
    /// `,`
    Comma,
    /// `;`
    Semicolon,
    /// `:`
    Colon,
    /// `::`
    DoubleColon,
    /// `=`
    Equals,
    /// `<`
    Less,
    /// `<=`
    AtMost,
    /// `>`
    More,
    /// `>=`
    AtLeast,
    /// `<>`
    Differs,
    /// `+`
    Plus,
    /// `-`
    Minus,
    /// `*`
    Times,
    /// `->`
    Arrow,
    /// `=>`
    Implies,
}

/// What opens a contract.
#[derive(Clone, Copy, PartialEq, Eq, Debug)]
pub enum Opening {
    /// `(*@contract`
    Round,
    /// `/*@contract`
    Slash,
}

/// What closes a contract.
#[derive(Clone, Copy, PartialEq, Eq, Debug)]
pub enum Closing {
    /// `*)`
    Round,
    /// `*/`
    Slash,
}

/// An annotation.
#[derive(Clone, Copy, PartialEq, Eq, Debug)]
pub enum Annotation {
    /// `--%MAIN`
    Main,
    /// `--%PROPERTY`
    Property,
}

/// A keyword, by its name.
#[derive(Clone, Copy, PartialEq, Eq, Debug)]
pub enum Keyword {
    Node,
    Function,
    Contract,
    Returns,
    Var,
    Const,
    Let,
    Tel,
    Import,
    Mode,
    Assume,
    Guarantee,
    Require,
    Ensure,
    Assert,
    Check,
    If,
    Then,
    Else,
    When,
    Merge,
    Condact,
    Activate,
    Every,
    Initial,
    Default,
    Pre,
    And,
    Or,
    Xor,
    Not,
    Div,
    Mod,
    True,
    False,
    Bool,
    Int,
}

/// A word or a sign of Lustre that this language leaves out.
#[derive(Clone, Copy, PartialEq, Eq, Debug)]
pub enum LeftOut {
    /// `type`
    TypeWord,
    /// `struct`
    Struct,
    /// `enum`
    Enum,
    /// `subrange`
    Subrange,
    /// `real`
    Real,
    /// `imported`
    Imported,
    /// `automaton`
    Automaton,
    /// `restart`
    Restart,
    /// `current`
    Current,
    /// `fby`
    Fby,
    /// `forall`
    Forall,
    /// `exists`
    Exists,
    /// `weakly`
    Weakly,
    /// `array`
    Array,
    /// `int8`
    Int8,
    /// `int16`
    Int16,
    /// `int32`
    Int32,
    /// `int64`
    Int64,
    /// `uint8`
    Uint8,
    /// `uint16`
    Uint16,
    /// `uint32`
    Uint32,
    /// `uint64`
    Uint64,
    /// `^`
    Caret,
    /// `[`
    OpenBracket,
    /// `]`
    CloseBracket,
    /// `{`
    OpenBrace,
    /// `}`
    CloseBrace,
    /// `.`
    Dot,
    /// `/`
    Slash,
    /// `#`
    Hash,
    /// `|`
    Bar,
    /// `--!MAIN`
    Main,
    /// `--!PROPERTY`
    Property,
}
