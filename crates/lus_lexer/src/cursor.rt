//! A place in the source that goes on byte by byte.

ghost use Rattle.std.specs.Prelude.{◌≡◌, ◌<◌, ◌≤◌, ◌+◌, length};
ghost use Rattle.lus_lexer.specs.Tokens.{byte, IsCursor};

use lus_tree::Pos;

/// The number of a byte, and its line and column.
#[derive(Clone, Copy)]
pub struct Cursor {
    pub at: usize,
    pub pos: Pos,
}

/// The first byte.
pub const START: Cursor = Cursor {
    at: 0,
    pos: Pos { line: 1, column: 1 },
};

/// Past one byte.
pub fn past(bytes: &[u8], c: Cursor) -> Cursor
    requires here { IsCursor (byte bytes.now) c.at c.pos }
    requires inside { c.at < length bytes.now }
    requires small { length bytes.now ≤ 1048576 }
    ensures next { result.at ≡ c.at + 1 }
    ensures there { IsCursor (byte bytes.now) result.at result.pos }
{
    let at = c.at + 1;
    let next_line = c.pos.line + 1;
    let next_column = c.pos.column + 1;
    if bytes[c.at] == b'\n' {
        Cursor {
            at,
            pos: Pos {
                line: next_line,
                column: 1,
            },
        }
    } else {
        Cursor {
            at,
            pos: Pos {
                line: c.pos.line,
                column: next_column,
            },
        }
    }
}

/// The place behind the last byte, which is 1:1 in an empty text.
pub fn end(bytes: &[u8]) -> Pos
    requires { length bytes.now ≤ 1048576 }
    ensures { IsCursor (byte bytes.now) (length bytes.now) result }
{
    let mut here = START;
    while here.at < bytes.len() {
        here = past(bytes, here);
    }
    here.pos
}
