//! How a line of a file of cases spells the bytes of a trace.

use std::alloc::{AllocError, Global};

/// The bytes that a line spells. Behind a backslash `n`, `t`, `r`, `s` and `v` stand for a line
/// feed, a tab, a carriage return, a blank and a vertical tab.
pub fn unescaped(alloc: Global, line: &str) -> Result<Vec<u8>, AllocError> {
    let mut bytes = Vec::new(alloc);
    let mut plain = true;
    for piece in line.split('\\') {
        if plain {
            bytes.extend_from_slice(piece.as_bytes())?;
        } else {
            escape(&mut bytes, piece.as_bytes())?;
        }
        plain = false;
    }
    Ok(bytes)
}

/// What stands behind a backslash, up to the next one.
fn escape(bytes: &mut Vec<u8>, piece: &[u8]) -> Result<(), AllocError> {
    let [letter, rest @ ..] = piece else {
        return Ok(());
    };
    bytes.push(named(*letter))?;
    bytes.extend_from_slice(rest)
}

fn named(letter: u8) -> u8 {
    match letter {
        b'n' => b'\n',
        b't' => b'\t',
        b'r' => b'\r',
        b's' => b' ',
        b'v' => 11,
        other => other,
    }
}
