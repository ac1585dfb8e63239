//! How a line of a file of cases spells the bytes of a case.

use std::alloc::{AllocError, Global};

/// The bytes that a line spells. Behind a backslash `n`, `t`, `r`, `s` and `b` stand for a line
/// feed, a tab, a carriage return, a blank and a backslash, `xHH` for a byte, and `{N TEXT}` for N
/// times the text.
pub fn unescaped(alloc: Global, line: &str) -> Result<Vec<u8>, AllocError> {
    let mut bytes = Vec::new(alloc);
    let mut plain = true;
    for piece in line.split('\\') {
        if plain {
            bytes.extend_from_slice(piece.as_bytes())?;
        } else if let Some(body) = piece.strip_prefix('{') {
            repeat(&mut bytes, body)?;
        } else {
            escape(&mut bytes, piece.as_bytes())?;
        }
        plain = false;
    }
    Ok(bytes)
}

/// What stands behind a backslash, up to the next one.
fn escape(bytes: &mut Vec<u8>, piece: &[u8]) -> Result<(), AllocError> {
    let rest = match piece {
        [b'x', high, low, rest @ ..] => {
            bytes.push((digit(*high) << 4) | digit(*low))?;
            rest
        }
        [letter, rest @ ..] => {
            bytes.push(named(*letter))?;
            rest
        }
        [] => return Ok(()),
    };
    bytes.extend_from_slice(rest)
}

fn named(letter: u8) -> u8 {
    match letter {
        b'n' => b'\n',
        b't' => b'\t',
        b'r' => b'\r',
        b's' => b' ',
        b'b' => b'\\',
        other => other,
    }
}

/// The value of a digit of base 16.
fn digit(byte: u8) -> u8 {
    match byte {
        b'0'..=b'9' => byte - b'0',
        b'a'..=b'f' => byte - b'a' + 10,
        _ => 0,
    }
}

/// `N TEXT}` and what follows it.
fn repeat(bytes: &mut Vec<u8>, body: &str) -> Result<(), AllocError> {
    let Some((text, rest)) = body.split_once('}') else {
        return Ok(());
    };
    if let Some((count, text)) = text.split_once(' ') {
        let count: u32 = count.parse().unwrap_or(0);
        for _ in 0..count {
            bytes.extend_from_slice(text.as_bytes())?;
        }
    }
    bytes.extend_from_slice(rest.as_bytes())
}
