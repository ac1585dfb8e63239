//! The lines of a text.
ghost use Rattle.std.specs.Prelude.{◌≡◌, IfOk, OnOk};
ghost use Rattle.std.specs.List.{AllByRecursion};
ghost use Rattle.kind_main.specs.Ending.{lines_view};
ghost use Rattle.kind_main.specs.Lines.{text_of};
ghost use Rattle.kind_main.specs.Verdicts.{Cuts, IsEnded, IsOneLine};

use std::alloc::{AllocError, Global};
use std::mem;

/// Adds a byte to the line, which ends with a line feed.
fn cut(
    alloc: Global,
    lines: &mut Vec<Vec<u8>>,
    line: &mut Vec<u8>,
    byte: u8,
) -> Result<(), AllocError>
    ensures { OnOk result (Cuts byte (lines_view lines.old.items) line.old.items
        (lines_view lines.new.items) line.new.items) }
{
    line.push(byte)?;
    if byte != b'\n' {
        return Ok(());
    }
    let whole = mem::replace(line, Vec::new(alloc));
    lines.push(whole)?;
    Ok(())
}

/// The lines of a text whose last line has its line feed. They are the text, one behind the other.
pub fn text_lines(alloc: Global, text: &[u8]) -> Result<Vec<Vec<u8>>, AllocError>
    requires { IsEnded text.now }
    ensures whole { IfOk result (λ v. text_of (lines_view v.items) ≡ text.now) }
    ensures each { IfOk result (λ v. AllByRecursion IsOneLine (lines_view v.items)) }
{
    let mut lines = Vec::new(alloc);
    let mut line = Vec::new(alloc);
    for byte in text {
        cut(alloc, &mut lines, &mut line, *byte)?;
    }
    Ok(lines)
}
