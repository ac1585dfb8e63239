//! The answer to the words: how their command ends, where memory is found, and what is printed of it.
ghost use Rattle.std.specs.Prelude.{◌≡◌, ◌∷◌, [], List, map, IfOk, IsSomeAnd, ℕ};
ghost use Rattle.std.specs.String.{string_bytes};
ghost use Rattle.kind_main.specs.Ending.{IfEnded, ending_of, lines_view, Shows};
ghost use Rattle.kind_main.specs.Answer.{EndsSo, IsAnswer};

use crate::ending::{Report, Stopped};
use crate::proving::prove_file;
use crate::replaying::replay_files;
use crate::status::Status;
use crate::text::read_fault_text;
use crate::words::{Command, read_words};
use kind_io::Shelf;
use std::alloc::{AllocError, Global};

/// Carries out the command of the words. What the shelf tells of each name stays the same.
fn carried_out<H: Shelf>(alloc: Global, words: &[String], shelf: &mut H) -> Result<Report, Stopped>
    ensures ended { IfEnded (EndsSo (H.told shelf.old) (H.faults shelf.old) (H.faults shelf.new)
        (map string_bytes words.now)) result }
    ensures names { (name : List ℕ) → H.told shelf.new name ≡ H.told shelf.old name }
{
    match read_words(words) {
        None => Err(Stopped::Usage),
        Some(Command::Prove { source, options }) => prove_file(alloc, source, options, shelf),
        Some(Command::Replay { source, trace }) => replay_files(alloc, source, trace, shelf),
    }
}

/// A report of one line.
fn one_line(alloc: Global, line: String, code: u8) -> Result<Report, AllocError>
    ensures lines { IfOk result (λ r. lines_view r.lines.items ≡ string_bytes line ∷ []) }
    ensures status { IfOk result (λ r. r.status.code ≡ code) }
{
    let mut lines = Vec::new(alloc);
    lines.push(line.into_bytes())?;
    Ok(Report {
        lines,
        status: Status { code },
    })
}

/// What is printed of a command's end.
fn printed(alloc: Global, ended: Result<Report, Stopped>) -> Result<Report, AllocError>
    ensures { IfOk result (λ r. IsSomeAnd (ending_of ended) (Shows (lines_view r.lines.items) r.status.code)) }
{
    match ended {
        Ok(report) => Ok(report),
        Err(Stopped::Usage) => {
            let line = String::from_str(
                alloc,
                "usage: kind prove [FILE] | check FILE CERT | replay FILE TRACE | make NUMBER\n",
            )?;
            one_line(alloc, line, 2)
        }
        Err(Stopped::Unread(name)) => {
            let line = read_fault_text(alloc, name.as_str())?;
            one_line(alloc, line, 5)
        }
        Err(Stopped::Refused(line)) => one_line(alloc, line, 3),
        Err(Stopped::Memory) => Err(AllocError),
    }
}

/// The lines that answer the words, and the status behind them.
pub fn answer_to<H: Shelf>(
    alloc: Global,
    words: &[String],
    shelf: &mut H,
) -> Result<Report, AllocError>
    ensures answer { IfOk result (λ r. IsAnswer (H.told shelf.old) (H.faults shelf.old) (H.faults shelf.new)
        (map string_bytes words.now)
        (lines_view r.lines.items) r.status.code) }
    ensures names { (name : List ℕ) → H.told shelf.new name ≡ H.told shelf.old name }
{
    let ended = carried_out(alloc, words, shelf);
    printed(alloc, ended)
}
