//! Printing an answer, a put for each line.
ghost use Rattle.std.specs.Prelude.{◌≡◌, ◌+◌, ◌-◌, ◌^◌, ◌≤◌, ◌++◌, ◌⊎◌, ◌∷◌, [], List, Option, ℕ};
ghost use Rattle.kind_io.specs.Counts.{Rose};
ghost use Rattle.kind_main.specs.Ending.{lines_view};
ghost use Rattle.kind_main.specs.Lines.{memory_line};
ghost use Rattle.kind_main.specs.Printing.{Printed, IsSaid};

use crate::status::Status;
use kind_io::{PutFault, Sink};

/// Says that memory ran out: status 7, or 6 where that could not be written.
pub fn out_of_memory<K: Sink>(out: &mut K) -> Status
    ensures said { IsSaid (K.faults out.old) (K.faults out.new) (K.written out.old) (K.written out.new) result.code }
    ensures later { K.faults out.old ≤ K.faults out.new }
{
    match out.put(b"out of memory\n") {
        Err(PutFault::Failed) => Status { code: 6 },
        Ok(()) | Err(PutFault::Memory) => Status { code: 7 },
    }
}

/// Prints the lines of an answer. The status is the one handed in, 6 where a line could not be
/// written, or 7 where memory ran out.
pub fn print<K: Sink>(lines: &[Vec<u8>], status: Status, out: &mut K) -> Status
    ensures { Printed (lines_view lines.now) status.code
        (K.faults out.old) (K.faults out.new) (K.written out.old) (K.written out.new) result.code }
{
    for line in lines {
        match out.put(line) {
            Ok(()) => {}
            Err(PutFault::Failed) => return Status { code: 6 },
            Err(PutFault::Memory) => return out_of_memory(out),
        }
    }
    status
}
