//! All that the program does.
ghost use Rattle.std.specs.Prelude.{◌≡◌, ◌+◌, ◌-◌, ◌^◌, ◌<◌, ◌≤◌, ◌++◌, ◌⊎◌, ◌∷◌, [], List, ℕ, map};
ghost use Rattle.std.specs.String.{string_bytes};
ghost use Rattle.kind_main.specs.Left.{Leaves, IsUsage, IsRefusal, IsUnread, IsProofCode, IsProofDone, IsReplayCode, IsReplayDone, IsBroken, IsShort, IsKnown};
ghost use Rattle.kind_main.specs.declared.options.Options.{Options as Choices};
ghost use Rattle.kind_main.specs.Words.{AreNoCommand, AreProve, AreReplay};

use crate::answer::answer_to;
use crate::print::{out_of_memory, print};
use crate::status::Status;
use kind_io::{Shelf, Sink};
use std::alloc::Global;

/// Answers the words and prints the answer.
fn run<H: Shelf, K: Sink>(alloc: Global, words: &[String], shelf: &mut H, out: &mut K) -> Status
    ensures leaves { Leaves (H.told shelf.old) (H.faults shelf.old) (H.faults shelf.new) (map string_bytes words.now)
        (K.faults out.old) (K.faults out.new) (K.written out.old) (K.written out.new) result.code }
    ensures names { (name : List ℕ) → H.told shelf.new name ≡ H.told shelf.old name }
{
    match answer_to(alloc, words, shelf) {
        Ok(answer) => print(&answer.lines, answer.status, out),
        Err(_) => out_of_memory(out),
    }
}

/// All that the program does: reads the words, fetches what they name, and prints the answer.
///
/// No words, and `prove` with at most a file, `--depth K` and `--engines LIST`, decide each property of
/// a source: the status is 0 where all are valid, 1 where some is falsifiable, and 4 where none is and
/// some is unknown. The words
/// `replay FILE TRACE` replay a trace on a source: the status is 1 where some property breaks, 10
/// where none does, and 9 where a value is outside 128 bits. It is 2 for all other words, 3 where the source or the
/// trace is refused, 5 where a file could not be read, 6 where a line could not be written, and 7 for want of
/// memory. What the shelf tells of each name stays the same; the sink is left as the calls on it left it.
pub fn kind_top<H: Shelf, K: Sink>(
    alloc: Global,
    words: &[String],
    shelf: &mut H,
    out: &mut K,
) -> Status
    // A proof, 0, 1 and 4: the file holds a source, and the lines say what is so of each of its properties: that it
    // holds, by which trace it breaks, or why neither was found. Where an engine was not cut short, neither was to be
    // found up to the depth.
    ensures proved { (file : List ℕ) (options : Choices) → AreProve (map string_bytes words.now) file options
        → IsProofCode result.code
        → IsProofDone options (H.told shelf.old file) (K.written out.old) (K.written out.new) result.code }
    // A replay, 1, 9 and 10: the files hold a source and a trace, and the lines say what the trace's one frame breaks,
    // or at 9 which value is the first outside 128 bits.
    ensures replayed { (file trace : List ℕ) → AreReplay (map string_bytes words.now) file trace
        → IsReplayCode result.code → IsReplayDone (H.told shelf.old) file trace (K.written out.old)
        (K.written out.new) result.code }
    // 2: the words are of no form that is built.
    ensures usage { result.code ≡ 2 → IsUsage (map string_bytes words.now) (K.written out.old) (K.written out.new) }
    // Where they are of a form that is built, 2 never comes.
    ensures words { result.code ≡ 2 → AreNoCommand (map string_bytes words.now) }
    // 3: a file of the command is outside, and the line says which.
    ensures refused { result.code ≡ 3 → IsRefusal (H.told shelf.old) (map string_bytes words.now)
        (K.written out.old) (K.written out.new) }
    // 5: the shelf's count of faults rose, and the line names the file.
    ensures unread { result.code ≡ 5 → IsUnread (H.told shelf.old) (H.faults shelf.old) (H.faults shelf.new)
        (map string_bytes words.now) (K.written out.old) (K.written out.new) }
    // 6: the sink's count of faults rose, and a front of what the call would have written is written.
    ensures broken { result.code ≡ 6 → IsBroken (H.told shelf.old) (H.faults shelf.old) (H.faults shelf.new)
        (map string_bytes words.now) (K.faults out.old) (K.faults out.new) (K.written out.old)
        (K.written out.new) }
    // 7: whole first lines of the answer are written, and then, where that was possible, that memory ran out.
    ensures short { result.code ≡ 7 → IsShort (H.told shelf.old) (H.faults shelf.old) (H.faults shelf.new)
        (map string_bytes words.now) (K.written out.old) (K.written out.new) }
    // There is no other status, and those of a proof or of a replay come for it alone.
    ensures known { IsKnown (map string_bytes words.now) result.code }
    // No file is changed: what the shelf tells of each name stays the same.
    ensures names { (name : List ℕ) → H.told shelf.new name ≡ H.told shelf.old name }
{
    run(alloc, words, shelf, out)
}
