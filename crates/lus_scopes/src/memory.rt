//! The refusal of a program for which memory runs out.

ghost use Rattle.std.specs.Prelude.{◌≡◌};
ghost use Rattle.lus_tree.specs.Reason.{memory, refusal_view};
ghost use Rattle.lus_meaning.specs.Faults.{fault};
ghost use Rattle.lus_meaning.specs.NameFaults.{start_of_text};

use lus_tree::{Pos, Refusal, What};

/// The refusal of a program for want of memory, which no place in it is to blame for.
pub fn no_memory() -> Refusal
    ensures { refusal_view result ≡ fault memory start_of_text }
{
    Refusal {
        at: Pos { line: 1, column: 1 },
        what: What::Memory,
    }
}
