//! Engines, which post what they find out at a seat.

ghost use Rattle.std.specs.Prelude.{◌≡◌, ◌≤◌, ◌<◌, ℕ, List, Option, [], Ok, All, length, take, IfOk, OnOk};
ghost use Rattle.sys_terms.specs.View.{Machine};
ghost use Rattle.board_core.specs.declared.plan.Plan.{Plan as Options};
ghost use Rattle.board_core.specs.declared.engine.Progress.{Progress};
ghost use Rattle.board_core.specs.declared.engine.Progress.TheVariants.{More, Spent, Decided};
ghost use Rattle.board_core.specs.Entries.{Posting};
ghost use Rattle.board_core.specs.Seats.{Stand, stand, Begins, Fits, Decides, DecidesAll, HasCauses, IsNumbered};

use crate::fault::EngineFault;
use crate::seat::BoardSeat;
use std::alloc::Global;

/// How a turn ended.
#[derive(Clone, Copy, Debug, PartialEq, Eq)]
pub enum Progress {
    /// There is more to do.
    More,
    /// For each property undecided in what was read, the cause is posted.
    Spent,
    /// What was read decides all properties.
    Decided,
}

/// Finds out about the properties of one system, turn by turn.
pub trait Engine {
    /// Its number, if it has one.
    ghost number: { Self → Option ℕ };

    /// The system that it is for, if it is for one.
    ghost machine: { Self → Option Machine };

    /// The plan that it is for, if it is for one.
    ghost plan: { Self → Option Options };

    /// The entries that it knows; a new engine knows none.
    ghost known: { Self → List Posting };

    /// The properties that it owes: what its seat has seen after its next turn decides them.
    ghost owed: { Self → List ℕ };

    /// How many turns it has left at most.
    ghost steps: { Self → ℕ };

    /// What a turn that ends in an answer does: the engine and where its seat stands before, the answer,
    /// and both after.
    ghost turn_gives: { Self → Stand → Progress → Self → Stand → Type 0 };

    /// Reads, works and posts. It asks for a seat whose book has its system and its plan, at which
    /// all that it knows has been seen and nothing else has been read.
    ///
    /// What the seat has seen only grows, whatever the turn answers, and the engine knows a front of
    /// it. After an `Ok` this front is no shorter than what was read. `Decided` comes only where what
    /// was read decides all properties, and of an engine with a number nothing else comes there. At
    /// `Spent` such an engine has posted, at this seat, a cause for each property that what was read
    /// leaves undecided. At `More` fewer turns are left. After an `Ok` the turn is one of those that
    /// `turn_gives` tells. After want of memory the engine is only dropped; the seat keeps what was read
    /// and posted.
    fn turn<B: BoardSeat>(&mut self, alloc: Global, seat: &mut B) -> Result<Progress, EngineFault>
        requires machine { Fits (machine self.old) (B.machine seat.old) }
        requires plan { Fits (plan self.old) (B.plan seat.old) }
        requires known { Begins (known self.old) (B.seen seat.old) }
        requires front { B.front seat.old ≤ length (known self.old) }
        ensures same { (number self.new ≡ number self.old) × (machine self.new ≡ machine self.old)
            × (plan self.new ≡ plan self.old) }
        ensures seat { (B.number seat.new ≡ B.number seat.old) × (B.machine seat.new ≡ B.machine seat.old)
            × (B.plan seat.new ≡ B.plan seat.old) × (B.lent seat.new ≡ B.lent seat.old) }
        ensures seen { Begins (B.seen seat.old) (B.seen seat.new) }
        ensures known { Begins (known self.new) (B.seen seat.new) }
        ensures front { OnOk result (B.front seat.new ≤ length (known self.new)) }
        ensures paid { OnOk result ((owed self.new ≡ []) × All (Decides (B.seen seat.new)) (owed self.old)) }
        ensures decided { result ≡ Ok Decided
            → DecidesAll (take (B.front seat.new) (B.seen seat.new)) (length (B.machine seat.new).properties) }
        ensures at_once { OnOk result (IsNumbered (number self.old)
            → DecidesAll (take (B.front seat.new) (B.seen seat.new)) (length (B.machine seat.new).properties)
            → result ≡ Ok Decided) }
        ensures spent { result ≡ Ok Spent
            → HasCauses (take (B.front seat.new) (B.seen seat.new)) (B.seen seat.new) (B.number seat.new)
            (number self.new) (length (B.machine seat.new).properties) }
        ensures falls { result ≡ Ok More → steps self.new < steps self.old }
        ensures gives { IfOk result (λ p.
            turn_gives self.old (stand (B.number seat.old) (B.front seat.old) (B.seen seat.old))
            p self.new (stand (B.number seat.new) (B.front seat.new) (B.seen seat.new))) };

    /// How many turns it has left at most.
    fn left(&self) -> u64
        ensures { result ≡ steps self.now };
}
