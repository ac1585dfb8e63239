//! A seat of a book to which others may post as well.

ghost use Rattle.std.specs.Prelude.{◌≡◌, ◌+◌, ℕ, List, map, drop, take, length, IfOk, IfErr, OnOk, OnErr};
ghost use Rattle.std.specs.Borrow.{GName};
ghost use Rattle.sys_terms.specs.View.{Machine};
ghost use Rattle.board_core.specs.declared.plan.Plan.{Plan as Options};
ghost use Rattle.board_core.specs.Entries.{Posting, IsTrueAfter, AreSound};
ghost use Rattle.board_core.specs.View.{entry_view, IsFor, news_view, told_from};
ghost use Rattle.board_core.specs.Books.{history_of};
ghost use Rattle.board_core.specs.Verdicts.{decides};
ghost use Rattle.board_core.specs.Seats.{HasPosted, HasSeen};

use crate::book::Book;
use crate::entry::Entry;
use crate::fault::{BookFault, PostBack};
use crate::statement::News;
use std::alloc::Global;
use std::snapshot::Snapshot;

/// A seat of a book. The history of the book begins with what the seat has seen.
pub trait BoardSeat {
    /// The number that its entries bear. Those of its history that bear it are its own posts.
    ghost number: { Self → ℕ };

    /// What it has seen of the history: a front of it.
    ghost seen: { Self → List Posting };

    /// Its read front: how many entries its reads have answered.
    ghost front: { Self → ℕ };

    /// How many of its reads were answered.
    ghost reads: { Self → ℕ };

    /// The system of the book.
    ghost machine: { Self → Machine };

    /// The plan of the book.
    ghost plan: { Self → Options };

    /// The references that it holds and its calls keep.
    ghost lent: { Self → List GName };

    /// Puts a true entry last and answers its place. Others may have posted before. The read front
    /// stays, and so does all but what is seen where memory runs out; the entry then comes back.
    fn post(&mut self, entry: Entry) -> Result<u64, PostBack>
        requires system { IsFor (machine self.old) entry }
        requires true_one { IsTrueAfter (machine self.old) (plan self.old) (seen self.old) (entry_view entry) }
        ensures ok { IfOk result (λ place.
            HasPosted (number self.old) (seen self.old) (seen self.new) (entry_view entry) place) }
        ensures back { IfErr result (λ back. entry_view back.entry ≡ entry_view entry) }
        ensures seen { OnErr result (HasSeen (number self.old) (seen self.old) (seen self.new)) }
        ensures front { front self.new ≡ front self.old }
        ensures reads { reads self.new ≡ reads self.old }
        ensures same { (number self.new ≡ number self.old) × (machine self.new ≡ machine self.old)
            × (plan self.new ≡ plan self.old) × (lent self.new ≡ lent self.old) };

    /// The whole history from the read front on, which is then its length. Where memory runs out the
    /// read front stays.
    fn read(&mut self, alloc: Global) -> Result<Vec<News>, BookFault>
        ensures news { IfOk result (λ news. map news_view news.items
            ≡ told_from (front self.old) (drop (front self.old) (seen self.new))) }
        ensures sound { OnOk result (AreSound (machine self.old) (plan self.old) (seen self.new)) }
        ensures front { OnOk result (front self.new ≡ length (seen self.new)) }
        ensures reads { OnOk result (reads self.new ≡ reads self.old + 1) }
        ensures stays { OnErr result ((front self.new ≡ front self.old) × (reads self.new ≡ reads self.old)) }
        ensures seen { HasSeen (number self.old) (seen self.old) (seen self.new) }
        ensures same { (number self.new ≡ number self.old) × (machine self.new ≡ machine self.old)
            × (plan self.new ≡ plan self.old) × (lent self.new ≡ lent self.old) };

    /// What it has seen, for clauses alone: it takes no memory and no bytes.
    fn seen(&self) -> Snapshot<Book>
        ensures { history_of result.value ≡ seen self.now };

    /// Whether an entry that it has read holds or breaks the property.
    fn decided(&self, property: u32) -> bool
        ensures { result ≡ decides property (take (front self.now) (seen self.now)) };
}
