//! A seat of a book that one thread lends to one engine at a time.

ghost use Rattle.std.specs.Prelude.{◌≡◌, ◌≤◌, ◌∷◌, [], length};
ghost use Rattle.board_core.specs.Books.{history_of, machine_of, plan_of};
ghost use Rattle.board_core.specs.Chairs.{chair_number, chair_front, chair_reads, chair_history, chair_machine, chair_plan, chair_lent};

use crate::book::Book;
use crate::entry::Entry;
use crate::fault::{BookFault, PostBack};
use crate::seat::BoardSeat;
use crate::statement::News;
use std::alloc::Global;
use std::snapshot::Snapshot;

/// A seat over a lent book. It has seen the whole book, and nobody else posts meanwhile.
#[derive(Drop)]
pub struct Chair<'b> {
    pub(crate) book: &'b mut Book,
    pub(crate) number: u32,
    pub(crate) front: u64,
    pub(crate) reads: u64,
}

impl<'b> Chair<'b> {
    /// A chair whose posts bear the number. `seen` is its read front: the entries before it count as
    /// answered. It takes no memory.
    pub fn at(book: &'b mut Book, number: u32, seen: u64) -> Chair<'b>
        requires { seen ≤ length (history_of book.old) }
        ensures book { (chair_history result ≡ history_of book.old) × (chair_machine result ≡ machine_of book.old)
            × (chair_plan result ≡ plan_of book.old) × (chair_lent result ≡ book.entry.ghost_name ∷ []) }
        ensures number { chair_number result ≡ number }
        ensures front { chair_front result ≡ seen }
        ensures reads { chair_reads result ≡ 0 }
    {
        Chair {
            book,
            number,
            front: seen,
            reads: 0,
        }
    }

    /// Its read front. It takes no memory.
    pub fn seen(&self) -> u64
        ensures { result ≡ chair_front self.now }
    {
        self.front
    }
}

impl BoardSeat for Chair<'_> {
    ghost number = { λ c. c.number };

    ghost seen = { λ c. history_of c.book.now };

    ghost front = { λ c. c.front };

    ghost reads = { λ c. c.reads };

    ghost machine = { λ c. machine_of c.book.now };

    ghost plan = { λ c. plan_of c.book.now };

    ghost lent = { λ c. c.book.ghost_name ∷ [] };

    fn post(&mut self, entry: Entry) -> Result<u64, PostBack> {
        self.book.post(self.number, entry)
    }

    fn read(&mut self, alloc: Global) -> Result<Vec<News>, BookFault> {
        let Some(reads) = self.reads.checked_add(1) else {
            return Err(BookFault::Memory);
        };
        let news = self.book.after(alloc, self.front)?;
        self.front = self.book.count();
        self.reads = reads;
        Ok(news)
    }

    fn seen(&self) -> Snapshot<Book> {
        Snapshot::of(&*self.book)
    }

    fn decided(&self, property: u32) -> bool {
        self.book.decided_before(self.front, property)
    }
}
