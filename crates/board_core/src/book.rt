//! The book itself.

ghost use Rattle.std.specs.Prelude.{◌≡◌, ◌++◌, ◌∷◌, [], ◌<◌, Some, IfOk, OnOk, OnErr, IfErr, length, map, take, drop, slice_get, option_map};
ghost use Rattle.sys_terms.specs.View.{system_view};
ghost use Rattle.sys_terms.specs.Fits.{IsMild};
ghost use Rattle.board_core.specs.Plans.{IsPlan};
ghost use Rattle.board_core.specs.Entries.{IsTrueAfter, AreSound};
ghost use Rattle.board_core.specs.Verdicts.{verdict_view, judged, decides, cause_of};
ghost use Rattle.board_core.specs.View.{entry_view, cause_view, shown_view, IsFor, IsShownFor, news_view, told_from};
ghost use Rattle.board_core.specs.Books.{history_of, machine_of, plan_of};

use crate::cause::Cause;
use crate::entry::Entry;
use crate::fact::{Fact, shown};
use crate::fault::{BookFault, PostBack};
use crate::judging::{decide, first_cause, judge};
use crate::plan::Plan;
use crate::posted::Posted;
use crate::statement::News;
use crate::telling::told;
use crate::verdict::Verdict;
use std::alloc::{AllocFailed, Global};
use std::marker::Model;
use sys_terms::System;

/// A system, a plan and entries numbered by place from 0, each of which is true of the system after
/// those before it.
#[derive(Drop)]
pub struct Book {
    pub(crate) system: System,
    pub(crate) plan: Plan,
    pub(crate) entries: Vec<Posted>,
}

impl Model for Book {
    ghost use Rattle.std.specs.Coded.{codes};
    ghost use Rattle.sys_terms.specs.contracts.term.Term as e;
    ghost use Rattle.board_core.specs.Books.{Contents, IsBook};

    ghost Value = { Contents };

    ghost coded = { Prim.hlevel (codes, e.the_row.coded) };

    ghost view = { λ b. (b.system, b.plan, b.entries.items) };

    ghost invariant = { λ b. IsBook (b.system, b.plan, b.entries.items) };
}

impl Book {
    /// A book without entries. It takes no memory.
    pub fn open(alloc: Global, system: System, plan: Plan) -> Book
        requires mild { IsMild (system_view system) }
        requires plan { IsPlan plan }
        ensures entries { history_of result ≡ [] }
        ensures system { machine_of result ≡ system_view system }
        ensures plan { plan_of result ≡ plan }
    {
        Book {
            system,
            plan,
            entries: Vec::new(alloc),
        }
    }

    /// Puts a true entry last and answers its place. Where memory runs out the entry comes back, and
    /// the book is as before.
    pub fn post(&mut self, seat: u32, entry: Entry) -> Result<u64, PostBack>
        requires system { IsFor (machine_of self.old) entry }
        requires true_one { IsTrueAfter (machine_of self.old) (plan_of self.old)
            (history_of self.old) (entry_view entry) }
        ensures ok { OnOk result (history_of self.new
            ≡ history_of self.old ++ record { seat = seat; says = entry_view entry } ∷ []) }
        ensures place { IfOk result (λ place. place ≡ length (history_of self.old)) }
        ensures back { IfErr result (λ back. entry_view back.entry ≡ entry_view entry) }
        ensures stays { OnErr result (history_of self.new ≡ history_of self.old) }
        ensures same { (machine_of self.new ≡ machine_of self.old) × (plan_of self.new ≡ plan_of self.old) }
    {
        let place = self.entries.len() as u64;
        match self.entries.push(Posted {
            seat,
            made: entry.made,
        }) {
            Ok(()) => Ok(place),
            Err(AllocFailed { value }) => Err(PostBack {
                entry: Entry { made: value.made },
            }),
        }
    }

    /// How many entries it has.
    pub fn count(&self) -> u64
        ensures count { result ≡ length (history_of self.now) }
        ensures sound { AreSound (machine_of self.now) (plan_of self.now) (history_of self.now) }
    {
        self.entries.len() as u64
    }

    /// The entries from the front on, told with their places and seats; none where the front is the
    /// count or more.
    pub fn after(&self, alloc: Global, front: u64) -> Result<Vec<News>, BookFault>
        ensures news { IfOk result (λ news. map news_view news.items
            ≡ told_from front (drop front (history_of self.now))) }
        ensures sound { AreSound (machine_of self.now) (plan_of self.now) (history_of self.now) }
    {
        told(alloc, &self.entries, front as usize)
    }

    /// What the first entry that holds or breaks the property says. It takes no memory.
    pub fn verdict(&self, property: u32) -> Verdict
        ensures first { verdict_view result ≡ judged property (history_of self.now) }
        ensures sound { AreSound (machine_of self.now) (plan_of self.now) (history_of self.now) }
    {
        judge(&self.entries, property)
    }

    /// Whether an entry holds or breaks the property. It takes no memory.
    pub fn decided(&self, property: u32) -> bool
        ensures { result ≡ decides property (history_of self.now) }
    {
        decide(&self.entries, property)
    }

    /// The same of the entries below the front.
    pub(crate) fn decided_before(&self, front: u64, property: u32) -> bool
        ensures { result ≡ decides property (take front (history_of self.now)) }
    {
        let end = self.entries.len().min(front as usize);
        decide(&self.entries[..end], property)
    }

    /// The cause of the engine's first entry that leaves the property undecided; none exactly where
    /// there is no such entry. It takes no memory.
    pub fn spent(&self, engine: u32, property: u32) -> Option<&Cause>
        ensures { option_map (λ c. cause_view c.now) result ≡ cause_of engine property (history_of self.now) }
    {
        first_cause(&self.entries, engine, property)
    }

    /// What the entry at the place was made from. It takes no memory.
    pub fn entry(&self, place: u64) -> Fact<'_>
        requires { place < length (history_of self.now) }
        ensures says { option_map (λ i. i.says) (slice_get (history_of self.now) place) ≡ Some (shown_view result) }
        ensures system { IsShownFor (machine_of self.now) result }
    {
        shown(&self.entries[place as usize].made)
    }
}
