//! Entries before they have a place. Making one takes no memory.

ghost use Rattle.std.specs.Prelude.{◌≡◌, List};
ghost use Rattle.sys_terms.specs.View.{Machine, states_view};
ghost use Rattle.cert_rules.specs.Facts.{AreCited};
ghost use Rattle.cert_rules.specs.Kept.{base_view, base_machine, base_cites, step_view, step_machine, step_cites, lemma_view, lemma_machine, lemma_cites, held_at, held_machine};
ghost use Rattle.board_core.specs.declared.plan.Plan.{Plan as Options};
ghost use Rattle.board_core.specs.Entries.{proved, broken, stuck, spent, Posting, IsTrueAfter, facts_in};
ghost use Rattle.board_core.specs.View.{entry_view, cause_view, grounds_view, IsFor};

use crate::cause::{Cause, Kept};
use cert_rules::{Base, Held, Lemma, Step};
use std::fmt;
use sys_terms::State;

/// What an entry was made from.
#[derive(Drop)]
pub(crate) enum Made {
    Base(Base),
    Step(Step),
    Lemma(Lemma),
    Held(Held, u64, u64),
    Broken(u32, Vec<State>),
    Stuck(u32, Vec<State>, u64),
    Spent(u32, u32, Cause, Kept),
}

/// An entry, before it has a place. That it is true is asked where it is posted.
#[derive(Drop)]
pub struct Entry {
    pub(crate) made: Made,
}

impl fmt::Debug for Entry {
    fn fmt<W: fmt::Write>(&self, f: &mut fmt::Formatter<W>) -> fmt::Result {
        f.write_str("Entry")
    }
}

impl Entry {
    /// A base. It is true after any entries that have the lemmas which it cites at their places.
    pub fn base(fact: Base) -> Entry
        ensures says { entry_view result ≡ proved (base_view fact) }
        ensures system { IsFor (base_machine fact) result }
        ensures is_true { (plan : Options) (earlier : List Posting) → AreCited (facts_in earlier) (base_cites fact)
            → IsTrueAfter (base_machine fact) plan earlier (entry_view result) }
    {
        cert_rules::laws::unbroken_rules_are_facts();
        Entry {
            made: Made::Base(fact),
        }
    }

    /// A step. It is true after any entries that have the lemmas which it cites at their places.
    pub fn step(fact: Step) -> Entry
        ensures says { entry_view result ≡ proved (step_view fact) }
        ensures system { IsFor (step_machine fact) result }
        ensures is_true { (plan : Options) (earlier : List Posting) → AreCited (facts_in earlier) (step_cites fact)
            → IsTrueAfter (step_machine fact) plan earlier (entry_view result) }
    {
        cert_rules::laws::unbroken_rules_are_facts();
        Entry {
            made: Made::Step(fact),
        }
    }

    /// A lemma. It is true after any entries that have the lemmas which it cites at their places.
    pub fn lemma(fact: Lemma) -> Entry
        ensures says { entry_view result ≡ proved (lemma_view fact) }
        ensures system { IsFor (lemma_machine fact) result }
        ensures is_true { (plan : Options) (earlier : List Posting) → AreCited (facts_in earlier) (lemma_cites fact)
            → IsTrueAfter (lemma_machine fact) plan earlier (entry_view result) }
    {
        cert_rules::laws::unbroken_rules_are_facts();
        Entry {
            made: Made::Lemma(fact),
        }
    }

    /// A held property with the places of the base and the step entry, or twice that of the lemma
    /// entry.
    pub fn held(fact: Held, first: u64, second: u64) -> Entry
        ensures says { entry_view result ≡ proved (held_at fact first second) }
        ensures system { IsFor (held_machine fact) result }
    {
        Entry {
            made: Made::Held(fact, first, second),
        }
    }

    /// A property that this path breaks.
    pub fn broken(property: u32, path: Vec<State>) -> Entry
        ensures says { entry_view result ≡ broken property (states_view path.items) }
        ensures system { (m : Machine) → IsFor m result }
    {
        Entry {
            made: Made::Broken(property, path),
        }
    }

    /// A path at which induction is stuck, the lemmas at places below the front being true on it.
    pub fn stuck(property: u32, path: Vec<State>, front: u64) -> Entry
        ensures says { entry_view result ≡ stuck property (states_view path.items) front }
        ensures system { (m : Machine) → IsFor m result }
    {
        Entry {
            made: Made::Stuck(property, path, front),
        }
    }

    /// The cause for which an engine leaves a property undecided, with what shows it.
    pub fn spent(engine: u32, property: u32, cause: Cause, kept: Kept) -> Entry
        ensures says { entry_view result ≡ spent engine property (cause_view cause) (grounds_view kept) }
        ensures system { (m : Machine) → IsFor m result }
    {
        Entry {
            made: Made::Spent(engine, property, cause, kept),
        }
    }
}
