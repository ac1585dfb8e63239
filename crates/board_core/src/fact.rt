//! What a reader of a book is shown of an entry.

ghost use Rattle.std.specs.Prelude.{◌≡◌};
ghost use Rattle.sys_terms.specs.View.{Machine};
ghost use Rattle.board_core.specs.View.{made_view, shown_view, IsMadeFor, IsShownFor};

use crate::cause::{Cause, Kept};
use crate::entry::Made;
use cert_rules::{Base, Held, Lemma, Step};
use sys_terms::State;

/// What an entry was made from, in the order of its constructor.
pub enum Fact<'a> {
    Base(&'a Base),
    Step(&'a Step),
    Lemma(&'a Lemma),
    /// With the places that it names.
    Held(&'a Held, u64, u64),
    /// The property and the path.
    Broken(u32, &'a [State]),
    /// The property, the path and the front.
    Stuck(u32, &'a [State], u64),
    /// The engine, the property, the cause and what is kept behind it.
    Spent(u32, u32, &'a Cause, &'a Kept),
}

/// What is shown of an entry.
pub(crate) fn shown(made: &Made) -> Fact<'_>
    ensures says { shown_view result ≡ made_view made.now }
    ensures system { (m : Machine) → IsMadeFor m made.now → IsShownFor m result }
{
    match made {
        Made::Base(base) => Fact::Base(base),
        Made::Step(step) => Fact::Step(step),
        Made::Lemma(lemma) => Fact::Lemma(lemma),
        Made::Held(held, first, second) => Fact::Held(held, *first, *second),
        Made::Broken(property, path) => Fact::Broken(*property, path),
        Made::Stuck(property, path, front) => Fact::Stuck(*property, path, *front),
        Made::Spent(engine, property, cause, kept) => Fact::Spent(*engine, *property, cause, kept),
    }
}
