//! The clocks of a declaration's names.

ghost use Rattle.std.specs.Prelude.{◌≡◌, ◌<◌, length, map, option_map, slice_index_or};
ghost use Rattle.lus_tree.specs.Tree.{text_of};
ghost use Rattle.lus_tree.specs.View.{param_view, word_view};
ghost use Rattle.lus_meaning.specs.ClockFaults.{name_clock};
ghost use Rattle.lus_meaning.specs.Scene.{clock_of, clock_of_names, variables};
ghost use Rattle.lus_streams.specs.Clocks.{clock_seen, clocks_seen};
ghost use Rattle.lus_streams.specs.Names.{names_view};
ghost use Rattle.lus_streams.specs.Owner.{owner_view};
ghost use Rattle.lus_streams.specs.Streams.{AreOf, stream_named};

use crate::clock::{Clock, declared};
use crate::names::Names;
use crate::owner::Owner;
use crate::streams::Streams;
use lus_tree::{Param, PlacedName};

/// A declaration with its streams.
pub fn with_streams<'a, 's>(owner: Owner<'a>, streams: &'s Streams<'a>) -> Names<'a, 's>
    requires { AreOf streams.now (variables (owner_view owner)) }
    ensures { names_view result ≡ owner_view owner.entry }
{
    Names { owner, streams }
}

/// The stream of that number.
fn numbered<'a>(streams: &[&'a Param], number: usize) -> &'a Param
    requires { number < length streams.now }
    ensures { result ≡ slice_index_or streams.now number result }
{
    streams[number]
}

impl<'a, 's> Names<'a, 's> {
    /// The first stream of that name.
    fn stream(self, name: &str) -> Option<&'a Param>
        ensures { option_map (λ v. param_view v.now) result
            ≡ stream_named (variables (names_view self.entry)) name.now }
    {
        match self.streams.numbers.number(name) {
            Some(number) => Some(numbered(&self.streams.firsts, number)),
            None => None,
        }
    }

    /// The clock of a stream; a constant has none.
    pub fn clock(self, name: &str) -> Option<Clock<'a>>
        ensures { clocks_seen result ≡ name_clock (names_view self.entry) name.now }
    {
        match self.stream(name) {
            Some(stream) => Some(declared(&stream.clock)),
            None => None,
        }
    }

    /// The clock of a stream, and the base clock of what is none.
    pub fn clock_or_base(self, name: &str) -> Clock<'a>
        ensures { clock_seen result ≡ clock_of (names_view self.entry) name.now }
    {
        match self.stream(name) {
            Some(stream) => declared(&stream.clock),
            None => Clock::Base,
        }
    }
}

/// The clock of an equation of these left names.
pub fn side_clock<'a>(names: Names<'a, '_>, words: &[PlacedName]) -> Clock<'a>
    ensures { clock_seen result ≡ clock_of_names (names_view names.entry) (map text_of (map word_view words.now)) }
{
    match words {
        [] => Clock::Base,
        [word, ..] => names.clock_or_base(&word.text),
    }
}
