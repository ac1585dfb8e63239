//! Declarations with their calls, and frames of them.

ghost use Rattle.std.specs.Prelude.{◌≡◌, ◌<◌, IfSome, map, option_map, pred, slice_get};
ghost use Rattle.lus_tree.specs.View.{param_view, program_view};
ghost use Rattle.lus_meaning.specs.Scene.{call_instance, clock_of, component_of, outputs_of};
ghost use Rattle.lus_streams.specs.Clocks.{clock_seen};
ghost use Rattle.lus_streams.specs.Names.{names_view};
ghost use Rattle.lus_streams.specs.Streams.{names_of};
ghost use Rattle.evaluation_parts.specs.Unfolded.{called_instance, calls_at, counted_from_one, declared_outputs, linked_outputs};
ghost use Rattle.evaluation_parts.specs.Views.{all_view, declared_view, frame_declared, frame_instance, instance_there, link_view, links_view};

use crate::item::item_at;
use lus_streams::clock::Clock;
use lus_streams::names::Names;
use lus_tree::{Expr, Param, PlacedName, Program};

/// How a call runs: on its clock, where besides a condition is true, or as an import with these outputs.
#[derive(Clone, Copy)]
pub enum Manner<'a> {
    Plain,
    While(&'a Expr),
    Import(&'a [PlacedName]),
}

/// A call or an import: its number, whom it calls, the clock of its place, its arguments and defaults, how it runs, and
/// the place of the callee among the declarations of the program.
#[derive(Clone, Copy)]
pub struct Link<'a> {
    pub number: u32,
    pub callee: &'a str,
    pub clock: Clock<'a>,
    pub arguments: &'a [Expr],
    pub defaults: &'a [Expr],
    pub manner: Manner<'a>,
    pub place: usize,
}

/// A declaration with its streams, and its calls and imports in the order of their numbers.
#[derive(Drop)]
pub struct Declared<'a, 's> {
    pub names: Names<'a, 's>,
    pub links: Vec<Link<'a>>,
}

/// A frame: its declaration among those of a program, with calls nested in it no deeper than said.
#[derive(Clone, Copy)]
pub struct Frame<'a, 't> {
    pub program: &'a Program,
    pub all: &'t [Declared<'a, 't>],
    pub depth: usize,
    pub declared: &'t Declared<'a, 't>,
}

/// The number counted from 0 of what is counted from 1.
pub(crate) fn from_zero(number: u32) -> u32
    ensures { result ≡ pred number }
{
    if number == 0 { 0 } else { number - 1 }
}

/// A call by its place.
fn link_at<'a, 's>(links: &'s [Link<'a>], place: usize) -> Option<&'s Link<'a>>
    ensures { option_map (λ l. link_view l.now) result ≡ slice_get (links_view links.now) place }
{
    item_at(links, place)
}

impl<'a, 't> Frame<'a, 't> {
    /// The streams of its declaration by their names.
    pub(crate) fn names(self) -> Names<'a, 't>
        ensures { names_view result ≡ component_of (frame_instance self.entry) }
    {
        self.declared.names
    }

    /// The clock of a stream, and the base clock of what is none.
    pub(crate) fn clock(self, name: &str) -> Clock<'a>
        ensures { clock_seen result ≡ clock_of (component_of (frame_instance self.entry)) name.now }
    {
        self.names().clock_or_base(name)
    }

    /// Its calls and imports; none where none may be nested in it.
    pub(crate) fn links(self) -> &'t [Link<'a>]
        ensures { links_view result.now ≡ calls_at self.entry.depth (frame_declared self.entry) }
    {
        if self.depth == 0 {
            &[]
        } else {
            &self.declared.links
        }
    }

    /// The declaration of that place.
    pub(crate) fn declared_at(self, place: usize) -> Option<&'t Declared<'a, 't>>
        ensures { option_map (λ d. declared_view d.now) result
            ≡ slice_get (all_view self.entry.all.now) place }
    {
        item_at(self.all, place)
    }

    /// The outputs of the declaration of that place.
    fn outputs_at(self, place: usize) -> &'a [Param]
        ensures { names_of (map param_view result.now)
            ≡ declared_outputs (slice_get (all_view self.entry.all.now) place) }
    {
        match self.declared_at(place) {
            Some(declared) => declared.names.owner.outputs(),
            None => &[],
        }
    }

    /// The outputs of what is called; none where it is not there.
    fn outputs_there(self, link: Option<&Link<'a>>) -> &'a [Param]
        ensures { names_of (map param_view result.now)
            ≡ linked_outputs (all_view self.entry.all.now) (option_map (λ l. link_view l.now) link.entry) }
    {
        match link {
            Some(link) => self.outputs_at(link.place),
            None => &[],
        }
    }

    /// The call with that number.
    fn link(self, number: u32) -> Option<&'t Link<'a>>
        ensures { option_map (λ l. link_view l.now) result
            ≡ counted_from_one (calls_at self.entry.depth (frame_declared self.entry)) number }
    {
        if number == 0 {
            return None;
        }
        link_at(self.links(), number as usize - 1)
    }

    /// The outputs of the call with that number.
    pub(crate) fn outputs(self, number: u32) -> &'a [Param]
        ensures { names_of (map param_view result.now) ≡ outputs_of (call_instance (frame_instance self.entry) number) }
    {
        self.outputs_there(self.link(number))
    }

    /// The frame of a call of the declaration of that place.
    pub(crate) fn below(self, place: usize) -> Option<Frame<'a, 't>>
        requires { 0 < self.depth }
        ensures instance { instance_there (program_view self.entry.program.now) result
            ≡ called_instance (program_view self.entry.program.now) (all_view self.entry.all.now)
            (pred self.entry.depth) place }
        ensures shallower { IfSome result (λ f. f.depth ≡ pred self.entry.depth) }
    {
        match self.declared_at(place) {
            Some(declared) => Some(Frame {
                program: self.program,
                all: self.all,
                depth: self.depth - 1,
                declared,
            }),
            None => None,
        }
    }
}
