//! What is said of frames.

ghost use Rattle.std.specs.Prelude.{◌≡◌};
ghost use Rattle.sys_frames.specs.Lists.{no_lists};
ghost use Rattle.sys_frames.specs.Views.{lists_view};

use kind_num::Shape;
use std::alloc::Global;
use sys_terms::Term;

/// The shapes of variables, and what holds in the first state, in each state, between a state and the next, and what
/// is asserted.
#[derive(Drop)]
pub(crate) struct Lists {
    pub(crate) shapes: Vec<Shape>,
    pub(crate) first: Vec<Term>,
    pub(crate) here: Vec<Term>,
    pub(crate) next: Vec<Term>,
    pub(crate) asserts: Vec<Term>,
}

/// Nothing that is said.
pub(crate) fn no_lists(alloc: Global) -> Lists
    ensures { lists_view result ≡ no_lists }
{
    Lists {
        shapes: Vec::new(alloc),
        first: Vec::new(alloc),
        here: Vec::new(alloc),
        next: Vec::new(alloc),
        asserts: Vec::new(alloc),
    }
}
