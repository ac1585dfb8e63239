//! A declaration with its streams by their names.

ghost use Rattle.lus_meaning.specs.Scene.{variables};
ghost use Rattle.lus_streams.specs.Owner.{owner_view};
ghost use Rattle.lus_streams.specs.Streams.{names_of, params_view, stream_named};
ghost use Rattle.std.specs.Prelude.{◌≡◌};
ghost use Rattle.lus_tree.specs.Tree.{Name};

use crate::owner::Owner;
use crate::streams::Streams;

/// What a place knows of the clocks of names: the declaration in which it stands, and a table of its
/// streams.
#[derive(Clone, Copy)]
pub struct Names<'a, 's> {
    pub owner: Owner<'a>,
    pub streams: &'s Streams<'a>,
    ghost named: { streams.now.numbers ≡ names_of (params_view streams.now.firsts.items) },
    ghost first: { (x : Name) → stream_named (params_view streams.now.firsts.items) x
        ≡ stream_named (variables (owner_view owner)) x },
}
