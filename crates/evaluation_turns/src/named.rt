//! A declaration with its streams by name.

ghost use Rattle.std.specs.Prelude.{◌≡◌};
ghost use Rattle.lus_tree.specs.Tree.{Name};
ghost use Rattle.lus_meaning.specs.Scene.{variables};
ghost use Rattle.lus_streams.specs.Owner.{owner_view};
ghost use Rattle.lus_streams.specs.Streams.{names_of, params_view, stream_named};

use lus_streams::streams::Streams;
use sys_tables::table::Table;

/// What is known of a declaration, and its streams by name.
#[derive(Drop)]
pub struct Source<'a, 't> {
    pub(crate) table: &'t Table<'a>,
    pub(crate) streams: Streams<'a>,
    ghost named: { streams.numbers ≡ names_of (params_view streams.firsts.items) },
    ghost first: { (x : Name) → stream_named (params_view streams.firsts.items) x
        ≡ stream_named (variables (owner_view table.now.owner)) x },
}
