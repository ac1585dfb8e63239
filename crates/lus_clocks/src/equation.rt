//! The faults of an expression at its place, and of an equation.

ghost use Rattle.std.specs.Prelude.{◌≡◌, not, map};
ghost use Rattle.lus_tree.specs.Tree.{text_of};
ghost use Rattle.lus_tree.specs.View.{expr_view, word_view};
ghost use Rattle.lus_meaning.specs.ClockFaults.{same_clock};
ghost use Rattle.lus_meaning.specs.Scene.{clock_of};
ghost use Rattle.lus_scopes.specs.Least.{least_view, noted_all};
ghost use Rattle.lus_streams.specs.Clocks.{clock_seen};
ghost use Rattle.lus_clocks.specs.Items.{placed_walk, side_walk, some_other};
ghost use Rattle.lus_streams.specs.Names.{names_view};

use crate::notes::stands_on;
use crate::part::part;
use lus_scopes::least::Least;
use lus_streams::clock::{Clock, is_same};
use lus_streams::lookup::side_clock;
use lus_streams::names::Names;
use lus_tree::{Expr, PlacedName, What};

/// Notes the faults of an expression at a place of this clock.
pub(crate) fn placed(names: Names<'_, '_>, least: &mut Least, clock: Clock<'_>, e: &Expr)
    ensures { least_view least.new ≡ noted_all (least_view least.old)
        (placed_walk (names_view names.entry) (clock_seen clock.entry) (expr_view e.now)) }
{
    let found = part(names, least, e);
    stands_on(least, clock, &found);
}

/// Whether a name is on another clock.
fn is_other(names: Names<'_, '_>, clock: Clock<'_>, word: &PlacedName) -> bool
    ensures { result
        ≡ not (same_clock (clock_seen clock.entry) (clock_of (names_view names.entry) (word_view word.now).text)) }
{
    !is_same(clock, names.clock_or_base(&word.text))
}

/// Whether one of these names is on another clock.
fn some_other(names: Names<'_, '_>, clock: Clock<'_>, words: &[PlacedName]) -> bool
    ensures { result
        ≡ some_other (names_view names.entry) (clock_seen clock.entry) (map text_of (map word_view words.now)) }
{
    for word in words {
        if is_other(names, clock, word) {
            return true;
        }
    }
    false
}

/// Notes the faults of an equation of these left names.
pub(crate) fn equation(names: Names<'_, '_>, least: &mut Least, words: &[PlacedName], e: &Expr)
    ensures { least_view least.new ≡ noted_all (least_view least.old)
        (side_walk (names_view names.entry) (map text_of (map word_view words.now)) (expr_view e.now)) }
{
    let clock = side_clock(names, words);
    let clash = some_other(names, clock, words);
    least.note_if(clash, What::ClockClash, e.from);
    placed(names, least, clock, e);
}
