//! The sizes of the presences of clocks.

ghost use Rattle.std.specs.Prelude.{◌≡◌, ◌+◌, ◌∷◌, [], ℕ, length, map};
ghost use Rattle.lus_tree.specs.View.{contract_item_view};
ghost use Rattle.lus_meaning.specs.Scene.{ghosts};
ghost use Rattle.lus_meaning.specs.Sizes.{presence};
ghost use Rattle.lus_streams.specs.Clocks.{clock_seen};
ghost use Rattle.lus_limits.specs.Measured.{passes};
ghost use Rattle.lus_streams.specs.Names.{names_view};
ghost use Rattle.lus_limits.specs.SizeCuts.{cut_term};
ghost use Rattle.lus_limits.specs.Measured.{size_view};

use crate::term_size::{Size, cut, leaf, one, two};
use lus_streams::clock::Clock;
use lus_streams::names::Names;
use lus_tree::{ContractItem, Param};

/// A clock on the way to the end of its negations, and the size of those that are behind.
#[derive(Clone, Copy)]
struct Passing<'a> {
    clock: Clock<'a>,
    size: Size,
}

/// One negation further, where the clock is one.
#[tactic(auto, using(crate::proofs::Measures::base_passed, crate::proofs::Measures::true_passed, crate::proofs::Measures::false_passed))]
fn step<'a>(names: Names<'a, '_>, passing: Passing<'a>) -> Passing<'a>
    ensures { (d : ℕ) → passes d (names_view names.entry) (clock_seen result.clock) (size_view result.size)
        ≡ passes (d + 1) (names_view names.entry) (clock_seen passing.entry.clock) (size_view passing.entry.size) }
{
    match passing.clock {
        Clock::Base | Clock::Sampled(true, _) => passing,
        Clock::Sampled(false, name) => Passing {
            clock: names.clock_or_base(&name.text),
            size: two(passing.size, one(leaf())),
        },
    }
}

/// As many steps as there are streams.
fn steps<'a>(names: Names<'a, '_>, streams: &[Param], passing: Passing<'a>) -> Passing<'a>
    ensures { (d : ℕ) → passes d (names_view names.entry) (clock_seen result.clock) (size_view result.size)
        ≡ passes (d + length streams.now) (names_view names.entry) (clock_seen passing.entry.clock)
        (size_view passing.entry.size) }
{
    let mut passing = passing;
    for _stream in streams {
        passing = step(names, passing);
    }
    passing
}

/// A step where the item is a ghost variable.
fn ghost_step<'a>(names: Names<'a, '_>, item: &ContractItem, passing: Passing<'a>) -> Passing<'a>
    ensures { (d : ℕ) → passes d (names_view names.entry) (clock_seen result.clock) (size_view result.size)
        ≡ passes (d + length (ghosts (contract_item_view item.now ∷ []))) (names_view names.entry)
        (clock_seen passing.entry.clock) (size_view passing.entry.size) }
{
    match item {
        ContractItem::Ghost(_, _) => step(names, passing),
        ContractItem::Assume(_)
        | ContractItem::Guarantee(_)
        | ContractItem::Constant(_)
        | ContractItem::Mode(_, _, _)
        | ContractItem::Import(_, _, _, _) => passing,
    }
}

/// As many steps as there are ghost variables.
fn ghost_steps<'a>(
    names: Names<'a, '_>,
    items: &[ContractItem],
    passing: Passing<'a>,
) -> Passing<'a>
    ensures { (d : ℕ) → passes d (names_view names.entry) (clock_seen result.clock) (size_view result.size)
        ≡ passes (d + length (ghosts (map contract_item_view items.now))) (names_view names.entry)
        (clock_seen passing.entry.clock) (size_view passing.entry.size) }
{
    let mut passing = passing;
    for item in items {
        passing = ghost_step(names, item, passing);
    }
    passing
}

/// The size of the presence of a clock.
pub(crate) fn presence<'a>(names: Names<'a, '_>, clock: Clock<'a>) -> Size
    ensures { size_view result ≡ cut_term (presence (names_view names.entry) (clock_seen clock.entry)) }
{
    let start = Passing {
        clock,
        size: leaf(),
    };
    let behind = ghost_steps(names, names.owner.contract(), start);
    let behind = steps(names, names.owner.locals(), behind);
    let behind = steps(names, names.owner.outputs(), behind);
    let end = steps(names, names.owner.inputs(), behind);
    cut(end.size)
}
