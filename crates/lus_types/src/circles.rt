//! The first of the calls and imports that are on circles of declarations.

ghost use Rattle.std.specs.Prelude.{◌≡◌, IfOk, Contains, map, option_map, true};
ghost use Rattle.lus_tree.specs.Reason.{node_recursion};
ghost use Rattle.lus_tree.specs.Tree.{Program as ProgramTree};
ghost use Rattle.lus_meaning.specs.Faults.{fault};
ghost use Rattle.lus_types.specs.Called.{all_level_faults, level_faults, none_rises, stays_below};
ghost use Rattle.lus_types.specs.Circles.{IsGraph};
ghost use Rattle.lus_types.specs.Firsts.{IsFirstCircle, circle_faults, stands_at};
ghost use Rattle.lus_types.specs.Marks.{link_view, row_view};
ghost use Rattle.lus_scopes.specs.Least.{least_view, noted_all};

use crate::marks::{Link, Row};
use crate::ranks::{rank_of, ranks_of};
use crate::recursion::{Graph, recursion};
use lus_scopes::least::Least;
use lus_tree::{Pos, What};
use std::alloc::{AllocError, Global};

/// Where the first of the calls and imports on circles stands.
#[derive(Clone, Copy)]
pub(crate) enum FirstCircle {
    /// There is none.
    Nowhere,
    At(Pos),
    /// The ranks that were found don't tell.
    Unclear,
}

/// Whether none of these leads to a greater rank.
fn stays_below(ranks: &[usize], rank: usize, links: &[Link]) -> bool
    ensures { result ≡ stays_below ranks.now rank (map link_view links.now) }
{
    for link in links {
        if rank_of(ranks, link.to) > rank {
            return false;
        }
    }
    true
}

/// Whether no number leads to one of a greater rank.
fn none_rises(ranks: &[usize], rows: &[Row]) -> bool
    ensures { result ≡ none_rises ranks.now (map row_view rows.now) }
{
    for row in rows {
        if !stays_below(ranks, rank_of(ranks, row.from), &row.links) {
            return false;
        }
    }
    true
}

/// Notes the links to numbers of this rank.
fn note_level(least: &mut Least, ranks: &[usize], rank: usize, links: &[Link])
    ensures { least_view least.new
        ≡ noted_all (least_view least.old) (level_faults ranks.now rank (map link_view links.now)) }
{
    for link in links {
        least.note_if(
            rank_of(ranks, link.to) == rank,
            What::NodeRecursion,
            link.at,
        );
    }
}

/// Notes the links to numbers of equal rank.
fn note_levels(least: &mut Least, ranks: &[usize], rows: &[Row])
    ensures { least_view least.new
        ≡ noted_all (least_view least.old) (all_level_faults ranks.now (map row_view rows.now)) }
{
    for row in rows {
        note_level(least, ranks, rank_of(ranks, row.from), &row.links);
    }
}

/// Whether one of these links has this place.
fn has_place(links: &[Link], at: Pos) -> bool {
    for link in links {
        if link.at == at {
            return true;
        }
    }
    false
}

/// The number of the first row that has a link with this place, and how many rows there are where
/// none has.
fn row_with(rows: &[Row], at: Pos) -> usize {
    for (number, row) in rows.iter().enumerate() {
        if has_place(&row.links, at) {
            return number;
        }
    }
    rows.len()
}

/// Whether there is a fault with this place.
fn stands_at(found: &Least, at: Pos) -> bool
    ensures { result ≡ stands_at (least_view found.now) at }
{
    match &found.fault {
        Some(fault) => fault.at == at,
        None => false,
    }
}

/// The place of the first fault.
fn place_of(found: &Least) -> Option<Pos>
    ensures { result ≡ option_map (λ r. r.at) (least_view found.now) }
{
    match &found.fault {
        Some(fault) => Some(fault.at),
        None => None,
    }
}

/// Whether the link with this place is found to be on a circle.
fn is_circle(alloc: Global, graph: &Graph, at: Pos) -> Result<bool, AllocError>
    ensures { IfOk result (λ b. (p : ProgramTree) → IsGraph p graph.now → b ≡ true
        → Contains (circle_faults p) (fault node_recursion at)) }
{
    let number = row_with(&graph.rows, at);
    if number >= graph.rows.len() {
        return Ok(false);
    }
    let mut found = Least::new();
    recursion(alloc, graph, &mut found, number)?;
    Ok(stands_at(&found, at))
}

/// The first of the calls and imports on circles, where no number leads to one of a greater rank.
/// Then only links between numbers of equal rank are on circles, and of the first of these it is
/// looked at whether it is.
///
/// # Errors
///
/// Want of memory.
pub(crate) fn first_circle(alloc: Global, graph: &Graph) -> Result<FirstCircle, AllocError>
    ensures { IfOk result (λ f. (p : ProgramTree) → IsGraph p graph.now → IsFirstCircle p f) }
{
    let ranks = ranks_of(alloc, &graph.rows, &graph.ways)?;
    if !none_rises(&ranks, &graph.rows) {
        return Ok(FirstCircle::Unclear);
    }
    let mut level = Least::new();
    note_levels(&mut level, &ranks, &graph.rows);
    match place_of(&level) {
        Some(at) => {
            if is_circle(alloc, graph, at)? {
                Ok(FirstCircle::At(at))
            } else {
                Ok(FirstCircle::Unclear)
            }
        }
        None => Ok(FirstCircle::Nowhere),
    }
}
