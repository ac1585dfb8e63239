//! Which numbers lead to which, forth and back. Nothing is claimed of these lists: what is found by
//! them is looked at once more.

use crate::marks::{Row, is_marked, mark, no_marks};
use std::alloc::{AllocError, Global};

/// Which numbers lead to which.
#[derive(Drop)]
pub(crate) struct Ways {
    /// The numbers that each leads to.
    pub(crate) forth: Vec<Vec<usize>>,
    /// The places of the rows that lead to each.
    pub(crate) back: Vec<Vec<usize>>,
    /// How many links there are.
    pub(crate) links: usize,
}

/// As many empty lists.
fn empty_lists(alloc: Global, count: usize) -> Result<Vec<Vec<usize>>, AllocError> {
    let mut lists = Vec::new(alloc);
    for _ in 0..count {
        lists.push(Vec::new(alloc))?;
    }
    Ok(lists)
}

/// One more link.
fn connect(
    forth: &mut [Vec<usize>],
    back: &mut [Vec<usize>],
    place: usize,
    from: usize,
    to: usize,
) -> Result<(), AllocError> {
    if from < forth.len() && to < back.len() {
        forth[from].push(to)?;
        back[to].push(place)?;
    }
    Ok(())
}

/// The links of a row.
fn connect_row(
    forth: &mut [Vec<usize>],
    back: &mut [Vec<usize>],
    place: usize,
    row: &Row,
) -> Result<(), AllocError> {
    for link in &row.links {
        connect(forth, back, place, row.from, link.to)?;
    }
    Ok(())
}

/// How many links the rows have.
fn count_links(rows: &[Row]) -> usize {
    let mut links: usize = 0;
    for row in rows {
        links = links.saturating_add(row.links.len());
    }
    links
}

/// Which of so many numbers lead to which, by these rows.
///
/// # Errors
///
/// Want of memory.
pub(crate) fn ways_of(alloc: Global, rows: &[Row], count: usize) -> Result<Ways, AllocError> {
    let mut forth = empty_lists(alloc, count)?;
    let mut back = empty_lists(alloc, count)?;
    for (place, row) in rows.iter().enumerate() {
        connect_row(&mut forth, &mut back, place, row)?;
    }
    Ok(Ways {
        forth,
        back,
        links: count_links(rows),
    })
}

/// The list of a number.
pub(crate) fn list_at(lists: &[Vec<usize>], number: usize) -> &[usize] {
    if number < lists.len() {
        &lists[number]
    } else {
        &[]
    }
}

/// The number of the row at a place, and 0 where there is none.
pub(crate) fn number_at(rows: &[Row], place: usize) -> usize {
    if place < rows.len() {
        rows[place].from
    } else {
        0
    }
}

/// The places of the rows that lead to a number, by one link or several: each behind those of which
/// one leads there by less links.
///
/// # Errors
///
/// Want of memory.
pub(crate) fn places_to(
    alloc: Global,
    rows: &[Row],
    ways: &Ways,
    number: usize,
) -> Result<Vec<usize>, AllocError> {
    let mut met = no_marks(alloc, ways.back.len())?;
    let mut places = Vec::new(alloc);
    push_back(&mut met, &mut places, ways, number)?;
    for turn in 0..ways.links {
        if turn >= places.len() {
            break;
        }
        let from = number_at(rows, places[turn]);
        push_back(&mut met, &mut places, ways, from)?;
    }
    Ok(places)
}

/// The places, and behind them those of the rows that lead to a number, where it wasn't met yet.
fn push_back(
    met: &mut [bool],
    places: &mut Vec<usize>,
    ways: &Ways,
    number: usize,
) -> Result<(), AllocError> {
    if is_marked(met, number) {
        return Ok(());
    }
    mark(met, number);
    for place in list_at(&ways.back, number) {
        places.push(*place)?;
    }
    Ok(())
}
