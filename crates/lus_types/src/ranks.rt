//! Ranks of numbers: numbers that lead to each other have one rank, and no number leads to one of a
//! greater rank. Only `rank_of` promises something, since each link is looked at once more.

ghost use Rattle.std.specs.Prelude.{◌≡◌};
ghost use Rattle.lus_types.specs.Called.{rank_of};

use crate::marks::{Row, is_marked, mark, no_marks};
use crate::ways::{Ways, list_at, number_at};
use std::alloc::{AllocError, Global};

/// The rank of a number, 0 where it has none.
pub(crate) fn rank_of(ranks: &[usize], number: usize) -> usize
    ensures { result ≡ rank_of ranks.now number }
{
    if number < ranks.len() {
        ranks[number]
    } else {
        0
    }
}

/// As many zeros.
fn zeros(alloc: Global, count: usize) -> Result<Vec<usize>, AllocError> {
    let mut numbers = Vec::new(alloc);
    for _ in 0..count {
        numbers.push(0)?;
    }
    Ok(numbers)
}

/// As many numbers, from 0.
fn numbers_to(alloc: Global, count: usize) -> Result<Vec<usize>, AllocError> {
    let mut numbers = Vec::new(alloc);
    for number in 0..count {
        numbers.push(number)?;
    }
    Ok(numbers)
}

/// A way along the links, into the depth first.
#[derive(Drop)]
struct Walk {
    /// The numbers to go on with, the next one last.
    waiting: Vec<usize>,
    met: Vec<bool>,
    left: Vec<bool>,
    /// The numbers in the order in which they were left, each behind those that were met from it.
    order: Vec<usize>,
}

impl Walk {
    /// Meets a number, to be left behind those that it leads to.
    fn meet(&mut self, number: usize, next: &[usize]) -> Result<(), AllocError> {
        mark(&mut self.met, number);
        self.waiting.push(number)?;
        for to in next {
            if !is_marked(&self.met, *to) {
                self.waiting.push(*to)?;
            }
        }
        Ok(())
    }

    /// Leaves a number, once.
    fn leave(&mut self, number: usize) -> Result<(), AllocError> {
        if !is_marked(&self.left, number) {
            mark(&mut self.left, number);
            self.order.push(number)?;
        }
        Ok(())
    }

    /// Meets a number that wasn't met, and else leaves it.
    fn go_on(&mut self, number: usize, next: &[usize]) -> Result<(), AllocError> {
        if is_marked(&self.met, number) {
            self.leave(number)
        } else {
            self.meet(number, next)
        }
    }
}

/// All numbers in the order in which a way along the links leaves them.
fn left_order(alloc: Global, ways: &Ways, turns: usize) -> Result<Vec<usize>, AllocError> {
    let count = ways.forth.len();
    let mut walk = Walk {
        waiting: numbers_to(alloc, count)?,
        met: no_marks(alloc, count)?,
        left: no_marks(alloc, count)?,
        order: Vec::new(alloc),
    };
    for _ in 0..turns {
        match walk.waiting.pop() {
            Some(number) => walk.go_on(number, list_at(&ways.forth, number))?,
            None => break,
        }
    }
    Ok(walk.order)
}

/// A number, and a rank that it gets where it has none.
#[derive(Clone, Copy)]
struct Ranked {
    number: usize,
    rank: usize,
}

/// These numbers with greater and greater ranks.
fn all_ranked(alloc: Global, order: &[usize]) -> Result<Vec<Ranked>, AllocError> {
    let mut waiting = Vec::new(alloc);
    for (place, number) in order.iter().enumerate() {
        waiting.push(Ranked {
            number: *number,
            rank: place.saturating_add(1),
        })?;
    }
    Ok(waiting)
}

/// Ranks a number that has no rank, and then those that lead to it.
fn rank_next(
    ranks: &mut [usize],
    waiting: &mut Vec<Ranked>,
    rows: &[Row],
    ways: &Ways,
    next: Ranked,
) -> Result<(), AllocError> {
    if next.number < ranks.len() && ranks[next.number] == 0 {
        ranks[next.number] = next.rank;
        for place in list_at(&ways.back, next.number) {
            waiting.push(Ranked {
                number: number_at(rows, *place),
                rank: next.rank,
            })?;
        }
    }
    Ok(())
}

/// The ranks of numbers, by rows of what each leads to. The numbers that lead to the one that was
/// left last, and have no rank, are led to by it too, and get its rank.
///
/// # Errors
///
/// Want of memory.
pub(crate) fn ranks_of(alloc: Global, rows: &[Row], ways: &Ways) -> Result<Vec<usize>, AllocError> {
    let count = ways.forth.len();
    let turns = ways.links.saturating_add(count).saturating_add(count);
    let order = left_order(alloc, ways, turns)?;
    let mut ranks = zeros(alloc, count)?;
    let mut waiting = all_ranked(alloc, &order)?;
    for _ in 0..turns {
        match waiting.pop() {
            Some(next) => rank_next(&mut ranks, &mut waiting, rows, ways, next)?,
            None => break,
        }
    }
    Ok(ranks)
}
