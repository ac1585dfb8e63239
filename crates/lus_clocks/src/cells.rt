//! Clocks by number.

ghost use Rattle.std.specs.Prelude.{◌≡◌, ◌<◌, ◌==◌, ℕ, Some, IfOk, is_none, length, unwrap_or};
ghost use Rattle.lus_meaning.specs.ClockFaults.{or_else};
ghost use Rattle.lus_meaning.specs.Scene.{base};
ghost use Rattle.lus_clocks.specs.Cells.{cell_at, cell_view, clock_given};
ghost use Rattle.lus_streams.specs.Clocks.{clock_seen};
ghost use Rattle.lus_clocks.specs.Sought.{if_there};

use lus_streams::clock::Clock;
use lus_tree::PlacedName;
use std::alloc::{AllocError, Global};

/// The instants at which a name has that truth value.
#[derive(Drop)]
pub struct Sampling {
    pub truth: bool,
    pub name: PlacedName,
}

/// What is known of an occurrence: nothing yet, or its clock.
#[derive(Drop)]
pub(crate) enum Cell {
    Unseen,
    Base,
    Sampled(Sampling),
}

/// A clock that is kept.
fn cell_of(alloc: Global, clock: Clock<'_>) -> Result<Cell, AllocError>
    ensures { IfOk result (λ c. cell_view c ≡ Some (clock_seen clock.entry)) }
{
    match clock {
        Clock::Base => Ok(Cell::Base),
        Clock::Sampled(truth, name) => {
            let name = name.copied(alloc)?;
            Ok(Cell::Sampled(Sampling { truth, name }))
        }
    }
}

/// Makes room for a number.
fn widen(cells: &mut Vec<Cell>, number: usize) -> Result<(), AllocError>
    ensures room { IfOk result (λ _. number < length cells.new.items) }
    ensures same { IfOk result (λ _. (k : ℕ) → cell_at cells.new.items k ≡ cell_at cells.old.items k) }
{
    while cells.len() <= number {
        cells.push(Cell::Unseen)?;
    }
    Ok(())
}

/// Whether no clock has that number yet.
fn is_unseen(cells: &[Cell], number: usize) -> bool
    requires { number < length cells.now }
    ensures { result ≡ is_none (cell_at cells.now number) }
{
    matches!(&cells[number], Cell::Unseen)
}

/// Writes the clock with that number, where none has it yet.
pub(crate) fn write(
    alloc: Global,
    cells: &mut Vec<Cell>,
    number: u32,
    clock: Clock<'_>,
) -> Result<(), AllocError>
    ensures { IfOk result (λ _. (k : ℕ) → cell_at cells.new.items k
        ≡ or_else (cell_at cells.old.items k) (if_there (number == k) (clock_seen clock.entry))) }
{
    let number = number as usize;
    widen(cells, number)?;
    if is_unseen(cells, number) {
        cells[number] = cell_of(alloc, clock)?;
    }
    Ok(())
}

/// The clock with that number, where it isn't the base clock.
pub(crate) fn read(cells: &[Cell], number: u32) -> Option<&Sampling>
    ensures { clock_given result ≡ unwrap_or (cell_at cells.now number) base }
{
    match cells.get(number as usize) {
        Some(Cell::Sampled(sampling)) => Some(sampling),
        Some(Cell::Unseen | Cell::Base) | None => None,
    }
}
