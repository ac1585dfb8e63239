ghost use Rattle.std.specs.Prelude.{List, ◌≡◌, Contains, IfOk, IfErr, length, map, All, Option};
ghost use lib.IntN.{ℤ};
ghost use Rattle.proof_steps.specs.View.{row_view};
ghost use Rattle.int_simplex.specs.State.{Standing};
ghost use Rattle.int_simplex.specs.Holding.{lists_of, AreListed};
ghost use Rattle.int_simplex.specs.Seating.{AreSeats};
ghost use Rattle.int_simplex.specs.Running.{IsKept, AreTables, IsMove, IsTurnOf, IsCrossing, IsStopped, ArePlacesOf, AreLimitsOf, at as at_place};
ghost use Rattle.proof_steps.specs.Pivots.{exchanged};
ghost use Rattle.std.specs.Prelude.{slice_set};

use crate::answers::Farkas;
use crate::choosing::{Exit, entering, leaving};
use crate::pivoting::turn_rows;
use crate::refuting::farkas_of;
use crate::seats::reseat;
use crate::trouble::Stopped;
use crate::values::update_values;
use std::alloc::Global;

// What Bland's rule does next.
#[derive(Drop)]
pub(crate) enum Move {
    /// No column misses a limit.
    Fits,
    /// A column misses a limit, and no other can bring it back.
    Refuted(Farkas),
    /// This column leaves, and that one enters.
    Pivot(Exit, u32),
}

pub(crate) fn next_move(
    alloc: Global,
    given: &[Vec<(u32, i128)>],
    lowers: &[Option<(i128, u32)>],
    uppers: &[Option<(i128, u32)>],
    basis: &[u32],
    rows: &[Vec<(u32, i128)>],
    values: &[(i128, i128)],
    places: &[i128],
) -> Result<Move, Stopped>
    requires kept { IsKept (map row_view given.now) (length lowers.now) basis.now
        (map row_view rows.now) places.now values.now }
    requires uppers { length uppers.now ≡ length lowers.now }
    ensures found { IfOk result (λ m. (bounds : List Standing) → AreTables
        (length lowers.now) bounds lowers.now uppers.now → IsMove (map row_view given.now)
        (length lowers.now) bounds (at_place basis.now places.now) m) }
    ensures turn { IfOk result (IsTurnOf basis.now (map row_view rows.now) lowers.now uppers.now (length lowers.now)) }
    ensures past { IfErr result (λ e. (numbers : List ℤ) → IsStopped (map row_view given.now)
        (length lowers.now) numbers e) }
{
    let Some(out) = leaving(basis, values, lowers, uppers) else {
        return Ok(Move::Fits);
    };
    let row = &rows[out.at];
    match entering(row, out.column, out.side, places, lowers, uppers) {
        Some(column) => Ok(Move::Pivot(out, column)),
        None => {
            let farkas = farkas_of(alloc, given, row, out.column, out.side, lowers, uppers)?;
            Ok(Move::Refuted(farkas))
        }
    }
}

// The leaving column goes to its limit, and the other one enters the basis.
pub(crate) fn turn(
    alloc: Global,
    columns: u32,
    given: &[Vec<(u32, i128)>],
    basis: &mut Vec<u32>,
    seats: &mut Vec<Option<usize>>,
    rows: &mut Vec<Vec<(u32, i128)>>,
    lists: &mut Vec<Vec<usize>>,
    values: &mut Vec<(i128, i128)>,
    places: &mut Vec<i128>,
    out: Exit,
    column: u32,
) -> Result<(), Stopped>
    requires kept { IsKept (map row_view given.now) (length places.old.items) basis.old.items
        (map row_view rows.old.items) places.old.items values.old.items }
    requires listed { AreListed columns (map row_view rows.old.items) (lists_of lists.old.items) }
    requires seats { AreSeats columns basis.old.items seats.old.items }
    requires turn { IsCrossing basis.old.items (map row_view rows.old.items) (length places.old.items) out column }
    requires columns { columns ≡ length places.old.items }
    ensures kept { IfOk result (λ _. IsKept (map row_view given.now) (length places.old.items) basis.new.items
        (map row_view rows.new.items) places.new.items values.new.items) }
    ensures listed { IfOk result (λ _. AreListed columns (map row_view rows.new.items) (lists_of lists.new.items)) }
    ensures seats { IfOk result (λ _. AreSeats columns basis.new.items seats.new.items) }
    ensures basis { IfOk result (λ _. basis.new.items ≡ map (exchanged out.column column) basis.old.items) }
    ensures places { IfOk result (λ _. places.new.items ≡ slice_set places.old.items out.column out.limit) }
    ensures past { IfErr result (λ e. (numbers : List ℤ) → ArePlacesOf numbers places.old.items
        → Contains numbers out.limit → IsStopped (map row_view given.now) (length places.old.items) numbers e) }
{
    let touched = turn_rows(alloc, columns, rows, lists, out.at, column)?;
    basis[out.at] = column;
    reseat(seats, out.at, out.column, column);
    places[out.column as usize] = out.limit;
    values[out.column as usize] = (out.limit, 1);
    update_values(alloc, given, basis, rows, places, &touched, values)?;
    Ok(())
}
