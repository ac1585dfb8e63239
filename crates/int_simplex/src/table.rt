ghost use Rattle.std.specs.Prelude.{◌≡◌, ◌≤◌, ◌<◌, true, false, IfOk, IfSome, MatchOption, map, length, take, slice_get, Some, Contains};
ghost use Rattle.proof_steps.specs.View.{row_view};
ghost use Rattle.int_simplex.specs.Given.{AreGiven, IsInOrder, IsWithin, HasNoZero};
ghost use Rattle.int_simplex.specs.Bounds.{tightest};
ghost use Rattle.int_simplex.specs.Points.{IsFraction};
ghost use Rattle.int_simplex.specs.OnRows.{AreOnRows};
ghost use Rattle.int_simplex.specs.Sound.{IsSound, IsRowIn};
ghost use Rattle.int_simplex.specs.Answers.{IsNew, IsAsserted, IsCheckup, IsAnswered, a_bound};

use crate::answers::{BoundFault, Checkup, Farkas, TableauFault};
use crate::bounds::{is_across, tighter, undo};
use crate::holders::listed;
use crate::making::{first_basis, open_limits, row_copies, sorted_rows};
use crate::refuting::literal_of;
use crate::run::{Walked, first_places, start_of, walk};
use crate::seats::{seat_of, seated};
use crate::trouble::Stopped;
use std::alloc::Global;
use std::marker::Model;

// A bound as it came, with the limit that counted on its side before.
#[derive(Clone, Copy)]
pub(crate) struct Asserted {
    pub(crate) column: u32,
    pub(crate) upper: bool,
    pub(crate) limit: i128,
    pub(crate) literal: u32,
    pub(crate) before: Option<(i128, u32)>,
}

/// Rows over columns, of which some are the basis, with a value and bounds for each column.
#[derive(Drop)]
pub struct Tableau {
    given: Vec<Vec<(u32, i128)>>,
    columns: u32,
    basis: Vec<u32>,
    // For each column its place in the basis.
    seats: Vec<Option<usize>>,
    rows: Vec<Vec<(u32, i128)>>,
    // For each column the places of the rows that hold it.
    lists: Vec<Vec<usize>>,
    values: Vec<(i128, i128)>,
    trail: Vec<Asserted>,
    lowers: Vec<Option<(i128, u32)>>,
    uppers: Vec<Option<(i128, u32)>>,
    usable: bool,
}

impl Model for Tableau {
    ghost use Rattle.int_simplex.specs.State.{State};

    ghost Value = { State };

    ghost use Rattle.int_simplex.specs.Inner.{state_of, IsInner};

    ghost view = { state_of };

    ghost invariant = { IsInner };
}

impl Tableau {
    /// The tableau of these rows: their greatest columns are the basis, and all values are 0.
    pub fn new(
        alloc: Global,
        rows: &[Vec<(u32, i128)>],
        columns: u32,
    ) -> Result<Tableau, TableauFault>
        requires { AreGiven (map row_view rows.now) columns }
        ensures { IfOk result (λ t. IsNew t (map row_view rows.now) columns) }
    {
        let given = row_copies(alloc, rows)?;
        let basis = first_basis(alloc, rows)?;
        let seats = seated(alloc, columns, &basis)?;
        let rows = sorted_rows(alloc, rows, columns)?;
        let lists = listed(alloc, columns, &rows)?;
        let values = vec![in alloc; (0, 1); columns as usize]?;
        let lowers = open_limits(alloc, columns)?;
        let uppers = open_limits(alloc, columns)?;
        Ok(Tableau {
            given,
            columns,
            basis,
            seats,
            rows,
            lists,
            values,
            trail: Vec::new(alloc),
            lowers,
            uppers,
            usable: true,
        })
    }

    /// How many columns there are.
    pub fn columns(&self) -> u32
        requires { self.now.usable ≡ true }
        ensures number { result ≡ self.now.columns }
        ensures sound { IsSound self.now }
        ensures on_rows { AreOnRows self.now }
    {
        self.columns
    }

    /// The rows that `new` was given.
    pub fn given(&self) -> &[Vec<(u32, i128)>]
        requires { self.now.usable ≡ true }
        ensures { map row_view result.now ≡ self.now.given }
    {
        &self.given
    }

    /// The column's value, in lowest terms over a positive divisor.
    pub fn value(&self, column: u32) -> (i128, i128)
        requires usable { self.now.usable ≡ true }
        requires in_range { column < self.now.columns }
        ensures value { slice_get self.now.values column ≡ Some result }
        ensures fraction { IsFraction result }
    {
        self.values[column as usize]
    }

    /// The tightest bound of the column on that side, the first of equal ones, with its literal.
    pub fn bound(&self, column: u32, upper: bool) -> Option<(i128, u32)>
        requires usable { self.now.usable ≡ true }
        requires in_range { column < self.now.columns }
        ensures { result ≡ tightest self.now.bounds column upper }
    {
        if upper {
            self.uppers[column as usize]
        } else {
            self.lowers[column as usize]
        }
    }

    /// How many bounds stand, for `undo_to`.
    pub fn mark(&self) -> u64
        requires { self.now.usable ≡ true }
        ensures { result ≡ length self.now.bounds }
    {
        self.trail.len() as u64
    }

    /// The row of a column of the basis, a whole combination of the given rows.
    pub fn row(&self, column: u32) -> Option<&[(u32, i128)]>
        requires { self.now.usable ≡ true }
        ensures row { MatchOption result (Contains self.now.basis column → ⊥)
            (λ r. IsRowIn self.now.given self.now.basis column r.now) }
        ensures in_order { IfSome result (λ r. IsInOrder r.now) }
        ensures in_range { IfSome result (λ r. IsWithin self.now.columns r.now) }
        ensures entries { IfSome result (λ r. HasNoZero r.now) }
    {
        match seat_of(&self.seats, column) {
            Some(k) => Some(&self.rows[k]),
            None => None,
        }
    }

    /// Asserts a bound, an upper one where `upper` is true. No value moves.
    pub fn assert_bound(
        &mut self,
        alloc: Global,
        column: u32,
        upper: bool,
        bound: i128,
        literal: u32,
    ) -> Result<(), BoundFault>
        requires usable { self.old.usable ≡ true }
        requires in_range { column < self.old.columns }
        ensures { IsAsserted self.old self.new (a_bound column upper bound literal) result }
    {
        let c = column as usize;
        let low = self.lowers[c];
        let high = self.uppers[c];
        let (same, other) = if upper { (high, low) } else { (low, high) };
        if is_across(upper, bound, other) {
            let first = literal_of(other);
            let parts = vec![in alloc; (1, first), (1, literal)]?;
            return Err(BoundFault::Crosses(Farkas { parts }));
        }
        self.trail.push(Asserted {
            column,
            upper,
            limit: bound,
            literal,
            before: same,
        })?;
        let kept = tighter(upper, same, bound, literal);
        if upper {
            self.uppers[c] = kept;
        } else {
            self.lowers[c] = kept;
        }
        Ok(())
    }

    /// Takes back the bounds that came after the mark. No value moves.
    pub fn undo_to(&mut self, mark: u64)
        requires usable { self.old.usable ≡ true }
        requires mark { mark ≤ length self.old.bounds }
        ensures { self.new ≡ record self.old { bounds = take mark self.old.bounds } }
    {
        undo(&mut self.trail, &mut self.lowers, &mut self.uppers, mark);
    }

    /// Looks for values that meet rows and bounds, by at most so many pivots. After `Pivots`, `Past`
    /// or want of memory the tableau can only be dropped.
    pub fn check(&mut self, alloc: Global, pivots: u64) -> Result<Checkup, TableauFault>
        requires { self.old.usable ≡ true }
        ensures answer { IfOk result (IsCheckup self.old self.new pivots) }
        ensures kept { IfOk result (λ a. IsAnswered a → self.new.usable ≡ true) }
    {
        let start = start_of(
            alloc,
            &self.basis,
            &self.seats,
            &self.trail,
            &self.values,
            pivots,
        )?;
        let mut places = first_places(
            alloc,
            &self.seats,
            &self.values,
            &self.lowers,
            &self.uppers,
        )?;
        let walked = walk(
            alloc,
            self.columns,
            &self.given,
            &self.lowers,
            &self.uppers,
            &mut self.basis,
            &mut self.seats,
            &mut self.rows,
            &mut self.lists,
            &mut self.values,
            &mut places,
            pivots,
        );
        match walked {
            Ok(Walked::Fits) => Ok(Checkup::Fits),
            Ok(Walked::Refuted(farkas)) => Ok(Checkup::Refuted(farkas)),
            Ok(Walked::Long) => {
                self.usable = false;
                Ok(Checkup::Pivots(start))
            }
            Err(Stopped::Past(step)) => {
                self.usable = false;
                Ok(Checkup::Past(step))
            }
            Err(Stopped::Memory) => {
                self.usable = false;
                Err(TableauFault::Memory)
            }
        }
    }
}
