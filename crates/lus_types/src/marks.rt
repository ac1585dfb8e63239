//! Numbers that lead to marked ones, by rows of what each number leads to.

ghost use Rattle.std.specs.Prelude.{◌≡◌, ℕ, IfOk, false, true, length, map, set};
ghost use Rattle.lus_types.specs.Marks.{Spreads, has_open, is_free, is_marked, is_open, leads_on, link_view, passed_down, passed_up, row_view, stepped};

use lus_tree::Pos;
use std::alloc::{AllocError, Global};

/// A number that is led to, and the place that says so.
#[derive(Clone, Copy)]
pub(crate) struct Link {
    pub(crate) to: usize,
    pub(crate) at: Pos,
}

/// A number, and those that it leads to.
#[derive(Drop)]
pub(crate) struct Row {
    pub(crate) from: usize,
    pub(crate) links: Vec<Link>,
}

/// Whether a number is marked.
pub(crate) fn is_marked(marks: &[bool], number: usize) -> bool
    ensures { result ≡ is_marked marks.now number }
{
    number < marks.len() && marks[number]
}

/// As many numbers, none of them marked.
pub(crate) fn no_marks(alloc: Global, count: usize) -> Result<Vec<bool>, AllocError>
    ensures { IfOk result (λ v. (length v.items ≡ count) × ((j : ℕ) → is_marked v.items j ≡ false)) }
{
    let mut marks = Vec::new(alloc);
    while marks.len() < count {
        marks.push(false)?;
    }
    Ok(marks)
}

/// Marks a number.
pub(crate) fn mark(marks: &mut [bool], number: usize)
    ensures { marks.new ≡ set marks.old number true }
{
    if number < marks.len() {
        marks[number] = true;
    }
}

/// Whether a number could be marked.
fn is_free(marks: &[bool], number: usize) -> bool
    ensures { result ≡ is_free marks.now number }
{
    number < marks.len() && !marks[number]
}

/// Whether one of these links leads to a marked number.
fn leads_on(marks: &[bool], links: &[Link]) -> bool
    ensures { result ≡ leads_on (is_marked marks.now) (map link_view links.now) }
{
    for link in links {
        if is_marked(marks, link.to) {
            return true;
        }
    }
    false
}

/// Whether a number isn't marked and leads to a marked one.
fn is_open(marks: &[bool], row: &Row) -> bool
    ensures { result ≡ is_open marks.now (row_view row.now) }
{
    is_free(marks, row.from) && leads_on(marks, &row.links)
}

/// Marks a number that leads to a marked one.
fn step(marks: &mut [bool], row: &Row)
    ensures { marks.new ≡ stepped marks.old (row_view row.now) }
{
    if is_open(marks, row) {
        marks[row.from] = true;
    }
}

/// Marks numbers, one row after another from the first.
fn pass_down(marks: &mut [bool], rows: &[Row])
    ensures { marks.new ≡ passed_down marks.old (map row_view rows.now) }
{
    for row in rows {
        step(marks, row);
    }
}

/// Marks numbers, one row after another from the last.
fn pass_up(marks: &mut [bool], rows: &[Row])
    ensures { marks.new ≡ passed_up marks.old (map row_view rows.now) }
{
    let mut left = rows.len();
    while left > 0 {
        left -= 1;
        step(marks, &rows[left]);
    }
}

/// Marks the number of the row at a place, where it leads to a marked one.
fn step_at(marks: &mut [bool], rows: &[Row], place: usize)
    ensures { Spreads (map row_view rows.now) marks.old marks.new }
{
    if place < rows.len() {
        step(marks, &rows[place]);
    }
}

/// Marks numbers, one row after another in the order of these places.
fn pass_by(marks: &mut [bool], rows: &[Row], places: &[usize])
    ensures { Spreads (map row_view rows.now) marks.old marks.new }
{
    for place in places {
        step_at(marks, rows, *place);
    }
}

/// Whether some number could be marked.
fn has_open(marks: &[bool], rows: &[Row]) -> bool
    ensures { result ≡ has_open marks.now (map row_view rows.now) }
{
    for row in rows {
        if is_open(marks, row) {
            return true;
        }
    }
    false
}

/// Marks all numbers that lead to marked ones, by one link or several.
pub(crate) fn spread(marks: &mut [bool], rows: &[Row])
    ensures marked { Spreads (map row_view rows.now) marks.old marks.new }
    ensures all { has_open marks.new (map row_view rows.now) ≡ false }
{
    while has_open(marks, rows) {
        pass_down(marks, rows);
        pass_up(marks, rows);
    }
}

/// The same, with the rows at these places first.
pub(crate) fn spread_by(marks: &mut [bool], rows: &[Row], places: &[usize])
    ensures marked { Spreads (map row_view rows.now) marks.old marks.new }
    ensures all { has_open marks.new (map row_view rows.now) ≡ false }
{
    pass_by(marks, rows, places);
    spread(marks, rows);
}
