//! Whether the lines of a trace fit what may be listed.

ghost use Rattle.std.specs.Prelude.{◌≡◌, map, OnOk};
ghost use Rattle.std.specs.List.{list_all};
ghost use Rattle.lus_tree.specs.View.{param_view};
ghost use Rattle.lus_meaning.specs.Fits.{takes_value};
ghost use Rattle.lus_meaning.specs.TraceView.{entry_view, placed_view, line_view, trace_view, spot_view};
ghost use Rattle.trace_fits.specs.Filling.{are_given, filled, is_given, is_seated, line_misfit, lines_misfit, misfit_of, trace_misfit, values_misfit, with_line};
ghost use Rattle.trace_fits.specs.Tables.{listables_in};
ghost use Rattle.trace_fits.specs.Views.{listable_view, seats_view, subject_view};

use crate::permitted::Listable;
use crate::place::{Place, Subject};
use crate::table::ListableTable;
use lus_meaning::{PlacedValue, Spot, Trace, TraceLine, Value};
use lus_tree::{Param, Pos, Sort};

/// By slot, the values of the line that lists it.
pub(crate) type Seats<'t> = Vec<Option<&'t [PlacedValue]>>;

/// Whether a line may have this value.
fn takes(listable: &Listable<'_>, value: Option<Value>) -> bool
    ensures { result ≡ takes_value (listable_view listable.now) (entry_view value) }
{
    match (listable.sort, value) {
        (Sort::Bool, Some(Value::Truth(_))) => true,
        (Sort::Int, Some(Value::Whole(number))) => {
            number.unsigned_abs() <= 9_223_372_036_854_775_807
        }
        (_, Some(_)) => false,
        (_, None) => !listable.needed,
    }
}

/// Refuses the first value that a line may not have, or the first behind as many as it has.
#[tactic(auto, unfolding(crate::specs::Filling::values_misfit))]
fn values_fit(listable: &Listable<'_>, values: &[PlacedValue]) -> Result<(), Pos>
    ensures { misfit_of result ≡ values_misfit (listable_view listable.now) (listable_view listable.now).count
        (map placed_view values.now) }
{
    let mut left = listable.count;
    let mut rest = values;
    while let [placed, later @ ..] = rest {
        if left == 0 || !takes(listable, placed.value) {
            return Err(placed.at);
        }
        left -= 1;
        rest = later;
    }
    Ok(())
}

/// What a line lists.
fn subject(what: &Spot) -> Subject<'_>
    ensures { subject_view result ≡ spot_view what.now }
{
    match what {
        Spot::Name(name) => Subject::Name(name.as_str()),
        Spot::First(number) => Subject::First(*number),
    }
}

/// Whether a line lists that slot.
fn is_seated(seats: &[Option<&[PlacedValue]>], slot: usize) -> bool
    ensures { result ≡ is_seated (seats_view seats.now) slot }
{
    match seats.get(slot) {
        Some(Some(_)) => true,
        _ => false,
    }
}

/// Refuses a line at its first word that doesn't fit, else its slot has its values.
fn line_fits<'t>(
    table: &ListableTable<'_>,
    seats: &mut Seats<'t>,
    line: &'t TraceLine,
) -> Result<(), Pos>
    ensures misfit { misfit_of result
        ≡ line_misfit (listables_in table.now) (seats_view seats.old.items) (line_view line.now) }
    ensures seats { OnOk result (seats_view seats.new.items
        ≡ with_line (listables_in table.now) (seats_view seats.old.items) (line_view line.now)) }
{
    let place = Place {
        way: &line.path,
        what: subject(&line.what),
    };
    let Some(listable) = table.find(place) else {
        return Err(line.at);
    };
    let slot = listable.slot as usize;
    if is_seated(seats, slot) || line.values.len() < listable.count as usize {
        return Err(line.at);
    }
    values_fit(listable, &line.values)?;
    if slot < seats.len() {
        seats[slot] = Some(&line.values);
    }
    Ok(())
}

/// Refuses lines at their first word that doesn't fit, else their slots have their values.
fn lines_fit<'t>(
    table: &ListableTable<'_>,
    seats: &mut Seats<'t>,
    lines: &'t [TraceLine],
) -> Result<(), Pos>
    ensures misfit { misfit_of result
        ≡ lines_misfit (listables_in table.now) (seats_view seats.old.items) (map line_view lines.now) }
    ensures seats { OnOk result (seats_view seats.new.items
        ≡ filled (listables_in table.now) (seats_view seats.old.items) (map line_view lines.now)) }
{
    for line in lines {
        line_fits(table, seats, line)?;
    }
    Ok(())
}

/// Whether a line lists this name of the node itself.
fn is_given(table: &ListableTable<'_>, seats: &[Option<&[PlacedValue]>], input: &Param) -> bool
    ensures { result ≡ is_given (listables_in table.now) (seats_view seats.now) (param_view input.now) }
{
    let place = Place {
        way: &[],
        what: Subject::Name(&input.name.text),
    };
    match table.find(place) {
        Some(listable) => is_seated(seats, listable.slot as usize),
        None => false,
    }
}

/// Whether a line lists each of these names of the node itself.
fn are_given(table: &ListableTable<'_>, seats: &[Option<&[PlacedValue]>], inputs: &[Param]) -> bool
    ensures { result ≡ are_given (listables_in table.now) (seats_view seats.now) (map param_view inputs.now) }
{
    for input in inputs {
        if !is_given(table, seats, input) {
            return false;
        }
    }
    true
}

/// Refuses a trace at its first word behind the name of its node that doesn't fit: the number of instants, the
/// lines, and its end, where an input is missing. Else the slots have the values of its lines.
pub(crate) fn trace_fits<'t>(
    table: &ListableTable<'_>,
    inputs: &[Param],
    seats: &mut Seats<'t>,
    trace: &'t Trace,
) -> Result<(), Pos>
    ensures misfit { misfit_of result ≡ trace_misfit (listables_in table.now) (map param_view inputs.now)
        (seats_view seats.old.items) (trace_view trace.now) }
    ensures seats { OnOk result (seats_view seats.new.items
        ≡ filled (listables_in table.now) (seats_view seats.old.items) (trace_view trace.now).lines) }
{
    if trace.length < 1 || 1001 < trace.length {
        return Err(trace.length_at);
    }
    lines_fit(table, seats, &trace.lines)?;
    if are_given(table, seats, inputs) {
        Ok(())
    } else {
        Err(trace.end_at)
    }
}
