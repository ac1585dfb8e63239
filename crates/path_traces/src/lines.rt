//! The lines of a frame.

ghost use Rattle.std.specs.Prelude.{◌≡◌, ◌++◌, ◌∷◌, [], ◌+◌, ◌<◌, ◌^◌, IfOk, OnOk, map};
ghost use Rattle.lus_tree.specs.View.{param_view};
ghost use Rattle.lus_meaning.specs.TraceView.{bare_view, entry_view, spot_view};
ghost use Rattle.lus_streams.specs.Streams.{params_view};
ghost use Rattle.sys_terms.specs.View.{state_view, states_view};
ghost use Rattle.path_traces.specs.Numbered.{bare_of, first_lines, name_line, name_number, name_value};

use crate::names::{Names, name_number};
use crate::presence::on_within;
use crate::reading::{entry_at, value_in};
use lus_meaning::{Spot, TraceLine, Value};
use lus_streams::clock::declared;
use lus_tree::{Param, Pos};
use std::alloc::{AllocError, Global};
use sys_terms::State;

/// The place of all that stands in no text.
pub(crate) const START: Pos = Pos { line: 1, column: 1 };

/// The value of a name, whose variable has that number, in a state; none where its clock is off.
fn name_value(
    names: &Names<'_>,
    base: usize,
    param: &Param,
    number: usize,
    state: &State,
) -> Option<Value>
    requires base { base < 2 ^ 32 }
    requires number { number ≡ name_number (params_view names.now.params.items) base (param_view param.now).name.text }
    ensures { entry_view result
        ≡ name_value (params_view names.now.params.items) base (param_view param.now) (state_view state.now) }
{
    if on_within(
        names.params.len(),
        names,
        base,
        state,
        declared(&param.clock),
    ) {
        Some(value_in(state, param.sort, number))
    } else {
        None
    }
}

/// The values of a name in these states.
fn name_values(
    alloc: Global,
    names: &Names<'_>,
    base: usize,
    param: &Param,
    states: &[State],
) -> Result<Vec<Option<Value>>, AllocError>
    requires { base < 2 ^ 32 }
    ensures { IfOk result (λ v. map entry_view v.items
        ≡ map (name_value (params_view names.now.params.items) base (param_view param.now))
        (states_view states.now)) }
{
    let number = name_number(names, base, &param.name.text);
    let mut values = Vec::with_capacity(alloc, states.len())?;
    for state in states {
        values.push(name_value(names, base, param, number, state))?;
    }
    Ok(values)
}

/// A line of the frame at the end of a way of calls.
fn line(
    alloc: Global,
    path: &[u32],
    what: Spot,
    values: &[Option<Value>],
) -> Result<TraceLine, AllocError>
    ensures { IfOk result (λ l. bare_view l ≡ bare_of path.now (spot_view what) (map entry_view values.now)) }
{
    let way = path.to_vec(alloc)?;
    TraceLine::unplaced(alloc, way, what, values, START)
}

/// The line of a name.
fn name_line(
    alloc: Global,
    path: &[u32],
    names: &Names<'_>,
    base: usize,
    states: &[State],
    param: &Param,
) -> Result<TraceLine, AllocError>
    requires { base < 2 ^ 32 }
    ensures { IfOk result (λ l. bare_view l
        ≡ name_line path.now (states_view states.now) (params_view names.now.params.items) base
        (param_view param.now)) }
{
    let values = name_values(alloc, names, base, param, states)?;
    let name = param.name.text.clone()?;
    line(alloc, path, Spot::Name(name), &values)
}

/// The lines, and behind them those of these names.
pub(crate) fn push_names(
    lines: &mut Vec<TraceLine>,
    alloc: Global,
    path: &[u32],
    names: &Names<'_>,
    base: usize,
    states: &[State],
    listed: &[&Param],
) -> Result<(), AllocError>
    requires { base < 2 ^ 32 }
    ensures { OnOk result (map bare_view lines.new.items ≡ map bare_view lines.old.items
        ++ map (name_line path.now (states_view states.now) (params_view names.now.params.items) base)
        (params_view listed.now)) }
{
    for param in listed {
        lines.push(name_line(alloc, path, names, base, states, *param)?)?;
    }
    Ok(())
}

/// The line of a first value, which is what that variable is in the first state.
fn first_line(
    alloc: Global,
    path: &[u32],
    first: &State,
    variable: usize,
    number: u32,
) -> Result<TraceLine, AllocError>
    ensures { IfOk result (λ l. bare_view l ∷ [] ≡ first_lines path.now (state_view first.now) variable number 1) }
{
    line(
        alloc,
        path,
        Spot::First(number),
        &[entry_at(first, variable)],
    )
}

/// The lines, and behind them those of so many first values, from that variable on.
pub(crate) fn push_firsts(
    lines: &mut Vec<TraceLine>,
    alloc: Global,
    path: &[u32],
    first: &State,
    variable: usize,
    count: u32,
) -> Result<(), AllocError>
    requires { variable + count < 2 ^ 63 }
    ensures { OnOk result (map bare_view lines.new.items ≡ map bare_view lines.old.items
        ++ first_lines path.now (state_view first.now) variable 1 count) }
{
    for index in 0..count {
        lines.push(first_line(alloc, path, first, variable + index as usize, index + 1)?)?;
    }
    Ok(())
}
