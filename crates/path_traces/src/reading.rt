//! What a variable is in a state.

ghost use Rattle.std.specs.Prelude.{◌≡◌, slice_get};
ghost use Rattle.lus_meaning.specs.CodeValue.{value_view};
ghost use Rattle.lus_meaning.specs.TraceView.{entry_view};
ghost use Rattle.sys_meaning.specs.Part.{value_in};
ghost use Rattle.sys_terms.specs.Meaning.{values_of};
ghost use Rattle.sys_terms.specs.View.{state_view};
ghost use Rattle.path_traces.specs.Numbered.{entry_value};

use lus_meaning::Value;
use lus_tree::Sort;
use sys_terms::{Entry, State};

/// Whether a variable is true.
pub(crate) fn flag_at(state: &State, number: usize) -> bool
    ensures { result ≡ (values_of (state_view state.now)).flag_at number }
{
    match state.values.get(number) {
        Some(Entry::Flag(truth)) => *truth,
        _ => false,
    }
}

/// The number that a variable is.
fn number_at(state: &State, number: usize) -> i128
    ensures { result ≡ (values_of (state_view state.now)).number_at number }
{
    match state.values.get(number) {
        Some(Entry::Number(value)) => *value,
        _ => 0,
    }
}

/// The value of a variable of that type.
pub(crate) fn value_in(state: &State, sort: Sort, number: usize) -> Value
    ensures { value_view result ≡ value_in (values_of (state_view state.now)) sort number }
{
    match sort {
        Sort::Bool => Value::Truth(flag_at(state, number)),
        Sort::Int => Value::Whole(number_at(state, number)),
    }
}

/// The value of a variable as it stands in the state; none where the state doesn't have it.
pub(crate) fn entry_at(state: &State, number: usize) -> Option<Value>
    ensures { entry_view result ≡ entry_value (slice_get (state_view state.now) number) }
{
    match state.values.get(number) {
        Some(Entry::Flag(truth)) => Some(Value::Truth(*truth)),
        Some(Entry::Number(value)) => Some(Value::Whole(*value)),
        None => None,
    }
}
