//! Numbers of size 2^63 or more. It takes no memory.

ghost use Rattle.std.specs.Prelude.{◌≡◌, ◌<◌, ◌^◌, ◌++◌, ◌∷◌, [], List, true, false, length, slice_get, All, Some, IfSome, IfNone};
ghost use Rattle.sys_terms.specs.declared.term.Entry.{Entry as Cell};
ghost use Rattle.sys_terms.specs.declared.term.Entry.TheVariants.{Number};
ghost use Rattle.sys_terms.specs.declared.term.State.{State as Full};
ghost use Rattle.sys_terms.specs.View.{states_view};
ghost use Rattle.sys_terms.specs.Fits.{is_narrow_number, is_narrow_entry, is_narrow};
ghost use Rattle.board_core.specs.Entries.{IsWideAt};
ghost use Rattle.kind_engine.specs.Looks.{are_narrow};
ghost use Rattle.kind_engine.specs.Larges.{IsFirstLarge, IsLeast};

use sys_terms::{Entry, State};

/// The least size that is too large, 2^63.
const LARGE: u128 = 1 << 63;

/// The value at an instant of a path of the variable of this number.
#[derive(Clone, Copy)]
pub(crate) struct Large {
    pub(crate) number: u32,
    pub(crate) instant: u32,
    pub(crate) value: i128,
}

/// The number in the entry, where its size is 2^63 or more.
#[tactic(auto, unfolding(sys_terms::specs::Fits::is_narrow_number))]
fn large_number(entry: Entry) -> Option<i128>
    ensures some { IfSome result (λ n. (entry ≡ Number n) × (is_narrow_number n ≡ false)) }
    ensures none { IfNone result (is_narrow_entry entry ≡ true) }
{
    match entry {
        Entry::Flag(_) => None,
        Entry::Number(value) => {
            if value.unsigned_abs() < LARGE {
                None
            } else {
                Some(value)
            }
        }
    }
}

/// The first such number of a state.
fn large_entry(values: &[Entry]) -> Option<(u32, i128)>
    requires { length values.now < 2 ^ 32 }
    ensures some { IfSome result (λ l. (slice_get values.now l.0 ≡ Some (Number l.1))
        × (is_narrow_number l.1 ≡ false)) }
    ensures first { IfSome result (λ l. IsFirstLarge values.now l.0) }
    ensures none { IfNone result (is_narrow values.now ≡ true) }
{
    for number in 0..values.len() as u32 {
        if let Some(value) = large_number(values[number as usize]) {
            return Some((number, value));
        }
    }
    None
}

/// What is named of a path with this state at its end.
fn with_state(least: Option<Large>, instant: u32, values: &[Entry]) -> Option<Large>
    requires { length values.now < 2 ^ 32 }
    ensures { (path : List (List Cell)) → length path ≡ instant → IsLeast path least
        → IsLeast (path ++ values.now ∷ []) result }
{
    let Some((number, value)) = large_entry(values) else {
        return least;
    };
    let found = Large {
        number,
        instant,
        value,
    };
    match least {
        None => Some(found),
        Some(large) => {
            if large.number <= number {
                Some(large)
            } else {
                Some(found)
            }
        }
    }
}

/// Of the variables with such a number in the path, the one of the smallest number, at its first such instant.
pub(crate) fn large_value(path: &[State]) -> Option<Large>
    requires states { length path.now < 2 ^ 32 }
    requires values { All (λ (s : Full). length s.values.items < 2 ^ 32) path.now }
    ensures { IsLeast (states_view path.now) result }
{
    let mut least = None;
    for instant in 0..path.len() as u32 {
        least = with_state(least, instant, &path[instant as usize].values);
    }
    least
}
