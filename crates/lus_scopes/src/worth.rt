//! What the rules know of an expression's value.

ghost use Rattle.std.specs.Prelude.{◌≡◌, true};
ghost use Rattle.lus_scopes.specs.Cut.{is_bounded, known_value};

use lus_meaning::Value;

/// The value of an expression where it is constant, and its weight where it is an integer. What is
/// too heavy has no value.
#[derive(Clone, Copy)]
pub struct Worth {
    pub value: Option<Value>,
    pub weight: Option<u64>,
    ghost bounded: { is_bounded (known_value value) weight ≡ true },
}
