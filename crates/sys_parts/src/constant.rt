//! The value of a constant expression.

ghost use Rattle.std.specs.Prelude.{◌≡◌, true};
ghost use Rattle.sys_parts.specs.Values.{is_small, known_value};

use lus_meaning::Value;

/// The value of a constant expression: a truth value, a number of a size of at most 2^63, or none.
#[derive(Clone, Copy)]
pub struct Constant {
    pub value: Option<Value>,
    ghost small: { is_small (known_value value) ≡ true },
}
