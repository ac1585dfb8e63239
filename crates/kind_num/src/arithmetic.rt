ghost use lib.IntN.{◌+ℤ◌, ◌*ℤ◌, ◌-ℤ◌};
ghost use Rattle.kind_num.specs.declared.Op.TheVariants.{Add, Sub, Mul};
ghost use Rattle.kind_num.specs.Exact.{IsExact};

use crate::{Op, Past};

/// The sum, or the operands exactly where it is outside 128 bits.
pub fn add(left: i128, right: i128) -> Result<i128, Past>
    ensures { IsExact Add left right (left +ℤ right) result }
{
    match left.checked_add(right) {
        Some(sum) => Ok(sum),
        None => Err(Past {
            op: Op::Add,
            left,
            right,
        }),
    }
}

/// The difference, or the operands exactly where it is outside 128 bits.
pub fn sub(left: i128, right: i128) -> Result<i128, Past>
    ensures { IsExact Sub left right (left -ℤ right) result }
{
    match left.checked_sub(right) {
        Some(difference) => Ok(difference),
        None => Err(Past {
            op: Op::Sub,
            left,
            right,
        }),
    }
}

/// The product, or the operands exactly where it is outside 128 bits.
pub fn mul(left: i128, right: i128) -> Result<i128, Past>
    ensures { IsExact Mul left right (left *ℤ right) result }
{
    match left.checked_mul(right) {
        Some(product) => Ok(product),
        None => Err(Past {
            op: Op::Mul,
            left,
            right,
        }),
    }
}
