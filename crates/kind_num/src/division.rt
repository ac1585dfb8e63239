ghost use Rattle.std.specs.Prelude.{◌≡◌, ◌≢◌, IfOk};
ghost use Rattle.std.specs.Int.{IsGcd, int_div_euclid, int_rem_euclid};
ghost use lib.IntN.{pos};
ghost use lib.Signed.{◌<ℤ◌};
ghost use Rattle.kind_num.specs.declared.Op.TheVariants.{Div};
ghost use Rattle.kind_num.specs.Exact.{IsExactPair};
ghost use Rattle.kind_num.specs.Division.{IsFloor, IsDivision};

use crate::{Op, Past};

/// The greatest common divisor: it divides both, and each number that divides both divides it.
/// That of 0 and 0 is 0.
pub fn gcd(left: u128, right: u128) -> u128
    ensures { IsGcd left right result }
{
    let mut divisor = left;
    let mut rest = right;
    while rest != 0 {
        let next = divisor % rest;
        divisor = rest;
        rest = next;
    }
    divisor
}

/// The quotient, rounded down.
pub fn div_floor(n: i128, d: i128) -> i128
    requires { pos 0 <ℤ d }
    ensures exact { result ≡ int_div_euclid n d }
    ensures floor { IsFloor n d result }
{
    n.div_euclid(d)
}

/// The quotient and the remainder `r` with `0 <= r < |d|`. Past 128 bits is only the least number
/// divided by -1.
pub fn euclid(n: i128, d: i128) -> Result<(i128, i128), Past>
    requires { d ≢ pos 0 }
    ensures exact { IsExactPair Div n d (int_div_euclid n d) (int_rem_euclid n d) result }
    ensures division { IfOk result (λ (q, r). IsDivision n d q r) }
{
    if n == i128::MIN && d == -1 {
        return Err(Past {
            op: Op::Div,
            left: n,
            right: d,
        });
    }
    Ok((n.div_euclid(d), n.rem_euclid(d)))
}
