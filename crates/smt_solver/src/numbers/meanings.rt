//! The bounds that atoms mean.

ghost use Rattle.std.specs.Prelude.{◌≡◌, ◌≢◌, ◌<◌, ◌^◌, Some, All, map, unsigned_abs, IfOk};
ghost use lib.IntN.{pos, negsuc, neg_ℤ};
ghost use lib.Signed.{◌<ℤ◌};
ghost use Rattle.proof_steps.specs.View.{atom_view};
ghost use Rattle.proof_steps.specs.Bounds.{bound_by, bound_of_sum, bounds_from};
ghost use Rattle.smt_solver.specs.Sums.{meaning_view, all_meant, all_divisors, divisor_in};
ghost use Rattle.smt_solver.specs.Near.{IsNear, IsMeasured, AreMeasured};

use crate::numbers::rows::next_column;
use kind_num::div_floor;
use proof_steps::Atom;
use std::alloc::{AllocError, Global};

/// The bound that an atom means where it is true: a column, whether it ends there from above, and the
/// limit. The divisor is the size of the coefficient of an atom with one variable, and else 1.
#[derive(Clone, Copy)]
pub struct Meaning {
    pub column: u32,
    pub upper: bool,
    pub limit: i128,
    pub divisor: i128,
}

fn opposite(z: i128) -> i128
    requires { negsuc (2 ^ 126) <ℤ z }
    ensures { result ≡ neg_ℤ z }
{
    -z
}

// What `coefficient * x <= bound` means.
fn meaning_of_term(x: u32, coefficient: i128, bound: i128) -> Meaning
    requires not_zero { coefficient ≢ pos 0 }
    requires small { unsigned_abs coefficient < 2 ^ 100 }
    requires small_bound { unsigned_abs bound < 2 ^ 100 }
    ensures bound { bound_by x coefficient bound ≡ Some (meaning_view result) }
    ensures divisor { result.divisor ≡ pos (unsigned_abs coefficient) }
    ensures near { IsNear result }
{
    if coefficient > 0 {
        return Meaning {
            column: x,
            upper: true,
            limit: div_floor(bound, coefficient),
            divisor: coefficient,
        };
    }
    let divisor = opposite(coefficient);
    let quotient = div_floor(bound, divisor);
    Meaning {
        column: x,
        upper: false,
        limit: opposite(quotient),
        divisor,
    }
}

/// What the atom means. The column is that of its sum, if it has more than one variable.
pub fn meaning_of(atom: &Atom, column: u32) -> Meaning
    requires measured { IsMeasured (atom_view atom.now) }
    ensures bound { bound_of_sum column (atom_view atom.now).terms (atom_view atom.now).bound ≡ Some (meaning_view result) }
    ensures divisor { result.divisor ≡ divisor_in (atom_view atom.now) }
    ensures near { IsNear result }
{
    let terms = atom.terms.as_slice();
    if terms.len() == 1 {
        let (x, coefficient) = terms[0];
        return meaning_of_term(x, coefficient, atom.bound);
    }
    Meaning {
        column,
        upper: true,
        limit: atom.bound,
        divisor: 1,
    }
}

/// What the atoms mean in their order, the first sum having this column.
///
/// The answer is want of memory also where columns can't be numbered by 32 bits.
pub fn meanings(alloc: Global, atoms: &[Atom], first: u32) -> Result<Vec<Meaning>, AllocError>
    requires measured { AreMeasured (map atom_view atoms.now) }
    ensures bounds { IfOk result (λ v. all_meant v.items ≡ bounds_from first (map atom_view atoms.now)) }
    ensures divisors { IfOk result (λ v. all_divisors v.items ≡ map divisor_in (map atom_view atoms.now)) }
    ensures near { IfOk result (λ v. All IsNear v.items) }
{
    let mut meanings = Vec::new(alloc);
    let mut column = first;
    for atom in atoms {
        meanings.push(meaning_of(atom, column))?;
        column = next_column(atom, column)?;
    }
    Ok(meanings)
}
