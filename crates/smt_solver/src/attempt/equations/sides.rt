//! The other bounds, over variables that have no definition.

use crate::attempt::equations::halt::Halt;
use crate::attempt::equations::table::Reduced;
use kind_num::{add, sub};

/// A bound of a column, whose sum was reduced, with the number of its atom.
#[derive(Drop)]
pub struct Side {
    pub is_upper: bool,
    pub atom: u32,
    pub reduced: Reduced,
    /// By how much the sum's constant is past the limit.
    pub excess: i128,
}

/// The limits of a variable, each with the place of the bound from which it comes.
#[derive(Clone, Copy)]
pub struct Ends {
    pub low: Option<(i128, usize)>,
    pub high: Option<(i128, usize)>,
}

/// What a bound comes to.
#[derive(Clone, Copy)]
pub enum Reach {
    /// It is met whatever the variables are.
    Met,
    /// It isn't met whatever the variables are.
    Missed,
    /// The variable is at most the limit, or at least.
    Ends(u32, bool, i128),
    /// It is one over several variables.
    Open,
}

/// The bound of a column whose sum was reduced.
pub fn side_of(is_upper: bool, limit: i128, atom: u32, reduced: Reduced) -> Result<Side, Halt> {
    let excess = if is_upper {
        sub(reduced.sum.constant, limit)?
    } else {
        sub(limit, reduced.sum.constant)?
    };
    Ok(Side {
        is_upper,
        atom,
        reduced,
        excess,
    })
}

/// What the bound says of one variable, or of none.
pub fn reach_of(side: &Side) -> Result<Reach, Halt> {
    match side.reduced.sum.terms.as_slice() {
        [] if side.excess > 0 => Ok(Reach::Missed),
        [] => Ok(Reach::Met),
        [(variable, 1)] => one_sided(*variable, side.is_upper, side.excess),
        [(variable, -1)] => one_sided(*variable, !side.is_upper, side.excess),
        _ => Ok(Reach::Open),
    }
}

fn one_sided(variable: u32, is_upper: bool, excess: i128) -> Result<Reach, Halt> {
    let limit = if is_upper { sub(0, excess)? } else { excess };
    Ok(Reach::Ends(variable, is_upper, limit))
}

/// The limits with one more, and the places of two bounds that cross.
pub fn with_end(
    ends: Ends,
    is_upper: bool,
    limit: i128,
    place: usize,
) -> (Ends, Option<(usize, usize)>) {
    let other = if is_upper { ends.low } else { ends.high };
    let crossed = match other {
        Some((end, first)) if is_upper && limit < end || !is_upper && end < limit => {
            Some((first, place))
        }
        _ => None,
    };
    (narrower(ends, is_upper, limit, place), crossed)
}

fn narrower(ends: Ends, is_upper: bool, limit: i128, place: usize) -> Ends {
    let own = if is_upper { ends.high } else { ends.low };
    match own {
        Some((end, _)) if is_upper && end <= limit || !is_upper && limit <= end => ends,
        _ if is_upper => Ends {
            low: ends.low,
            high: Some((limit, place)),
        },
        _ => Ends {
            low: Some((limit, place)),
            high: ends.high,
        },
    }
}

/// The number between the limits that is nearest to 0.
pub fn nearest(ends: Ends) -> i128 {
    match (ends.low, ends.high) {
        (Some((low, _)), _) if low > 0 => low,
        (_, Some((high, _))) if high < 0 => high,
        _ => 0,
    }
}
