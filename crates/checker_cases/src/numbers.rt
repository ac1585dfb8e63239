//! Sums, products and quotients of two numbers.

use crate::parts::number;
use kind_num::{Past, add, div_floor, euclid, gcd, mul, sub};
use std::alloc::{AllocError, Global};

/// A number of 128 bits without a sign, 0 where the word is none.
fn natural(word: &str) -> u128 {
    word.parse().unwrap_or(0)
}

/// `OPERATION LEFT RIGHT`.
pub fn worked(alloc: Global, line: &str) -> Result<String, AllocError> {
    let (operation, rest) = line.split_once(' ').unwrap_or((line, ""));
    let (left, right) = rest.split_once(' ').unwrap_or((rest, ""));
    match operation.as_bytes() {
        [b'a', ..] => exact(alloc, add(number(left), number(right))),
        [b's', ..] => exact(alloc, sub(number(left), number(right))),
        [b'm', ..] => exact(alloc, mul(number(left), number(right))),
        [b'f', ..] => floor(alloc, number(left), number(right)),
        [b'e', ..] => pair(alloc, number(left), number(right)),
        _ => {
            let divisor = gcd(natural(left), natural(right));
            format!(in alloc; "{divisor}")
        }
    }
}

fn exact(alloc: Global, outcome: Result<i128, Past>) -> Result<String, AllocError> {
    match outcome {
        Ok(number) => format!(in alloc; "{number}"),
        Err(past) => format!(in alloc; "{past:?}"),
    }
}

fn floor(alloc: Global, n: i128, d: i128) -> Result<String, AllocError> {
    let quotient = if 0 < d { div_floor(n, d) } else { 0 };
    format!(in alloc; "{quotient}")
}

/// The quotient and the remainder.
fn pair(alloc: Global, n: i128, d: i128) -> Result<String, AllocError> {
    if d == 0 {
        return String::from_str(alloc, "not asked");
    }
    match euclid(n, d) {
        Ok((quotient, remainder)) => format!(in alloc; "{quotient} {remainder}"),
        Err(past) => format!(in alloc; "{past:?}"),
    }
}
