//! The cases, each a play, read from a text.

use crate::plays::Cast;
use anyhow::{Result, bail};
use proof_steps::Budgets;

/// Who plays on which system, how deep, with which budgets a query, and in which order the first
/// turns come.
#[derive(Clone, Copy)]
pub struct Case<'a> {
    pub cast: Cast,
    pub name: &'a str,
    pub depth: u32,
    pub budgets: Budgets,
    pub order: Order,
}

/// The first turns.
#[derive(Clone, Copy)]
pub enum Order {
    /// One of the first engine, bounded search or the one that teaches, and then each goes to its end.
    First,
    /// One of induction, and then each engine goes to its end.
    Second,
    /// In turns, as many as the depth; then each engine goes to its end.
    Turns,
}

/// More than any case needs.
fn ample() -> Budgets {
    Budgets {
        conflicts: 100_000,
        splits: 2_000,
        pivots: 200_000,
    }
}

/// The budgets of words such as `splits 3`, and of none.
fn budgets_of(words: &str) -> Result<Budgets> {
    let Some((word, most)) = words.split_once(' ') else {
        return Ok(ample());
    };
    let most = most.parse()?;
    Ok(match word.as_bytes() {
        [b'c', ..] => Budgets {
            conflicts: most,
            ..ample()
        },
        [b's', ..] => Budgets {
            splits: most,
            ..ample()
        },
        [b'p', ..] => Budgets {
            pivots: most,
            ..ample()
        },
        _ => bail!("no budget has that name"),
    })
}

fn cast_of(word: &str) -> Result<Cast> {
    Ok(match word.as_bytes() {
        [b'b', b'o', b'u', ..] => Cast::Bounded,
        [b'b', b'o', b't', ..] => Cast::Both,
        [b's', b't', ..] => Cast::Step,
        [b's', b'h', ..] => Cast::Shown,
        [b't', ..] => Cast::Taught,
        _ => bail!("nobody has that name"),
    })
}

fn order_of(word: &str) -> Result<Order> {
    Ok(match word.as_bytes() {
        [b'f', ..] => Order::First,
        [b's', ..] => Order::Second,
        [b't', ..] => Order::Turns,
        _ => bail!("no order has that name"),
    })
}

/// The part of a line before a semicolon and a blank, and what stands behind them.
fn cut(line: &str) -> (&str, &str) {
    line.split_once("; ").unwrap_or((line, ""))
}

/// The case of a line such as `both; halves; 2; turns; splits 3`.
pub fn case_of(line: &str) -> Result<Case<'_>> {
    let (who, rest) = cut(line);
    let (name, rest) = cut(rest);
    let (depth, rest) = cut(rest);
    let (turns, rest) = cut(rest);
    Ok(Case {
        cast: cast_of(who)?,
        name,
        depth: depth.parse()?,
        budgets: budgets_of(rest)?,
        order: order_of(turns)?,
    })
}
