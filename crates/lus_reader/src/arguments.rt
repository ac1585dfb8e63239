//! Reads lists of expressions.

ghost use Rattle.std.specs.Prelude.{◌≡◌, ◌<◌};
ghost use Rattle.lus_reader.specs.Look.{AreFirst};
ghost use Rattle.lus_reader.specs.Outcome.{More, Argued, Bracketed, OnwardList, FurtherList};

use crate::built;
use crate::counts::Counts;
use crate::expression::read_expression;
use crate::start::may_begin;
use crate::stop::{List, Stop};
use crate::token::{expect_sign, is_sign};
use lus_lexer::{Sign, Token};
use std::alloc::Global;

/// `"(" [ exprs ] ")"`
#[cycle(reader)]
pub(crate) fn read_bracketed(
    alloc: Global,
    tokens: &[Token],
    bytes: &[u8],
    at: usize,
    counts: Counts,
) -> Result<List, Stop>
    requires { AreFirst bytes.now tokens.now }
    ensures reads { Bracketed bytes.now tokens.now at counts result }
    ensures onward { OnwardList tokens.now at result }
{
    expect_sign(tokens, at, Sign::Open)?;
    let list = read_arguments(alloc, tokens, bytes, at + 1, counts)?;
    expect_sign(tokens, list.next, Sign::Close)?;
    Ok(List {
        items: list.items,
        next: list.next + 1,
        counts: list.counts,
    })
}

/// `[ exprs ]`
#[cycle(reader)]
pub(crate) fn read_arguments(
    alloc: Global,
    tokens: &[Token],
    bytes: &[u8],
    at: usize,
    counts: Counts,
) -> Result<List, Stop>
    requires { AreFirst bytes.now tokens.now }
    ensures reads { Argued bytes.now tokens.now at counts result }
    ensures onward { FurtherList tokens.now at result }
{
    let none = built::none(alloc, at, counts);
    if !may_begin(tokens, at) {
        return Ok(none);
    }
    let first = read_expression(alloc, tokens, bytes, at, counts)?;
    let one = built::added(none, first)?;
    read_more(alloc, tokens, bytes, one)
}

/// `{ "," expr }`, behind what is listed already
#[cycle(reader)]
pub(crate) fn read_more(
    alloc: Global,
    tokens: &[Token],
    bytes: &[u8],
    of: List,
) -> Result<List, Stop>
    requires { AreFirst bytes.now tokens.now }
    ensures reads { More bytes.now tokens.now of result }
    ensures onward { FurtherList tokens.now of.next result }
{
    let mut list = of;
    while is_sign(tokens, list.next, Sign::Comma) {
        let found = read_expression(alloc, tokens, bytes, list.next + 1, list.counts)?;
        list = built::added(list, found)?;
    }
    Ok(list)
}
