//! Trees of what was read.

ghost use Rattle.std.specs.Prelude.{◌≡◌, ◌<◌, ◌+◌, [], ◌∷◌, ◌++◌, length, map, IfOk, option_map};
ghost use Rattle.lus_tree.specs.Tree.{negation, minus, pre, arrow, binary, choice, sampled, merged, call, condact};
ghost use Rattle.lus_tree.specs.View.{expr_view, form_view, joined, word_view};
ghost use Rattle.lus_grammar.specs.Trees.{begun, place_of};

use crate::counts::Counts;
use crate::stop::{Found, List};
use lus_tree::{Expr, Form, Operator, PlacedName, Pos};
use std::alloc::{AllocError, Global};

/// An expression, with what stands behind it.
pub(crate) fn found(
    alloc: Global,
    from: Pos,
    at: Pos,
    form: Form,
    next: usize,
    counts: Counts,
) -> Result<Found, AllocError>
    ensures tree { IfOk result (λ f. expr_view f.expr.value ≡ form_view form (record { from = from; at = at })) }
    ensures rest { IfOk result (λ f. (f.next ≡ next) × (f.counts ≡ counts)) }
{
    let expr = Box::new(alloc, Expr { from, at, form })?;
    Ok(Found { expr, next, counts })
}

/// `not a`
pub(crate) fn negation(alloc: Global, at: Pos, a: Found) -> Result<Found, AllocError>
    ensures tree { IfOk result (λ f. expr_view f.expr.value
        ≡ negation (record { from = at; at = at }) (expr_view a.expr.value)) }
    ensures rest { IfOk result (λ f. (f.next ≡ a.next) × (f.counts ≡ a.counts)) }
{
    found(alloc, at, at, Form::Not(a.expr), a.next, a.counts)
}

/// `- a`
pub(crate) fn minus(alloc: Global, at: Pos, a: Found) -> Result<Found, AllocError>
    ensures tree { IfOk result (λ f. expr_view f.expr.value
        ≡ minus (record { from = at; at = at }) (expr_view a.expr.value)) }
    ensures rest { IfOk result (λ f. (f.next ≡ a.next) × (f.counts ≡ a.counts)) }
{
    found(alloc, at, at, Form::Minus(a.expr), a.next, a.counts)
}

/// `pre a`
pub(crate) fn pre(alloc: Global, at: Pos, number: u32, a: Found) -> Result<Found, AllocError>
    ensures tree { IfOk result (λ f. expr_view f.expr.value
        ≡ pre (record { from = at; at = at }) number (expr_view a.expr.value)) }
    ensures rest { IfOk result (λ f. (f.next ≡ a.next) × (f.counts ≡ a.counts)) }
{
    found(alloc, at, at, Form::Pre(number, a.expr), a.next, a.counts)
}

/// `a -> b`
pub(crate) fn arrow(
    alloc: Global,
    number: u32,
    a: Found,
    at: Pos,
    b: Found,
) -> Result<Found, AllocError>
    ensures tree { IfOk result (λ f. expr_view f.expr.value
        ≡ arrow (record { from = (place_of (expr_view a.expr.value)).from; at = at }) number
        (expr_view a.expr.value) (expr_view b.expr.value)) }
    ensures rest { IfOk result (λ f. (f.next ≡ b.next) × (f.counts ≡ b.counts)) }
{
    let from = a.expr.from;
    let form = Form::Arrow(number, a.expr, b.expr);
    found(alloc, from, at, form, b.next, b.counts)
}

/// `a OPERATOR b`
pub(crate) fn binary(
    alloc: Global,
    operator: Operator,
    a: Found,
    at: Pos,
    b: Found,
) -> Result<Found, AllocError>
    ensures tree { IfOk result (λ f. expr_view f.expr.value
        ≡ binary (record { from = (place_of (expr_view a.expr.value)).from; at = at }) operator
        (expr_view a.expr.value) (expr_view b.expr.value)) }
    ensures rest { IfOk result (λ f. (f.next ≡ b.next) × (f.counts ≡ b.counts)) }
{
    let from = a.expr.from;
    let form = Form::Binary(operator, a.expr, b.expr);
    found(alloc, from, at, form, b.next, b.counts)
}

/// `if a then b else c`
pub(crate) fn choice(
    alloc: Global,
    at: Pos,
    a: Found,
    b: Found,
    c: Found,
) -> Result<Found, AllocError>
    ensures tree { IfOk result (λ f. expr_view f.expr.value
        ≡ choice (record { from = at; at = at })
        (expr_view a.expr.value) (expr_view b.expr.value) (expr_view c.expr.value)) }
    ensures rest { IfOk result (λ f. (f.next ≡ c.next) × (f.counts ≡ c.counts)) }
{
    let form = Form::If(a.expr, b.expr, c.expr);
    found(alloc, at, at, form, c.next, c.counts)
}

/// `a when c`, or `a when not c`; the name is the last token.
pub(crate) fn sampled(
    alloc: Global,
    a: Found,
    at: Pos,
    on: bool,
    clock: PlacedName,
    next: usize,
) -> Result<Found, AllocError>
    ensures tree { IfOk result (λ f. expr_view f.expr.value
        ≡ sampled (record { from = (place_of (expr_view a.expr.value)).from; at = at })
        (expr_view a.expr.value) on (word_view clock)) }
    ensures rest { IfOk result (λ f. (f.next ≡ next) × (f.counts ≡ a.counts)) }
{
    let from = a.expr.from;
    let form = Form::When(a.expr, on, clock);
    found(alloc, from, at, form, next, a.counts)
}

/// `merge c (true -> a) (false -> b)`, with one token behind b.
pub(crate) fn merged(
    alloc: Global,
    at: Pos,
    clock: PlacedName,
    a: Found,
    b: Found,
) -> Result<Found, AllocError>
    requires { b.next < usize.MAX }
    ensures tree { IfOk result (λ f. expr_view f.expr.value
        ≡ merged (record { from = at; at = at }) (word_view clock)
        (expr_view a.expr.value) (expr_view b.expr.value)) }
    ensures rest { IfOk result (λ f. (f.next ≡ b.next + 1) × (f.counts ≡ b.counts)) }
{
    let form = Form::Merge(clock, a.expr, b.expr);
    found(alloc, at, at, form, b.next + 1, b.counts)
}

/// `callee(arguments)`, with one token behind the arguments.
pub(crate) fn called(
    alloc: Global,
    number: u32,
    callee: PlacedName,
    arguments: List,
) -> Result<Found, AllocError>
    requires { arguments.next < usize.MAX }
    ensures tree { IfOk result (λ f. expr_view f.expr.value
        ≡ call (record { from = callee.at; at = callee.at }) number (word_view callee)
        (joined (map expr_view arguments.items.items))) }
    ensures rest { IfOk result (λ f. (f.next ≡ arguments.next + 1) × (f.counts ≡ arguments.counts)) }
{
    let at = callee.at;
    let form = Form::Call(number, callee, arguments.items);
    found(alloc, at, at, form, arguments.next + 1, arguments.counts)
}

/// Where a `condact` stands, and its number.
#[derive(Clone, Copy)]
pub(crate) struct Head {
    pub from: Pos,
    pub at: Pos,
    pub number: u32,
}

/// `condact(condition, callee(arguments), defaults)`, up to `next`.
pub(crate) fn condact(
    alloc: Global,
    head: Head,
    condition: Found,
    callee: PlacedName,
    arguments: Vec<Expr>,
    defaults: Vec<Expr>,
    next: usize,
    counts: Counts,
) -> Result<Found, AllocError>
    ensures tree { IfOk result (λ f. expr_view f.expr.value
        ≡ condact (record { from = head.from; at = head.at }) head.number
        (expr_view condition.expr.value) (word_view callee)
        (joined (map expr_view arguments.items)) (joined (map expr_view defaults.items))) }
    ensures rest { IfOk result (λ f. (f.next ≡ next) × (f.counts ≡ counts)) }
{
    let form = Form::Condact(head.number, condition.expr, callee, arguments, defaults);
    found(alloc, head.from, head.at, form, next, counts)
}

/// The same in parentheses, of which the first stands at `from`, with one token behind it.
pub(crate) fn enclosed(of: Found, from: Pos) -> Found
    requires { of.next < usize.MAX }
    ensures tree { expr_view result.expr.value ≡ begun from (expr_view of.expr.value) }
    ensures rest { (result.next ≡ of.next + 1) × (result.counts ≡ of.counts) }
{
    let Found {
        mut expr,
        next,
        counts,
    } = of;
    expr.from = from;
    Found {
        expr,
        next: next + 1,
        counts,
    }
}

/// No expressions.
pub(crate) fn none(alloc: Global, next: usize, counts: Counts) -> List
    ensures items { map expr_view result.items.items ≡ [] }
    ensures rest { (result.next ≡ next) × (result.counts ≡ counts) }
{
    List {
        items: Vec::new(alloc),
        next,
        counts,
    }
}

/// One expression more.
pub(crate) fn added(list: List, found: Found) -> Result<List, AllocError>
    ensures items { IfOk result (λ l. map expr_view l.items.items
        ≡ map expr_view list.items.items ++ (expr_view found.expr.value ∷ [])) }
    ensures rest { IfOk result (λ l. (l.next ≡ found.next) × (l.counts ≡ found.counts)) }
{
    let mut items = list.items;
    items.push(Box::into_inner(found.expr))?;
    Ok(List {
        items,
        next: found.next,
        counts: found.counts,
    })
}
