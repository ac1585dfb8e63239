//! What is known of an expression whatever the slots have, so that it need not be evaluated.

ghost use Rattle.std.specs.Prelude.{◌≡◌};
ghost use Rattle.slot_values.specs.Resolution.{resolved_view};
ghost use Rattle.slot_sources.specs.Source.{source_view};
ghost use Rattle.slot_rows.specs.Stillness.{has_plain, has_still, is_plain, is_quiet, is_still};

use slot_sources::Source;
use slot_values::Resolved;

/// Whether it has no minus and no operation of two operands, so that nothing is outside 128 bits in it.
#[cycle(plain)]
pub(crate) fn is_plain(e: &Resolved) -> bool
    ensures { result ≡ is_plain (resolved_view e.now) }
{
    match e {
        Resolved::Known(_) | Resolved::Slot(_) => true,
        Resolved::Not(a) | Resolved::When(_, _, a) | Resolved::Latest(a, _, _, _) => is_plain(a),
        Resolved::Minus(_, _) | Resolved::Binary(_, _, _, _) => false,
        Resolved::If(c, a, b) => is_plain(c) && is_plain(a) && is_plain(b),
        Resolved::Arrow(_, a, b) | Resolved::Merge(_, a, b) => is_plain(a) && is_plain(b),
    }
}

/// Whether nothing is outside in it where its clock is off.
#[cycle(still)]
fn is_quiet(e: &Resolved) -> bool
    ensures { result ≡ is_quiet (resolved_view e.now) }
{
    is_still(e) || is_plain(e)
}

/// Whether it has no value where its clock is off, and nothing is outside in it there.
#[cycle(still)]
pub(crate) fn is_still(e: &Resolved) -> bool
    ensures { result ≡ is_still (resolved_view e.now) }
{
    match e {
        Resolved::Known(_) | Resolved::Slot(_) => true,
        Resolved::Not(a) | Resolved::Minus(_, a) => is_still(a),
        Resolved::Binary(_, _, a, b) => {
            let first = is_still(a);
            let second = is_still(b);
            (first || is_plain(a)) && (second || is_plain(b)) && (first || second)
        }
        Resolved::If(c, a, b) => is_quiet(c) && is_still(a) && is_still(b),
        Resolved::Arrow(_, a, b) => is_still(a) && is_still(b),
        Resolved::When(_, _, _) | Resolved::Merge(_, _, _) => false,
        Resolved::Latest(condition, _, _, _) => is_quiet(condition),
    }
}

/// Whether the expression of a source, if it has one, is such that nothing is outside in it.
pub(crate) fn has_plain(source: &Source) -> bool
    ensures { result ≡ has_plain (source_view source.now) }
{
    match source {
        Source::RunsWhile(_, e)
        | Source::Given(_, e)
        | Source::Argument(_, _, e)
        | Source::Remembered(_, e) => is_plain(e),
        Source::Always
        | Source::Runs(_)
        | Source::Same(_)
        | Source::Listed(_)
        | Source::Starting(_)
        | Source::Held { .. }
        | Source::Unread => true,
    }
}

/// Whether the expression of a source, if it has one, has no value where its clock is off, and nothing is outside in it
/// there.
pub(crate) fn has_still(source: &Source) -> bool
    ensures { result ≡ has_still (source_view source.now) }
{
    match source {
        Source::RunsWhile(_, e)
        | Source::Given(_, e)
        | Source::Argument(_, _, e)
        | Source::Remembered(_, e) => is_still(e),
        Source::Always
        | Source::Runs(_)
        | Source::Same(_)
        | Source::Listed(_)
        | Source::Starting(_)
        | Source::Held { .. }
        | Source::Unread => true,
    }
}
