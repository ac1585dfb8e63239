//! The sizes of the terms for what stands in an expression.

ghost use Rattle.std.specs.Prelude.{◌≡◌, false, true, map};
ghost use Rattle.lus_tree.specs.View.{expr_view, exprs_view, form_view, joined, word_view};
ghost use Rattle.lus_meaning.specs.Program.{listed};
ghost use Rattle.lus_meaning.specs.Scene.{sampled_by};
ghost use Rattle.lus_meaning.specs.Sizes.{given_size};
ghost use Rattle.lus_streams.specs.Clocks.{clock_seen};
ghost use Rattle.lus_limits.specs.Inner.{argument_terms, call_terms, condition_terms, import_terms, inner_among, inner_in, memory_of, start_of};
ghost use Rattle.lus_limits.specs.Measured.{modes_view, size_view};
ghost use Rattle.lus_streams.specs.Names.{names_view};
ghost use Rattle.lus_limits.specs.Peaks.{greater};
ghost use Rattle.lus_limits.specs.SizeCuts.{cut_term};

use crate::measuring::{Scope, measure};
use crate::presence::presence;
use crate::term_size::{Size, greater, leaf, no_size, one, three, two};
use lus_streams::clock::Clock;
use lus_tree::{Expr, Form, PlacedName};

/// Of what `pre` keeps of an operand on that clock.
fn memory_size<'a>(scope: &Scope<'a, '_>, clock: Clock<'a>, operand: &'a Expr) -> Size
    ensures { size_view result ≡ cut_term (memory_of (names_view scope.now.names) (modes_view scope.now.modes.now)
        (clock_seen clock.entry) (expr_view operand.now)) }
{
    let operand = measure(scope, operand).size;
    two(leaf(), three(presence(scope.names, clock), operand, leaf()))
}

/// Of what `->` keeps on that clock.
fn start_size<'a>(scope: &Scope<'a, '_>, clock: Clock<'a>) -> Size
    ensures { size_view result ≡ cut_term (start_of (names_view scope.now.names) (clock_seen clock.entry)) }
{
    two(leaf(), two(leaf(), one(presence(scope.names, clock))))
}

/// Of a stream that has that value where its clock is on, and 0 elsewhere.
pub(crate) fn given(presence: Size, value: Size) -> Size
    ensures { size_view result ≡ cut_term (given_size (size_view presence) (size_view value)) }
{
    two(leaf(), three(presence, value, leaf()))
}

/// Of the arguments of a call.
#[tactic(auto, using(crate::proofs::Greatest::greatest_on, crate::proofs::Greatest::greatest_cut, crate::proofs::Greatest::greatest_end))]
fn argument_terms<'a>(scope: &Scope<'a, '_>, arguments: &'a [Expr]) -> Size
    ensures { size_view result ≡ cut_term (argument_terms (names_view scope.now.names)
        (modes_view scope.now.modes.now) (map expr_view arguments.now)) }
{
    let mut size = no_size();
    for argument in arguments {
        size = greater(size, given(leaf(), measure(scope, argument).size));
    }
    size
}

/// Of a call on that clock.
#[tactic(auto, using(crate::proofs::Greatest::greater_cuts, crate::proofs::Greatest::listed_view))]
fn call_terms<'a>(scope: &Scope<'a, '_>, clock: Clock<'a>, arguments: &'a [Expr]) -> Size
    ensures { size_view result ≡ cut_term (call_terms (names_view scope.now.names)
        (modes_view scope.now.modes.now) (clock_seen clock.entry) (listed (joined (exprs_view arguments.now)))) }
{
    let beat = two(leaf(), presence(scope.names, clock));
    greater(beat, argument_terms(scope, arguments))
}

/// Of a call on that clock where a condition is true.
#[tactic(auto, using(crate::proofs::Greatest::greater_cuts, crate::proofs::Greatest::listed_view))]
fn condition_terms<'a>(
    scope: &Scope<'a, '_>,
    clock: Clock<'a>,
    condition: &'a Expr,
    arguments: &'a [Expr],
) -> Size
    ensures { size_view result ≡ cut_term (condition_terms (names_view scope.now.names)
        (modes_view scope.now.modes.now) (clock_seen clock.entry) (expr_view condition.now)
        (listed (joined (exprs_view arguments.now)))) }
{
    let active = two(presence(scope.names, clock), measure(scope, condition).size);
    let held = three(leaf(), leaf(), leaf());
    let held = greater(held, two(leaf(), held));
    greater(
        two(leaf(), active),
        greater(held, argument_terms(scope, arguments)),
    )
}

/// Of an import.
#[tactic(auto, using(crate::proofs::Greatest::greater_cuts))]
pub(crate) fn import_terms<'a>(scope: &Scope<'a, '_>, arguments: &'a [Expr]) -> Size
    ensures { size_view result ≡ cut_term (import_terms (names_view scope.now.names)
        (modes_view scope.now.modes.now) (map expr_view arguments.now)) }
{
    greater(given(leaf(), leaf()), argument_terms(scope, arguments))
}

/// The greatest of the terms for what stands in an expression on that clock: what `pre` and `->`
/// keep, and what stands for calls.
#[cycle(inner)]
#[tactic(auto, using(lus_tree::proofs::Views::form_views))]
pub(crate) fn inner<'a>(scope: &Scope<'a, '_>, clock: Clock<'a>, e: &'a Expr) -> Size
    ensures { size_view result ≡ cut_term (inner_in (names_view scope.now.names)
        (modes_view scope.now.modes.now) (clock_seen clock.entry) (expr_view e.now)) }
{
    match &e.form {
        Form::Not(a) | Form::Minus(a) => inner(scope, clock, a),
        Form::Pre(_, a) => greater(memory_size(scope, clock, a), inner(scope, clock, a)),
        Form::Arrow(_, a, b) => greater(start_size(scope, clock), inner_of_two(scope, clock, a, b)),
        Form::Binary(_, a, b) => inner_of_two(scope, clock, a, b),
        Form::If(a, b, c) => greater(inner(scope, clock, a), inner_of_two(scope, clock, b, c)),
        Form::When(a, _, word) => inner(scope, scope.names.clock_or_base(&word.text), a),
        Form::Merge(word, a, b) => merged(scope, word, a, b),
        Form::Call(_, _, arguments) => {
            let call = call_terms(scope, clock, arguments);
            greater(call, inner_among(scope, clock, arguments))
        }
        Form::Condact(_, a, _, arguments, defaults) => {
            let given_terms = greater(
                inner_among(scope, clock, arguments),
                inner_among(scope, clock, defaults),
            );
            let call = condition_terms(scope, clock, a, arguments);
            greater(call, greater(inner(scope, clock, a), given_terms))
        }
        Form::Truth(_) | Form::Number(_) | Form::Name(_) | Form::ModeName(_, _) => no_size(),
    }
}

/// The greatest of the terms for what stands in two expressions.
#[cycle(inner)]
fn inner_of_two<'a>(
    scope: &Scope<'a, '_>,
    clock: Clock<'a>,
    first: &'a Expr,
    second: &'a Expr,
) -> Size
    ensures { size_view result ≡ cut_term (greater
        (inner_in (names_view scope.now.names) (modes_view scope.now.modes.now) (clock_seen clock.entry)
        (expr_view first.now))
        (inner_in (names_view scope.now.names) (modes_view scope.now.modes.now) (clock_seen clock.entry)
        (expr_view second.now))) }
{
    greater(inner(scope, clock, first), inner(scope, clock, second))
}

/// The greatest of the terms for what stands in two expressions, one where a stream is true, the other where it is
/// false.
#[cycle(inner)]
fn merged<'a>(
    scope: &Scope<'a, '_>,
    word: &'a PlacedName,
    first: &'a Expr,
    second: &'a Expr,
) -> Size
    ensures { size_view result ≡ cut_term (greater
        (inner_in (names_view scope.now.names) (modes_view scope.now.modes.now)
        (sampled_by true (word_view word.now).text) (expr_view first.now))
        (inner_in (names_view scope.now.names) (modes_view scope.now.modes.now)
        (sampled_by false (word_view word.now).text) (expr_view second.now))) }
{
    greater(
        inner(scope, Clock::Sampled(true, word), first),
        inner(scope, Clock::Sampled(false, word), second),
    )
}

/// The greatest of the terms for what stands in these expressions.
#[cycle(inner)]
#[tactic(auto, using(crate::proofs::Greatest::greatest_on, crate::proofs::Greatest::greatest_cut, crate::proofs::Greatest::greatest_end))]
fn inner_among<'a>(scope: &Scope<'a, '_>, clock: Clock<'a>, values: &'a [Expr]) -> Size
    ensures { size_view result ≡ cut_term (inner_among (names_view scope.now.names)
        (modes_view scope.now.modes.now) (clock_seen clock.entry) (joined (exprs_view values.now))) }
{
    let mut size = no_size();
    for value in values {
        size = greater(size, inner(scope, clock, value));
    }
    size
}
