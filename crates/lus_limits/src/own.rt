//! The sizes of a declaration's own terms.

ghost use Rattle.std.specs.Prelude.{◌≡◌, ◌∷◌, [], cond, map};
ghost use Rattle.lus_tree.specs.Tree.{text_of};
ghost use Rattle.lus_tree.specs.View.{contract_item_view, definition_view, expr_view, item_view, named_view, param_view, word_view};
ghost use Rattle.lus_meaning.specs.Depends.{named_in};
ghost use Rattle.lus_meaning.specs.Scene.{base, clock_from, clock_of_names};
ghost use Rattle.lus_meaning.specs.Sizes.{free_size, given_size, leaf, one, presence, size_in, two};
ghost use Rattle.lus_streams.specs.Clocks.{clock_seen};
ghost use Rattle.lus_limits.specs.Inner.{inner_in};
ghost use Rattle.lus_limits.specs.Measured.{modes_view, size_view};
ghost use Rattle.lus_streams.specs.Names.{names_view};
ghost use Rattle.lus_limits.specs.OwnTerms.{all_contract_terms, body_terms, constant_terms, contract_terms, free_terms, inner_each, inner_labelled, side_on, statement_terms};
ghost use Rattle.lus_limits.specs.Peaks.{no_size};
ghost use Rattle.lus_limits.specs.SizeCuts.{cut_term};

use crate::inner::{given, import_terms, inner};
use crate::measuring::{Scope, measure};
use crate::presence::presence;
use crate::term_size::{Size, greater, leaf, no_size, one, two};
use lus_streams::clock::{Clock, declared};
use lus_streams::lookup::side_clock;
use lus_streams::names::Names;
use lus_tree::{ContractItem, Definition, Expr, Item, Named, Param};
use name_table::NameTable;

/// Of an equation of names on a clock, and of what stands in its right side, on another.
#[tactic(auto, using(crate::proofs::Greatest::greater_cuts, crate::proofs::Greatest::given_cut))]
fn side_terms<'a>(scope: &Scope<'a, '_>, own: Clock<'a>, clock: Clock<'a>, e: &'a Expr) -> Size
    ensures { size_view result ≡ cut_term (side_on (names_view scope.now.names) (modes_view scope.now.modes.now)
        (clock_seen own.entry) (clock_seen clock.entry) (expr_view e.now)) }
{
    let value = measure(scope, e).size;
    greater(
        given(presence(scope.names, own), value),
        inner(scope, clock, e),
    )
}

/// Of what stands in labelled expressions.
#[tactic(auto, using(crate::proofs::Greatest::greatest_on, crate::proofs::Greatest::greatest_cut, crate::proofs::Greatest::greatest_end))]
fn inner_labelled<'a>(scope: &Scope<'a, '_>, labelled: &'a [Named]) -> Size
    ensures { size_view result ≡ cut_term (inner_labelled (names_view scope.now.names)
        (modes_view scope.now.modes.now) (map named_view labelled.now)) }
{
    let mut size = no_size();
    for named in labelled {
        size = greater(size, inner(scope, Clock::Base, &named.value));
    }
    size
}

/// Of what stands in expressions.
#[tactic(auto, using(crate::proofs::Greatest::greatest_on, crate::proofs::Greatest::greatest_cut, crate::proofs::Greatest::greatest_end))]
fn inner_each<'a>(scope: &Scope<'a, '_>, values: &'a [Expr]) -> Size
    ensures { size_view result ≡ cut_term (inner_each (names_view scope.now.names)
        (modes_view scope.now.modes.now) (map expr_view values.now)) }
{
    let mut size = no_size();
    for value in values {
        size = greater(size, inner(scope, Clock::Base, value));
    }
    size
}

/// Of an item of a contract.
#[tactic(auto, using(crate::proofs::Greatest::greater_cuts))]
fn contract_terms<'a>(scope: &Scope<'a, '_>, item: &'a ContractItem) -> Size
    ensures { size_view result ≡ cut_term (contract_terms (names_view scope.now.names)
        (modes_view scope.now.modes.now) (contract_item_view item.now)) }
{
    match item {
        ContractItem::Assume(named) | ContractItem::Guarantee(named) => {
            inner(scope, Clock::Base, &named.value)
        }
        ContractItem::Ghost(stream, value) => {
            let own = scope.names.clock_or_base(&stream.name.text);
            side_terms(scope, own, Clock::Base, value)
        }
        ContractItem::Constant(constant) => inner(scope, Clock::Base, &constant.value),
        ContractItem::Mode(_, required, ensured) => {
            greater(
                inner_labelled(scope, required),
                inner_labelled(scope, ensured),
            )
        }
        ContractItem::Import(_, _, arguments, _) => {
            greater(import_terms(scope, arguments), inner_each(scope, arguments))
        }
    }
}

/// Of the items of a contract.
#[tactic(auto, using(crate::proofs::Greatest::greatest_on, crate::proofs::Greatest::greatest_cut, crate::proofs::Greatest::greatest_end))]
pub(crate) fn all_contract_terms<'a>(scope: &Scope<'a, '_>, items: &'a [ContractItem]) -> Size
    ensures { size_view result ≡ cut_term (all_contract_terms (names_view scope.now.names)
        (modes_view scope.now.modes.now) (map contract_item_view items.now)) }
{
    let mut size = no_size();
    for item in items {
        size = greater(size, contract_terms(scope, item));
    }
    size
}

/// Of what stands in constants.
#[tactic(auto, using(crate::proofs::Greatest::greatest_on, crate::proofs::Greatest::greatest_cut, crate::proofs::Greatest::greatest_end))]
pub(crate) fn constant_terms<'a>(scope: &Scope<'a, '_>, constants: &'a [Definition]) -> Size
    ensures { size_view result ≡ cut_term (constant_terms (names_view scope.now.names)
        (modes_view scope.now.modes.now) (map definition_view constants.now)) }
{
    let mut size = no_size();
    for constant in constants {
        size = greater(size, inner(scope, Clock::Base, &constant.value));
    }
    size
}

/// Of an item of a body.
#[tactic(auto, using(crate::proofs::Greatest::greater_cuts))]
fn statement_terms<'a>(scope: &Scope<'a, '_>, item: &'a Item) -> Size
    ensures { size_view result ≡ cut_term (statement_terms (names_view scope.now.names)
        (modes_view scope.now.modes.now) (item_view item.now)) }
{
    match item {
        Item::Equation(words, value) => {
            let clock = side_clock(scope.names, words);
            side_terms(scope, clock, clock, value)
        }
        Item::Assert(value) => {
            let asserted = one(two(leaf(), one(measure(scope, value).size)));
            greater(asserted, inner(scope, Clock::Base, value))
        }
        Item::Property(named) => inner(scope, Clock::Base, &named.value),
        Item::Main(_) => no_size(),
    }
}

/// Of the items of a body.
#[tactic(auto, using(crate::proofs::Greatest::greatest_on, crate::proofs::Greatest::greatest_cut, crate::proofs::Greatest::greatest_end))]
pub(crate) fn body_terms<'a>(scope: &Scope<'a, '_>, items: &'a [Item]) -> Size
    ensures { size_view result ≡ cut_term (body_terms (names_view scope.now.names)
        (modes_view scope.now.modes.now) (map item_view items.now)) }
{
    let mut size = no_size();
    for item in items {
        size = greater(size, statement_terms(scope, item));
    }
    size
}

/// Of a stream that nothing gives.
fn free(presence: Size) -> Size
    ensures { size_view result ≡ cut_term (free_size (size_view presence)) }
{
    one(two(one(presence), one(two(leaf(), leaf()))))
}

/// Of a stream, where it is not among these names.
pub(crate) fn free_term<'a>(known: &NameTable, names: Names<'a, '_>, stream: &'a Param) -> Size
    ensures { size_view result ≡ cut_term (cond (named_in (word_view (stream.now).name).text known.now) no_size
        (free_size (presence (names_view names.entry) (clock_from (param_view stream.now).clock)))) }
{
    if known.has(&stream.name.text) {
        no_size()
    } else {
        free(presence(names, declared(&stream.clock)))
    }
}

/// Of the streams that are not among these names.
#[tactic(auto, using(crate::proofs::Greatest::greatest_on, crate::proofs::Greatest::greatest_cut, crate::proofs::Greatest::greatest_end))]
pub(crate) fn free_terms<'a>(known: &NameTable, names: Names<'a, '_>, streams: &'a [Param]) -> Size
    ensures { size_view result ≡ cut_term (free_terms known.now (names_view names.entry) (map param_view streams.now)) }
{
    let mut size = no_size();
    for stream in streams {
        size = greater(size, free_term(known, names, stream));
    }
    size
}
