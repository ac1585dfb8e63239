//! The greatest size of the terms of a node's system.

ghost use Rattle.std.specs.Prelude.{◌≡◌, length, map};
ghost use Rattle.lus_tree.specs.View.{item_view};
ghost use Rattle.lus_limits.specs.Calls.{call_view};
ghost use Rattle.lus_limits.specs.Contracted.{contract_seen, summary_seen};
ghost use Rattle.lus_limits.specs.Measured.{modes_view, size_view};
ghost use Rattle.lus_limits.specs.Needed.{sizes_at};
ghost use Rattle.lus_limits.specs.Nodes.{node_terms, owed_at, owed_term, owed_terms, property_term, property_terms};
ghost use Rattle.lus_limits.specs.SizeCuts.{cut_term};
ghost use Rattle.lus_streams.specs.Names.{names_view};

use crate::calls::{Call, Way};
use crate::contract_size::{ContractSize, SizeSummary};
use crate::measuring::{Scope, measure};
use crate::needs::{Needs, needs_at, place};
use crate::term_size::{Size, cut, greater, leaf, no_size, one, two};
use lus_streams::names::Names;
use lus_tree::Item;
use name_table::NameTable;

/// Of an item, where it is a property.
fn property_term<'a>(scope: &Scope<'a, '_>, item: &'a Item) -> Size
    ensures { size_view result ≡ cut_term (property_term (names_view scope.now.names)
        (modes_view scope.now.modes.now) (item_view item.now)) }
{
    match item {
        Item::Property(named) => measure(scope, &named.value).size,
        Item::Equation(_, _) | Item::Assert(_) | Item::Main(_) => no_size(),
    }
}

/// The greatest of the properties of a body.
#[tactic(auto, using(crate::proofs::Greatest::greatest_on, crate::proofs::Greatest::greatest_cut, crate::proofs::Greatest::greatest_end))]
fn property_terms<'a>(scope: &Scope<'a, '_>, items: &'a [Item]) -> Size
    ensures { size_view result ≡ cut_term (property_terms (names_view scope.now.names)
        (modes_view scope.now.modes.now) (map item_view items.now)) }
{
    let mut size = no_size();
    for item in items {
        size = greater(size, property_term(scope, item));
    }
    size
}

/// What is owed to a callee with that contract: its assumptions, where its beat is on.
fn owed_at(way: Way, contract: &ContractSize) -> Size
    ensures { size_view result ≡ cut_term (owed_at way (contract_seen contract.now)) }
{
    if contract.assumed.is_none {
        return no_size();
    }
    match way {
        Way::Import => no_size(),
        Way::Plain | Way::Condition => one(two(leaf(), one(contract.assumes))),
    }
}

/// What is owed to a call's callee.
fn owed_term(names: &NameTable, known: &[Option<Needs>], call: &Call<'_>) -> Size
    requires known { length known.now ≡ length names.now }
    ensures { size_view result ≡ cut_term (owed_term names.now known.now (call_view call.now)) }
{
    let Some(number) = place(names, known, &call.callee.text) else {
        return no_size();
    };
    match needs_at(known, number) {
        Some(needs) => owed_at(call.way, &needs.sizes.contract),
        None => no_size(),
    }
}

/// The greatest of what is owed to callees.
#[tactic(auto, using(crate::proofs::Greatest::greatest_on, crate::proofs::Greatest::greatest_cut, crate::proofs::Greatest::greatest_end))]
fn owed_terms(names: &NameTable, known: &[Option<Needs>], calls: &[Call<'_>]) -> Size
    requires known { length known.now ≡ length names.now }
    ensures { size_view result ≡ cut_term (owed_terms names.now known.now (map call_view calls.now)) }
{
    let mut size = no_size();
    for call in calls {
        size = greater(size, owed_term(names, known, call));
    }
    size
}

/// The greatest of the terms of a node's system, cut, by its own sizes and what is known of those it calls.
pub(crate) fn node_terms<'a>(
    names: Names<'a, '_>,
    numbers: &NameTable,
    known: &[Option<Needs>],
    calls: &[Call<'a>],
    sizes: &SizeSummary,
) -> Size
    requires known { length known.now ≡ length numbers.now }
    ensures { size_view result ≡ cut_term (node_terms numbers.now known.now (map call_view calls.now)
        (names_view names.entry) (summary_seen sizes.now)) }
{
    let contract = &sizes.contract;
    let scope = Scope {
        names,
        modes: &contract.modes,
    };
    let properties = property_terms(&scope, names.owner.body());
    let owed = owed_terms(numbers, known, calls);
    let promised = greater(contract.promises, greater(contract.active.whole, owed));
    cut(greater(
        sizes.called,
        greater(contract.assumes, greater(properties, promised)),
    ))
}
