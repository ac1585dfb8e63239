//! The faults of the items of a declaration.

ghost use Rattle.std.specs.Prelude.{◌≡◌, ◌++◌, flat_map, map};
ghost use Rattle.lus_tree.specs.View.{contract_item_view, exprs_view, item_view, named_view};
ghost use Rattle.lus_meaning.specs.Scene.{base};
ghost use Rattle.lus_scopes.specs.Least.{least_view, noted_all};
ghost use Rattle.lus_clocks.specs.Items.{component_walk, contract_statement_walk, labelled_walk, placed_walk, statement_walk};
ghost use Rattle.lus_streams.specs.Names.{names_view};

use crate::equation::{equation, placed};
use lus_scopes::least::Least;
use lus_streams::clock::Clock;
use lus_streams::names::Names;
use lus_tree::{ContractItem, Expr, Item, Named};

/// Notes the faults of an item of a body.
fn statement(names: Names<'_, '_>, least: &mut Least, item: &Item)
    ensures { least_view least.new ≡ noted_all (least_view least.old)
        (statement_walk (names_view names.entry) (item_view item.now)) }
{
    match item {
        Item::Equation(words, e) => equation(names, least, words, e),
        Item::Assert(e) => placed(names, least, Clock::Base, e),
        Item::Property(property) => placed(names, least, Clock::Base, &property.value),
        Item::Main(_) => {}
    }
}

/// Notes the faults of the items of a body.
#[tactic(auto, using(lus_scopes::proofs::Leasts::noted_append))]
fn statements(names: Names<'_, '_>, least: &mut Least, items: &[Item])
    ensures { least_view least.new ≡ noted_all (least_view least.old)
        (flat_map (statement_walk (names_view names.entry)) (map item_view items.now)) }
{
    for item in items {
        statement(names, least, item);
    }
}

/// Notes the faults of expressions with labels.
#[tactic(auto, using(lus_scopes::proofs::Leasts::noted_append))]
fn labelled(names: Names<'_, '_>, least: &mut Least, all: &[Named])
    ensures { least_view least.new ≡ noted_all (least_view least.old)
        (labelled_walk (names_view names.entry) (map named_view all.now)) }
{
    for named in all {
        placed(names, least, Clock::Base, &named.value);
    }
}

/// Notes the faults of expressions on the base clock.
#[tactic(auto, using(lus_scopes::proofs::Leasts::noted_append))]
fn arguments(names: Names<'_, '_>, least: &mut Least, all: &[Expr])
    ensures { least_view least.new ≡ noted_all (least_view least.old)
        (flat_map (placed_walk (names_view names.entry) base) (exprs_view all.now)) }
{
    for argument in all {
        placed(names, least, Clock::Base, argument);
    }
}

/// Notes the faults of an item of a contract.
#[tactic(auto, using(lus_scopes::proofs::Leasts::noted_append))]
fn contract_item(names: Names<'_, '_>, least: &mut Least, item: &ContractItem)
    ensures { least_view least.new ≡ noted_all (least_view least.old)
        (contract_statement_walk (names_view names.entry) (contract_item_view item.now)) }
{
    match item {
        ContractItem::Assume(assumed) => placed(names, least, Clock::Base, &assumed.value),
        ContractItem::Guarantee(guaranteed) => placed(names, least, Clock::Base, &guaranteed.value),
        ContractItem::Ghost(_, e) => placed(names, least, Clock::Base, e),
        ContractItem::Constant(_) => {}
        ContractItem::Mode(_, conditions, promises) => {
            labelled(names, least, conditions);
            labelled(names, least, promises);
        }
        ContractItem::Import(_, _, values, _) => arguments(names, least, values),
    }
}

/// Notes the faults of the items of a contract.
#[tactic(auto, using(lus_scopes::proofs::Leasts::noted_append))]
fn contract_items(names: Names<'_, '_>, least: &mut Least, items: &[ContractItem])
    ensures { least_view least.new ≡ noted_all (least_view least.old)
        (flat_map (contract_statement_walk (names_view names.entry)) (map contract_item_view items.now)) }
{
    for item in items {
        contract_item(names, least, item);
    }
}

/// Notes the faults of a declaration.
#[tactic(auto, using(lus_scopes::proofs::Leasts::noted_append))]
pub(crate) fn component(names: Names<'_, '_>, least: &mut Least)
    ensures { least_view least.new ≡ noted_all (least_view least.old) (component_walk (names_view names.entry)) }
{
    contract_items(names, least, names.owner.contract());
    statements(names, least, names.owner.body());
}
