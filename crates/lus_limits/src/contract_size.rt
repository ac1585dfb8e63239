//! The sizes of the terms of a contract, item after item.

ghost use Rattle.std.specs.Prelude.{◌≡◌, ◌++◌, ◌∷◌, [], IfOk, OnOk, map};
ghost use Rattle.lus_tree.specs.View.{contract_item_view, expr_view, named_view, word_view};
ghost use Rattle.lus_meaning.specs.Sizes.{all_of, asked_size, imported_size, size_in, sizes_of};
ghost use Rattle.lus_limits.specs.Contracted.{IsCut, contract_seen, item_after, mode_after, summaries_seen};
ghost use Rattle.lus_limits.specs.Measured.{mode_view, modes_view, size_view};
ghost use Rattle.lus_limits.specs.Peaks.{peak};
ghost use Rattle.lus_limits.specs.SizeCuts.{cut_modes, cut_peaks, cut_term};
ghost use Rattle.lus_limits.specs.SizeSummaries.{contract_at, is_own, no_peaks, peaks_after, those_with, with_assumption, with_import, with_mode, with_promises};
ghost use Rattle.lus_streams.specs.Names.{names_view};

use crate::chains::{Chain, asked, followed, no_chain, offered};
use crate::measuring::{ModeSize, Scope, measure};
use crate::term_size::{Size, cut, greater, no_size, one, two};
use lus_streams::names::Names;
use lus_tree::{ContractItem, Expr, Named, PlacedName};
use std::alloc::{AllocError, Global};

/// Of the terms of a contract: the greatest of its assumptions, these joined, the greatest of what it promises, its
/// modes joined, and the modes that its text can name.
#[derive(Drop)]
pub(crate) struct ContractSize {
    pub(crate) assumes: Size,
    pub(crate) assumed: Chain,
    pub(crate) promises: Size,
    pub(crate) active: Chain,
    pub(crate) modes: Vec<ModeSize>,
}

/// What callers need of the sizes of a declaration's terms: its contract's, and the greatest of its frame where the
/// caller gives the inputs, and where it gives the outputs too.
#[derive(Drop)]
pub(crate) struct SizeSummary {
    pub(crate) contract: ContractSize,
    pub(crate) called: Size,
    pub(crate) imported: Size,
}

/// Of no contract.
fn nothing(alloc: Global) -> ContractSize
    ensures { contract_seen result ≡ no_peaks }
{
    ContractSize {
        assumes: no_size(),
        assumed: no_chain(),
        promises: no_size(),
        active: no_chain(),
        modes: Vec::new(alloc),
    }
}

/// One more assumption.
#[tactic(auto, using(crate::proofs::Contracted::assumption_added))]
fn add_assumption<'a>(names: Names<'a, '_>, contract: &mut ContractSize, e: &'a Expr)
    requires { IsCut (contract_seen contract.old) }
    ensures { contract_seen contract.new ≡ cut_peaks (with_assumption (contract_seen contract.old)
        (size_in (names_view names.entry) (modes_view contract.old.modes.items) (expr_view e.now))) }
{
    let scope = Scope {
        names,
        modes: &contract.modes,
    };
    let size = measure(&scope, e).size;
    contract.assumes = cut(greater(contract.assumes, size));
    contract.assumed = followed(contract.assumed, asked(size));
}

/// More promises, of which that is the greatest.
#[tactic(auto, using(crate::proofs::Contracted::promises_added))]
fn add_promises(contract: &mut ContractSize, size: Size)
    requires { IsCut (contract_seen contract.old) }
    ensures { contract_seen contract.new ≡ cut_peaks (with_promises (contract_seen contract.old) (size_view size)) }
{
    contract.promises = cut(greater(contract.promises, size));
}

/// All requires of a mode, joined.
fn required<'a>(scope: &Scope<'a, '_>, labelled: &'a [Named]) -> Size
    ensures { size_view result ≡ cut_term (all_of (sizes_of (names_view scope.now.names)
        (modes_view scope.now.modes.now) (map named_view labelled.now))) }
{
    let mut chain = no_chain();
    for named in labelled {
        chain = followed(chain, asked(measure(scope, &named.value).size));
    }
    chain.whole
}

/// Of a promise under requires of that size.
#[tactic(auto, using(crate::proofs::Contracted::asked_cut))]
fn promised<'a>(scope: &Scope<'a, '_>, asked: Size, e: &'a Expr) -> Size
    ensures { size_view result ≡ cut_term (asked_size (size_view asked) (size_in (names_view scope.now.names)
        (modes_view scope.now.modes.now) (expr_view e.now))) }
{
    one(two(asked, one(measure(scope, e).size)))
}

/// The greatest of what a mode ensures under requires of that size.
#[tactic(auto, using(crate::proofs::Greatest::greatest_on, crate::proofs::Greatest::greatest_cut, crate::proofs::Greatest::greatest_end))]
fn ensured<'a>(scope: &Scope<'a, '_>, asked: Size, labelled: &'a [Named]) -> Size
    ensures { size_view result ≡ cut_term (peak
        (map (asked_size (size_view asked)) (sizes_of (names_view scope.now.names)
        (modes_view scope.now.modes.now) (map named_view labelled.now)))) }
{
    let mut size = no_size();
    for named in labelled {
        size = greater(size, promised(scope, asked, &named.value));
    }
    size
}

/// One more mode, whose requires have that size.
#[tactic(auto, using(crate::proofs::Contracted::mode_added))]
fn add_mode(
    alloc: Global,
    contract: &mut ContractSize,
    mode: &PlacedName,
    size: Size,
) -> Result<(), AllocError>
    requires { IsCut (contract_seen contract.old) }
    ensures { OnOk result (contract_seen contract.new
        ≡ cut_peaks (with_mode (contract_seen contract.old) (word_view mode.now).text (size_view size))) }
{
    let mode = mode.copied(alloc)?;
    contract.modes.push(ModeSize {
        contract: None,
        mode,
        size: cut(size),
    })?;
    contract.active = followed(contract.active, offered(size));
    Ok(())
}

/// The modes, and behind them a mode, where it is one of the imported contract's own.
fn push_imported(
    alloc: Global,
    modes: &mut Vec<ModeSize>,
    contract: &PlacedName,
    mode: &ModeSize,
) -> Result<(), AllocError>
    ensures { OnOk result (modes_view modes.new.items ≡ modes_view modes.old.items
        ++ cut_modes (map (imported_size (word_view contract.now).text) (those_with is_own (mode_view mode.now
        ∷ [])))) }
{
    if mode.contract.is_some() {
        return Ok(());
    }
    let name = mode.mode.copied(alloc)?;
    let contract = contract.copied(alloc)?;
    modes.push(ModeSize {
        contract: Some(contract),
        mode: name,
        size: cut(mode.size),
    })?;
    Ok(())
}

/// The modes, and behind them the imported contract's own ones.
fn push_all_imported(
    alloc: Global,
    modes: &mut Vec<ModeSize>,
    contract: &PlacedName,
    imported: &[ModeSize],
) -> Result<(), AllocError>
    ensures { OnOk result (modes_view modes.new.items ≡ modes_view modes.old.items
        ++ cut_modes (map (imported_size (word_view contract.now).text)
        (those_with is_own (modes_view imported.now)))) }
{
    for mode in imported {
        push_imported(alloc, modes, contract, mode)?;
    }
    Ok(())
}

/// One more import.
#[tactic(auto, using(crate::proofs::Contracted::import_added))]
fn add_import(
    alloc: Global,
    contract: &mut ContractSize,
    name: &PlacedName,
    imported: &ContractSize,
) -> Result<(), AllocError>
    requires { IsCut (contract_seen contract.old) }
    ensures { OnOk result (contract_seen contract.new
        ≡ cut_peaks (with_import (contract_seen contract.old) (word_view name.now).text (contract_seen imported.now))) }
{
    push_all_imported(alloc, &mut contract.modes, name, &imported.modes)?;
    contract.assumes = cut(greater(contract.assumes, imported.assumes));
    contract.assumed = followed(contract.assumed, imported.assumed);
    contract.promises = cut(greater(contract.promises, imported.promises));
    contract.active = followed(contract.active, imported.active);
    Ok(())
}

/// One more mode of a contract, with what it promises.
#[tactic(auto, using(crate::proofs::Contracted::mode_item_added))]
fn add_mode_item<'a>(
    alloc: Global,
    names: Names<'a, '_>,
    contract: &mut ContractSize,
    mode: &'a PlacedName,
    conditions: &'a [Named],
    promises: &'a [Named],
) -> Result<(), AllocError>
    requires { IsCut (contract_seen contract.old) }
    ensures { OnOk result (contract_seen contract.new ≡ cut_peaks (mode_after (names_view names.entry)
        (contract_seen contract.old) (word_view mode.now).text (map named_view conditions.now)
        (map named_view promises.now))) }
{
    let scope = Scope {
        names,
        modes: &contract.modes,
    };
    let asked = required(&scope, conditions);
    let promised = ensured(&scope, asked, promises);
    add_promises(contract, promised);
    add_mode(alloc, contract, mode, asked)?;
    Ok(())
}

/// The contract of the import with that number, counted from 1.
fn imported_at<'s>(
    links: &[&'s SizeSummary],
    none: &'s ContractSize,
    number: u32,
) -> &'s ContractSize
    requires { contract_seen none.now ≡ no_peaks }
    ensures { contract_seen result.now ≡ contract_at (summaries_seen links.now) number }
{
    let place = (number as usize).saturating_sub(1);
    if place < links.len() {
        &links[place].contract
    } else {
        none
    }
}

/// One more item; the contracts of imports are those of `links`, by number.
fn add_item<'a>(
    alloc: Global,
    names: Names<'a, '_>,
    contract: &mut ContractSize,
    item: &'a ContractItem,
    links: &[&SizeSummary],
    none: &ContractSize,
) -> Result<(), AllocError>
    requires cut { IsCut (contract_seen contract.old) }
    requires none { contract_seen none.now ≡ no_peaks }
    ensures { OnOk result (contract_seen contract.new ≡ cut_peaks (item_after (names_view names.entry)
        (contract_at (summaries_seen links.now)) (contract_seen contract.old) (contract_item_view item.now))) }
{
    match item {
        ContractItem::Assume(named) => add_assumption(names, contract, &named.value),
        ContractItem::Guarantee(named) => {
            let scope = Scope {
                names,
                modes: &contract.modes,
            };
            let size = measure(&scope, &named.value).size;
            add_promises(contract, size);
        }
        ContractItem::Mode(mode, conditions, promises) => {
            add_mode_item(alloc, names, contract, mode, conditions, promises)?;
        }
        ContractItem::Import(number, name, _, _) => {
            add_import(alloc, contract, name, imported_at(links, none, *number))?;
        }
        ContractItem::Ghost(_, _) | ContractItem::Constant(_) => {}
    }
    Ok(())
}

/// Of the items of a contract; the contracts of imports are those of `links`, by number.
///
/// # Errors
///
/// Want of memory.
pub(crate) fn contract_size<'a>(
    alloc: Global,
    names: Names<'a, '_>,
    items: &'a [ContractItem],
    links: &[&SizeSummary],
) -> Result<ContractSize, AllocError>
    ensures { IfOk result (λ c. contract_seen c ≡ cut_peaks (peaks_after (names_view names.entry)
        (contract_at (summaries_seen links.now)) no_peaks (map contract_item_view items.now))) }
{
    let none = nothing(alloc);
    let mut contract = nothing(alloc);
    for item in items {
        add_item(alloc, names, &mut contract, item, links, &none)?;
    }
    Ok(contract)
}
