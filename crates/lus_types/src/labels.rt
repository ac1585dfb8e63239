//! Labels that stand twice.

ghost use Rattle.std.specs.Prelude.{◌≡◌, ◌<◌, suc, ◌++◌, IfOk, List, Option, drop, get_or, length, map, flat_map};
ghost use Rattle.lus_tree.specs.Reason.{Refused, name_twice};
ghost use Rattle.lus_tree.specs.View.{contract_item_view, item_view, named_view};
ghost use Rattle.lus_meaning.specs.Faults.{meets};
ghost use Rattle.lus_meaning.specs.NameFaults.{assume_tags, ensure_tags, guarantee_tags, labels_twice, property_tags, same_tag, tag, tags_twice};
ghost use Rattle.lus_types.specs.Labels.{HasLabels, LabelsOn, label_view, labels_view, tags_from_last};
ghost use Rattle.lus_scopes.specs.Least.{least_view, noted_all};
ghost use Rattle.lus_scopes.specs.Notes.{Notes};
ghost use Rattle.lus_scopes.specs.Scopes.{owner_view};

use crate::repeated::later;
use lus_scopes::least::Least;
use lus_scopes::scope::Owner;
use lus_tree::{ContractItem, Item, Named, Pos, What};
use name_table::NameTable;
use std::alloc::{AllocError, Global};

/// A label: the mode of which it is said, empty where there is none, its text, and where the
/// expression begins.
#[derive(Clone, Copy)]
pub(crate) struct Label<'a> {
    pub(crate) of: &'a str,
    pub(crate) text: &'a str,
    pub(crate) at: Pos,
}

/// Whether two labels are the same.
fn is_same(label: Label<'_>, other: Label<'_>) -> bool
    ensures { result ≡ same_tag (label_view label.entry) (label_view other.entry) }
{
    label.of == other.of && label.text == other.text
}

/// Notes a label and each of these that is the same, at the later of the two.
fn note_meets(least: &mut Least, label: Label<'_>, labels: &[Label<'_>])
    ensures { least_view least.new ≡ noted_all (least_view least.old)
        (meets same_tag (λ l. l.2) name_twice (label_view label.entry) (labels_view labels.now)) }
{
    for other in labels {
        let same = is_same(label, *other);
        least.note_if(same, What::NameTwice, later(label.at, other.at));
    }
}

/// Notes a label and each of those behind it that is the same. `seen` has the texts of those behind
/// it.
fn note_if_seen(least: &mut Least, seen: &NameTable, label: Label<'_>, behind: &[Label<'_>])
    requires { HasLabels seen.now (labels_view behind.now) }
    ensures { least_view least.new ≡ noted_all (least_view least.old)
        (meets same_tag (λ l. l.2) name_twice (label_view label.entry) (labels_view behind.now)) }
{
    if seen.has(label.text) {
        note_meets(least, label, behind);
    }
}

/// The label of that number.
fn label_at<'a>(labels: &[Label<'a>], number: usize) -> Label<'a>
    requires { number < length labels.now }
    ensures { result ≡ get_or labels.now number result }
{
    labels[number]
}

/// Notes the label of that number and each of those behind it that is the same. `seen` has the
/// texts of those behind it, and then its own.
fn note_label(
    alloc: Global,
    least: &mut Least,
    seen: &mut NameTable,
    labels: &[Label<'_>],
    number: usize,
) -> Result<(), AllocError>
    requires within { number < length labels.now }
    requires seen { HasLabels seen.now (labels_view (drop (suc number) labels.now)) }
    ensures noted { IfOk result (λ _. (o : Option Refused) → least_view least.old
        ≡ noted_all o (tags_from_last (labels_view (drop (suc number) labels.now)))
        → least_view least.new ≡ noted_all o (tags_from_last (labels_view (drop number labels.now)))) }
    ensures seen { IfOk result (λ _. HasLabels seen.new (labels_view (drop number labels.now))) }
{
    let label = label_at(labels, number);
    note_if_seen(least, seen, label, &labels[number + 1..]);
    seen.add(alloc, label.text)?;
    Ok(())
}

/// Notes the labels that stand twice, each two at the later place.
fn note_twice(alloc: Global, least: &mut Least, labels: &[Label<'_>]) -> Result<(), AllocError>
    ensures { IfOk result (λ _. Notes (least_view least.old) (least_view least.new)
        (tags_twice (labels_view labels.now))) }
{
    let mut seen = NameTable::new(alloc);
    let mut left = labels.len();
    while left > 0 {
        left -= 1;
        note_label(alloc, least, &mut seen, labels, left)?;
    }
    Ok(())
}

/// The labels, and behind them that of an expression.
#[tactic(auto, using(lus_scopes::proofs::Placed::begin_of))]
fn push_label<'a>(
    labels: &mut Vec<Label<'a>>,
    of: &'a str,
    named: &'a Named,
) -> Result<(), AllocError>
    ensures { IfOk result (λ _. LabelsOn labels.old.items labels.new.items (tag of.now (named_view named.now))) }
{
    if let Some(text) = &named.label {
        let label = Label {
            of,
            text: text.as_str(),
            at: named.value.from,
        };
        labels.push(label)?;
    }
    Ok(())
}

/// The labels, and behind them those of expressions.
fn push_labels<'a>(
    labels: &mut Vec<Label<'a>>,
    of: &'a str,
    all: &'a [Named],
) -> Result<(), AllocError>
    ensures { IfOk result
        (λ _. LabelsOn labels.old.items labels.new.items (flat_map (tag of.now) (map named_view all.now))) }
{
    for named in all {
        push_label(labels, of, named)?;
    }
    Ok(())
}

/// The labels, and behind them that of an assumption.
fn push_assumed<'a>(labels: &mut Vec<Label<'a>>, item: &'a ContractItem) -> Result<(), AllocError>
    ensures { IfOk result
        (λ _. LabelsOn labels.old.items labels.new.items (assume_tags (contract_item_view item.now))) }
{
    if let ContractItem::Assume(named) = item {
        push_label(labels, "", named)?;
    }
    Ok(())
}

/// Notes the labels of assumptions that stand twice.
fn assumptions_twice(
    alloc: Global,
    least: &mut Least,
    items: &[ContractItem],
) -> Result<(), AllocError>
    ensures { IfOk result (λ _. Notes (least_view least.old) (least_view least.new)
        (tags_twice (flat_map assume_tags (map contract_item_view items.now)))) }
{
    let mut labels = Vec::new(alloc);
    for item in items {
        push_assumed(&mut labels, item)?;
    }
    note_twice(alloc, least, &labels)
}

/// The labels, and behind them that of a guarantee.
fn push_guaranteed<'a>(
    labels: &mut Vec<Label<'a>>,
    item: &'a ContractItem,
) -> Result<(), AllocError>
    ensures { IfOk result
        (λ _. LabelsOn labels.old.items labels.new.items (guarantee_tags (contract_item_view item.now))) }
{
    if let ContractItem::Guarantee(named) = item {
        push_label(labels, "", named)?;
    }
    Ok(())
}

/// Notes the labels of guarantees that stand twice.
fn guarantees_twice(
    alloc: Global,
    least: &mut Least,
    items: &[ContractItem],
) -> Result<(), AllocError>
    ensures { IfOk result (λ _. Notes (least_view least.old) (least_view least.new)
        (tags_twice (flat_map guarantee_tags (map contract_item_view items.now)))) }
{
    let mut labels = Vec::new(alloc);
    for item in items {
        push_guaranteed(&mut labels, item)?;
    }
    note_twice(alloc, least, &labels)
}

/// The labels, and behind them those of what a mode ensures.
fn push_ensured<'a>(labels: &mut Vec<Label<'a>>, item: &'a ContractItem) -> Result<(), AllocError>
    ensures { IfOk result
        (λ _. LabelsOn labels.old.items labels.new.items (ensure_tags (contract_item_view item.now))) }
{
    if let ContractItem::Mode(mode, _, ensures_all) = item {
        push_labels(labels, mode.text.as_str(), ensures_all)?;
    }
    Ok(())
}

/// Notes the labels of what modes ensure that stand twice.
fn effects_twice(alloc: Global, least: &mut Least, items: &[ContractItem]) -> Result<(), AllocError>
    ensures { IfOk result (λ _. Notes (least_view least.old) (least_view least.new)
        (tags_twice (flat_map ensure_tags (map contract_item_view items.now)))) }
{
    let mut labels = Vec::new(alloc);
    for item in items {
        push_ensured(&mut labels, item)?;
    }
    note_twice(alloc, least, &labels)
}

/// The labels, and behind them that of a property.
fn push_property<'a>(labels: &mut Vec<Label<'a>>, item: &'a Item) -> Result<(), AllocError>
    ensures { IfOk result (λ _. LabelsOn labels.old.items labels.new.items (property_tags (item_view item.now))) }
{
    if let Item::Property(named) = item {
        push_label(labels, "", named)?;
    }
    Ok(())
}

/// Notes the labels of properties that stand twice.
fn properties_twice(alloc: Global, least: &mut Least, items: &[Item]) -> Result<(), AllocError>
    ensures { IfOk result (λ _. Notes (least_view least.old) (least_view least.new)
        (tags_twice (flat_map property_tags (map item_view items.now)))) }
{
    let mut labels = Vec::new(alloc);
    for item in items {
        push_property(&mut labels, item)?;
    }
    note_twice(alloc, least, &labels)
}

/// Notes the labels of a declaration that stand twice: among assumptions, among guarantees, among
/// what one mode ensures, and among properties.
///
/// # Errors
///
/// Want of memory.
pub(crate) fn labels_twice(
    alloc: Global,
    least: &mut Least,
    owner: Owner<'_>,
) -> Result<(), AllocError>
    ensures { IfOk result (λ _. Notes (least_view least.old) (least_view least.new)
        (labels_twice (owner_view owner.entry))) }
{
    assumptions_twice(alloc, least, owner.contract())?;
    guarantees_twice(alloc, least, owner.contract())?;
    effects_twice(alloc, least, owner.contract())?;
    properties_twice(alloc, least, owner.body())
}
