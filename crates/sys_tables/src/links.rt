//! The calls and imports of a declaration, and what is known of what they name.

ghost use Rattle.std.specs.Prelude.{◌≡◌, ◌++◌, ◌∷◌, [], IfOk, OnOk, get_or, length, map};
ghost use Rattle.lus_tree.specs.View.{expr_view, param_view};
ghost use Rattle.lus_meaning.specs.Program.{all_sites};
ghost use Rattle.lus_meaning.specs.Scene.{no_component};
ghost use Rattle.lus_streams.specs.Names.{names_view};
ghost use Rattle.lus_streams.specs.Owner.{owner_view};
ghost use Rattle.name_table.specs.Names.{number_of};
ghost use Rattle.sys_parts.specs.Constants.{constant_view};
ghost use Rattle.sys_occurrences.specs.Views.{site_view};
ghost use Rattle.sys_tables.specs.Known.{IsBare, values_seen};
ghost use Rattle.sys_tables.specs.Made.{all_linked_by, linked_by};
ghost use Rattle.sys_tables.specs.Tabled.{small_value};
ghost use Rattle.sys_tables.specs.Views.{linked_view};

use crate::constants::{Known, value};
use crate::order::in_order;
use crate::table::Linked;
use lus_layouts::CallSlots;
use lus_streams::names::Names;
use lus_streams::owner::Owner;
use lus_tree::{Expr, Param};
use name_table::NameTable;
use std::alloc::{AllocError, Global};
use sys_occurrences::sites::{Site, sites};
use sys_parts::constant::Constant;

/// The calls and imports of a declaration, in the order of their numbers.
#[tactic(auto, using(crate::proofs::Ordered::sites_ordered))]
pub(crate) fn sites_of<'a>(alloc: Global, names: Names<'a, '_>) -> Result<Vec<Site<'a>>, AllocError>
    ensures { IfOk result (λ v. map site_view v.items ≡ all_sites (names_view names.entry)) }
{
    let found = sites(alloc, names)?;
    in_order(alloc, &found)
}

/// The place of the declaration of that name; past the last one where there is none.
#[tactic(auto, using(crate::proofs::Once::not_there))]
fn place_of(names: &NameTable, name: &str) -> usize
    ensures { result ≡ number_of names.now name.now }
{
    match names.number(name) {
        Some(place) => place,
        None => names.len(),
    }
}

/// How many inputs the declaration of that place has.
fn inputs_at(parts: &[Owner<'_>], place: usize) -> usize
    ensures { result ≡ length (get_or (map owner_view parts.now) place no_component).inputs }
{
    if place < parts.len() {
        parts[place].inputs().len()
    } else {
        0
    }
}

/// The outputs of the declaration of that place.
fn outputs_at<'a>(parts: &[Owner<'a>], place: usize) -> &'a [Param]
    ensures { map param_view result.now ≡ (get_or (map owner_view parts.now) place no_component).outputs }
{
    if place < parts.len() {
        parts[place].outputs()
    } else {
        &[]
    }
}

/// The values of constant expressions.
fn values_of(
    alloc: Global,
    known: &Known<'_>,
    expressions: &[Expr],
) -> Result<Vec<Constant>, AllocError>
    requires { IsBare known.now }
    ensures { IfOk result (λ v. map constant_view v.items
        ≡ map (small_value (values_seen known.now)) (map expr_view expressions.now)) }
{
    let mut values = Vec::with_capacity(alloc, expressions.len())?;
    for expression in expressions {
        values.push(value(alloc, known, expression)?)?;
    }
    Ok(values)
}

/// A call, and what is known of what it names.
fn linked<'a>(
    alloc: Global,
    names: &NameTable,
    parts: &[Owner<'a>],
    known: &Known<'a>,
    site: &Site<'a>,
    slots: CallSlots,
) -> Result<Linked<'a>, AllocError>
    requires { IsBare known.now }
    ensures { IfOk result (λ l. linked_view l ≡ linked_by names.now (map owner_view parts.now) (values_seen known.now)
        (site_view site.now) slots) }
{
    let place = place_of(names, site.callee);
    Ok(Linked {
        site: *site,
        place,
        inputs: inputs_at(parts, place),
        outputs: outputs_at(parts, place),
        defaults: values_of(alloc, known, site.defaults)?,
        slots,
    })
}

/// Calls, each with where it stands, and what is known of what they name.
pub(crate) fn all_linked<'a>(
    alloc: Global,
    names: &NameTable,
    parts: &[Owner<'a>],
    known: &Known<'a>,
    sites: &[Site<'a>],
    slots: &[CallSlots],
) -> Result<Vec<Linked<'a>>, AllocError>
    requires { IsBare known.now }
    ensures { IfOk result (λ v. map linked_view v.items
        ≡ all_linked_by names.now (map owner_view parts.now) (values_seen known.now) (map site_view sites.now)
        slots.now) }
{
    let mut calls = Vec::new(alloc);
    for place in 0..sites.len().min(slots.len()) {
        let site = &sites[place];
        calls.push(linked(alloc, names, parts, known, site, slots[place])?)?;
    }
    Ok(calls)
}
