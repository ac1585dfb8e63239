//! What callers need of the declarations of a program, callees first.

ghost use Rattle.std.specs.Prelude.{◌≡◌, ◌<◌, false, true, get_or, min, None, Some, IfOk, is_some, length, map, MatchOption};
ghost use Rattle.lus_tree.specs.View.{word_view};
ghost use Rattle.lus_limits.specs.Calls.{call_view, called_of};
ghost use Rattle.lus_meaning.specs.Program.{all_sites};
ghost use Rattle.lus_limits.specs.Frames.{summary_by_items, ways_of};
ghost use Rattle.lus_limits.specs.SizeCuts.{cut_summary};
ghost use Rattle.lus_limits.specs.Needed.{AreNeedsBy, IsTried, all_known, callee_place, calls_known, held_count, is_known, link_at, sizes_at};
ghost use Rattle.lus_limits.specs.Summaries.{cut, summary_by};
ghost use Rattle.lus_limits.specs.Contracted.{summaries_seen, summary_seen};
ghost use Rattle.lus_streams.specs.Owner.{owner_view};
ghost use Rattle.name_table.specs.Names.{number_of};

use crate::calls::{Call, Way};
use crate::contract_size::SizeSummary;
use crate::frame_size::size_summary;
use crate::sites::calls_of;
use crate::summing::{Link, Summary, cut, summed};
use lus_streams::lookup::with_streams;
use lus_streams::owner::Owner;
use lus_streams::streams::streams_of;
use name_table::NameTable;
use std::alloc::{AllocError, Global};

/// What callers need of a declaration: its counts, and the sizes of its terms.
#[derive(Drop)]
pub(crate) struct Needs {
    pub(crate) counts: Summary,
    pub(crate) sizes: SizeSummary,
}

/// Whether that is known.
fn is_known(known: &[Option<Needs>], number: usize) -> bool
    ensures { result ≡ is_known known.now number }
{
    number < known.len() && known[number].is_some()
}

/// The number of a callee of which the needs are known.
#[tactic(auto, using(crate::proofs::Needed::unnamed_unknown))]
pub(crate) fn place(names: &NameTable, known: &[Option<Needs>], callee: &str) -> Option<usize>
    requires { length known.now ≡ length names.now }
    ensures { MatchOption result (is_known known.now (number_of names.now callee.now) ≡ false)
        (λ i. (i ≡ number_of names.now callee.now) × (is_known known.now i ≡ true)) }
{
    match names.number(callee) {
        Some(number) => {
            if is_known(known, number) {
                Some(number)
            } else {
                None
            }
        }
        None => None,
    }
}

/// How many outputs of a callee a call holds.
fn held(call: &Call<'_>, callee: Owner<'_>) -> usize
    ensures { result ≡ cut (held_count (call_view call.now) (length (owner_view callee.entry).outputs)) }
{
    match call.way {
        Way::Plain | Way::Import => 0,
        Way::Condition => least(call.defaults, callee.outputs().len()),
    }
}

/// The lesser of two numbers, cut.
fn least(left: usize, right: usize) -> usize
    ensures { result ≡ cut (min left right) }
{
    let least = if left < right { left } else { right };
    cut(least)
}

/// The needs with that number.
pub(crate) fn needs_at(known: &[Option<Needs>], number: usize) -> Option<&Needs>
    ensures { MatchOption result (is_known known.now number ≡ false)
        (λ d. (is_known known.now number ≡ true) × (get_or known.now number None ≡ Some d.now)) }
{
    if number < known.len() {
        known[number].as_ref()
    } else {
        None
    }
}

/// How a call is linked to what is known of its callee.
fn link(
    names: &NameTable,
    parts: &[Owner<'_>],
    known: &[Option<Needs>],
    call: &Call<'_>,
) -> Option<Link>
    requires known { length known.now ≡ length names.now }
    requires parts { length parts.now ≡ length names.now }
    ensures { MatchOption result (is_known known.now (callee_place names.now (call_view call.now)) ≡ false)
        (λ l. (is_known known.now (callee_place names.now (call_view call.now)) ≡ true)
        × (l ≡ link_at names.now (map owner_view parts.now) known.now (call_view call.now))) }
{
    let number = place(names, known, &call.callee.text)?;
    let needs = needs_at(known, number)?;
    Some(Link {
        way: call.way,
        held: held(call, parts[number]),
        callee: needs.counts,
    })
}

/// How all calls are linked, if what they call is known.
pub(crate) fn links(
    alloc: Global,
    names: &NameTable,
    parts: &[Owner<'_>],
    known: &[Option<Needs>],
    calls: &[Call<'_>],
) -> Result<Option<Vec<Link>>, AllocError>
    requires known { length known.now ≡ length names.now }
    requires parts { length parts.now ≡ length names.now }
    ensures { IfOk result (λ o. MatchOption o (all_known names.now known.now (map call_view calls.now) ≡ false)
        (λ v. (all_known names.now known.now (map call_view calls.now) ≡ true)
        × (v.items ≡ map (link_at names.now (map owner_view parts.now) known.now) (map call_view calls.now)))) }
{
    let mut links = Vec::new(alloc);
    for call in calls {
        match link(names, parts, known, call) {
            Some(link) => {
                links.push(link)?;
            }
            None => return Ok(None),
        }
    }
    Ok(Some(links))
}

/// The sizes of what is called, where it is known.
fn sizes<'s>(
    alloc: Global,
    names: &NameTable,
    known: &'s [Option<Needs>],
    calls: &[Call<'_>],
) -> Result<Vec<&'s SizeSummary>, AllocError>
    requires known { length known.now ≡ length names.now }
    requires all { all_known names.now known.now (map call_view calls.now) ≡ true }
    ensures { IfOk result (λ v. summaries_seen v.items ≡ map (sizes_at names.now known.now) (map call_view calls.now)) }
{
    let mut sizes = Vec::new(alloc);
    for call in calls {
        let number = place(names, known, &call.callee.text).unwrap();
        let needs = needs_at(known, number).unwrap();
        sizes.push(&needs.sizes)?;
    }
    Ok(sizes)
}

/// The sizes of the terms of a declaration with these calls, whose callees' are those.
#[tactic(auto, using(crate::proofs::Needed::ways_called))]
fn made_sizes(
    alloc: Global,
    owner: Owner<'_>,
    calls: &[Call<'_>],
    sizes: &[&SizeSummary],
) -> Result<SizeSummary, AllocError>
    requires { map call_view calls.now ≡ map called_of (all_sites (owner_view owner)) }
    ensures { IfOk result (λ s. summary_seen s ≡ cut_summary (summary_by_items
        (ways_of (owner_view owner.entry)) (summaries_seen sizes.now) (owner_view owner.entry))) }
{
    let streams = streams_of(alloc, owner)?;
    size_summary(alloc, with_streams(owner, &streams), calls, sizes)
}

/// The needs of a declaration with these calls, which are linked so.
fn made(
    alloc: Global,
    owner: Owner<'_>,
    calls: &[Call<'_>],
    links: &[Link],
    sizes: &[&SizeSummary],
) -> Result<Needs, AllocError>
    requires { map call_view calls.now ≡ map called_of (all_sites (owner_view owner)) }
    ensures counts { IfOk result (λ d. d.counts ≡ summary_by (owner_view owner.entry) links.now) }
    ensures sizes { IfOk result (λ d. summary_seen d.sizes ≡ cut_summary (summary_by_items
        (ways_of (owner_view owner.entry)) (summaries_seen sizes.now) (owner_view owner.entry))) }
{
    let counts = summed(alloc, owner, links)?;
    let sizes = made_sizes(alloc, owner, calls, sizes)?;
    Ok(Needs { counts, sizes })
}

/// The needs of a declaration of which all that it calls is known.
fn linked(
    alloc: Global,
    names: &NameTable,
    parts: &[Owner<'_>],
    known: &[Option<Needs>],
    owner: Owner<'_>,
    calls: &[Call<'_>],
    links: &[Link],
) -> Result<Needs, AllocError>
    requires known { length known.now ≡ length names.now }
    requires called { map call_view calls.now ≡ map called_of (all_sites (owner_view owner)) }
    requires all { all_known names.now known.now (map call_view calls.now) ≡ true }
    requires linked { links.now ≡ map (link_at names.now (map owner_view parts.now) known.now)
        (map call_view calls.now) }
    ensures { IfOk result (λ d. AreNeedsBy names.now (map owner_view parts.now) known.now (owner_view owner.entry) d) }
{
    let _ = parts;
    let sizes = sizes(alloc, names, known, calls)?;
    let needs = made(alloc, owner, calls, links, &sizes)?;
    Ok(needs)
}

/// The needs of a declaration, if those of all that it calls are known.
#[tactic(auto, using(crate::proofs::Needed::same_known))]
fn needs_of(
    alloc: Global,
    names: &NameTable,
    parts: &[Owner<'_>],
    known: &[Option<Needs>],
    owner: Owner<'_>,
) -> Result<Option<Needs>, AllocError>
    requires known { length known.now ≡ length names.now }
    requires parts { length parts.now ≡ length names.now }
    ensures { IfOk result (λ o. MatchOption o (calls_known names.now known.now (owner_view owner.entry) ≡ false)
        (λ d. AreNeedsBy names.now (map owner_view parts.now) known.now (owner_view owner.entry) d)) }
{
    let calls = calls_of(alloc, owner)?;
    match links(alloc, names, parts, known, &calls)? {
        Some(links) => {
            let needs = linked(alloc, names, parts, known, owner, &calls, &links)?;
            Ok(Some(needs))
        }
        None => Ok(None),
    }
}

/// Notes the needs of the declaration with that number, where they are not known and those of all that it
/// calls are; and tells whether they are new.
pub(crate) fn try_one(
    alloc: Global,
    names: &NameTable,
    parts: &[Owner<'_>],
    known: &mut Vec<Option<Needs>>,
    number: usize,
) -> Result<bool, AllocError>
    requires below { number < length parts.now }
    requires known { length known.old.items ≡ length names.now }
    requires parts { length parts.now ≡ length names.now }
    ensures { IfOk result (λ b. IsTried names.now (map owner_view parts.now) known.old.items known.new.items number b) }
{
    if is_known(known, number) {
        return Ok(false);
    }
    match needs_of(alloc, names, parts, known, parts[number])? {
        Some(needs) => {
            known[number] = Some(needs);
            Ok(true)
        }
        None => Ok(false),
    }
}
