//! The sizes of the terms of a declaration's frame.

ghost use Rattle.std.specs.Prelude.{◌≡◌, ◌++◌, ◌∷◌, [], IfOk, map};
ghost use Rattle.lus_tree.specs.View.{contract_item_view, param_view};
ghost use Rattle.lus_meaning.specs.Depends.{left_names};
ghost use Rattle.lus_meaning.specs.Scene.{ghosts, variables};
ghost use Rattle.lus_limits.specs.Contracted.{contract_seen, summaries_seen, summary_seen};
ghost use Rattle.lus_limits.specs.Frames.{frame_at, frames_of, own_known, summary_by_items};
ghost use Rattle.lus_limits.specs.Known.{HasThese};
ghost use Rattle.lus_limits.specs.Measured.{modes_view, size_view};
ghost use Rattle.lus_limits.specs.OwnTerms.{free_terms, own_terms};
ghost use Rattle.lus_limits.specs.Peaks.{greater, peak};
ghost use Rattle.lus_limits.specs.SizeCuts.{cut_peaks, cut_summary, cut_term};
ghost use Rattle.lus_limits.specs.SizeSummaries.{all_given, contract_by, inputs_given, sofar_by};
ghost use Rattle.lus_streams.specs.Names.{names_view};
ghost use Rattle.lus_streams.specs.Owner.{owner_view};

use crate::calls::{Call, Way};
use crate::contract_size::{ContractSize, SizeSummary, contract_size};
use crate::known::{known_when_called, known_when_imported};
use crate::measuring::Scope;
use crate::own::{all_contract_terms, body_terms, constant_terms, free_term, free_terms};
use crate::part::has_contract;
use crate::term_size::{Size, cut, greater, leaf, no_size, one, two};
use lus_streams::names::Names;
use lus_streams::owner::Owner;
use lus_tree::ContractItem;
use name_table::NameTable;
use std::alloc::{AllocError, Global};

/// Of a callee's frame, as the call runs it.
fn frame_at(call: &Call<'_>, link: &SizeSummary) -> Size
    ensures { size_view result ≡ frame_at call.now.way (summary_seen link.now) }
{
    match call.way {
        Way::Import => link.imported,
        Way::Plain | Way::Condition => link.called,
    }
}

/// The greatest of the callees' frames, by the numbers of the calls.
#[tactic(auto, using(crate::proofs::Greatest::greatest_on, crate::proofs::Greatest::greatest_cut, crate::proofs::Greatest::greatest_end))]
fn frames(calls: &[Call<'_>], links: &[&SizeSummary]) -> Size
    ensures { size_view result ≡ cut_term (frames_of (map (λ c. c.way) calls.now) (summaries_seen links.now)) }
{
    let mut size = no_size();
    let mut i = 0;
    while i < calls.len() && i < links.len() {
        size = greater(size, cut(frame_at(&calls[i], links[i])));
        i += 1;
    }
    size
}

/// Of whether all assumptions were true so far, where there is a contract.
fn sofar_terms(owner: Owner<'_>, whole: Size) -> Size
    ensures { size_view result ≡ cut_term (peak (sofar_by (owner_view owner.entry).contract (size_view whole))) }
{
    if has_contract(owner) {
        two(leaf(), two(leaf(), one(two(leaf(), one(whole)))))
    } else {
        no_size()
    }
}

/// Of a ghost variable that is not among these names.
fn free_ghost<'a>(known: &NameTable, names: Names<'a, '_>, item: &'a ContractItem) -> Size
    ensures { size_view result ≡ cut_term (free_terms known.now (names_view names.entry)
        (ghosts (contract_item_view item.now ∷ []))) }
{
    match item {
        ContractItem::Ghost(stream, _) => free_term(known, names, stream),
        ContractItem::Assume(_)
        | ContractItem::Guarantee(_)
        | ContractItem::Constant(_)
        | ContractItem::Mode(_, _, _)
        | ContractItem::Import(_, _, _, _) => no_size(),
    }
}

/// Of the ghost variables that are not among these names.
#[tactic(auto, using(crate::proofs::Greatest::greatest_on, crate::proofs::Greatest::greatest_cut, crate::proofs::Greatest::greatest_end, crate::proofs::Frames::free_ghosts))]
fn free_ghosts<'a>(known: &NameTable, names: Names<'a, '_>, items: &'a [ContractItem]) -> Size
    ensures { size_view result ≡ cut_term (free_terms known.now (names_view names.entry)
        (ghosts (map contract_item_view items.now))) }
{
    let mut size = no_size();
    for item in items {
        size = greater(size, free_ghost(known, names, item));
    }
    size
}

/// Of all streams that are not among these names.
fn all_free<'a>(known: &NameTable, names: Names<'a, '_>) -> Size
    ensures { size_view result ≡ cut_term (free_terms known.now (names_view names.entry)
        (variables (names_view names.entry))) }
{
    let ghosts = free_ghosts(known, names, names.owner.contract());
    let locals = free_terms(known, names, names.owner.locals());
    let outputs = free_terms(known, names, names.owner.outputs());
    let inputs = free_terms(known, names, names.owner.inputs());
    greater(inputs, greater(outputs, greater(locals, ghosts)))
}

/// Of a declaration's own terms and of what stands for its calls, where these names are given.
#[tactic(auto, using(crate::proofs::Frames::own_by_parts))]
fn own_terms<'a>(names: Names<'a, '_>, contract: &ContractSize, known: &NameTable) -> Size
    ensures { size_view result ≡ cut_term (own_known known.now (names_view names.entry) (contract_seen contract.now)) }
{
    let scope = Scope {
        names,
        modes: &contract.modes,
    };
    let contract_terms = all_contract_terms(&scope, names.owner.contract());
    let constants = constant_terms(&scope, names.owner.constants());
    let body = body_terms(&scope, names.owner.body());
    let free = all_free(known, names);
    let sofar = sofar_terms(names.owner, contract.assumed.whole);
    greater(
        contract_terms,
        greater(constants, greater(body, greater(free, sofar))),
    )
}

/// Of a declaration's frame where the caller gives the inputs, with the greatest of the callees' frames.
fn called_size<'a>(
    alloc: Global,
    names: Names<'a, '_>,
    contract: &ContractSize,
    callees: Size,
) -> Result<Size, AllocError>
    ensures { IfOk result (λ s. size_view s ≡ greater (cut_term (own_terms (inputs_given (names_view names.entry))
        (names_view names.entry) (contract_seen contract.now))) (size_view callees)) }
{
    let known = known_when_called(alloc, names.owner)?;
    let own = own_terms(names, contract, &known);
    Ok(greater(own, callees))
}

/// The same where the caller gives the outputs too.
fn imported_size<'a>(
    alloc: Global,
    names: Names<'a, '_>,
    contract: &ContractSize,
    callees: Size,
) -> Result<Size, AllocError>
    ensures { IfOk result (λ s. size_view s ≡ greater (cut_term (own_terms (all_given (names_view names.entry))
        (names_view names.entry) (contract_seen contract.now))) (size_view callees)) }
{
    let known = known_when_imported(alloc, names.owner)?;
    let own = own_terms(names, contract, &known);
    Ok(greater(own, callees))
}

/// What callers need of the sizes of a declaration's terms, by its calls and the summaries of what
/// they name, by number.
///
/// # Errors
///
/// Want of memory.
pub(crate) fn size_summary<'a>(
    alloc: Global,
    names: Names<'a, '_>,
    calls: &[Call<'_>],
    links: &[&SizeSummary],
) -> Result<SizeSummary, AllocError>
    ensures { IfOk result (λ z. summary_seen z ≡ cut_summary (summary_by_items (map (λ c. c.way) calls.now)
        (summaries_seen links.now) (names_view names.entry))) }
{
    let contract = contract_size(alloc, names, names.owner.contract(), links)?;
    let callees = frames(calls, links);
    let called = called_size(alloc, names, &contract, callees)?;
    let imported = imported_size(alloc, names, &contract, callees)?;
    Ok(SizeSummary {
        contract,
        called,
        imported,
    })
}
