//! What a trace lists of a declaration's frames.

ghost use Rattle.std.specs.Prelude.{◌≡◌, ◌++◌, ◌∷◌, ◌<◌, ◌^◌, [], IfOk, OnOk, is_none, map, not};
ghost use Rattle.std.specs.Option.{option_or};
ghost use Rattle.lus_tree.specs.Tree.{Name};
ghost use Rattle.lus_tree.specs.View.{decl_view, program_view};
ghost use Rattle.lus_meaning.specs.ClockFaults.{components};
ghost use Rattle.lus_meaning.specs.Scene.{no_component};
ghost use Rattle.lus_streams.specs.Owner.{owner_view};
ghost use Rattle.path_traces.specs.Indexed.{IsIndex, by_name, place_from};
ghost use Rattle.path_traces.specs.Plans.{plan_names, plan_of, plan_view};

use crate::free::free_of;
use crate::index::note;
use crate::names::{Names, names_of, no_names};
use crate::numbers::{Kind, count_of};
use indexmap::IndexMap;
use lus_limits::{Call, calls_of};
use lus_streams::owner::Owner;
use lus_tree::{Decl, Param, Program};
use std::alloc::{AllocError, Global};

/// What a trace lists of a declaration's frames, and what their variables are counted by: its name and streams, those
/// that no equation defines, its outputs, how many `pre` and `->` it has, whether a contract, and its calls and imports
/// by number.
#[derive(Drop)]
pub(crate) struct Plan<'a> {
    pub(crate) name: &'a str,
    pub(crate) names: Names<'a>,
    pub(crate) free: Vec<&'a Param>,
    pub(crate) outputs: &'a [Param],
    pub(crate) memories: usize,
    pub(crate) starts: usize,
    pub(crate) contract: bool,
    pub(crate) calls: Vec<Call<'a>>,
}

/// Whether a declaration has a contract.
pub(crate) fn has_contract(owner: Owner<'_>) -> bool
    ensures { result ≡ not (is_none (owner_view owner.entry).contract) }
{
    match owner {
        Owner::Node(node) => node.contract.is_some(),
        Owner::Contract(_) => true,
    }
}

/// The plan of a declaration.
pub(crate) fn plan_of(alloc: Global, owner: Owner<'_>) -> Result<Plan<'_>, AllocError>
    ensures { IfOk result (λ p. plan_view p ≡ plan_of (owner_view owner.entry)) }
{
    let memories = count_of(alloc, Kind::Pre, owner)?;
    let starts = count_of(alloc, Kind::Arrow, owner)?;
    let calls = calls_of(alloc, owner)?;
    let free = free_of(alloc, owner)?;
    let names = names_of(alloc, owner)?;
    Ok(Plan {
        name: owner.name(),
        names,
        free,
        outputs: owner.outputs(),
        memories,
        starts,
        contract: has_contract(owner),
        calls,
    })
}

/// The plan of what isn't there.
pub(crate) fn no_plan(alloc: Global) -> Plan<'static>
    ensures { plan_view result ≡ plan_of no_component }
{
    Plan {
        name: "",
        names: no_names(alloc),
        free: Vec::new(alloc),
        outputs: &[],
        memories: 0,
        starts: 0,
        contract: false,
        calls: Vec::new(alloc),
    }
}

/// The plans, and behind them that of a declaration with streams.
fn push_plan<'a>(plans: &mut Vec<Plan<'a>>, alloc: Global, decl: &'a Decl) -> Result<(), AllocError>
    ensures { OnOk result (map plan_view plans.new.items ≡ map plan_view plans.old.items
        ++ map plan_of (components (decl_view decl.now ∷ []))) }
{
    match decl {
        Decl::Constant(_) => {}
        Decl::Node(node) => {
            plans.push(plan_of(alloc, Owner::Node(node))?)?;
        }
        Decl::Contract(contract) => {
            plans.push(plan_of(alloc, Owner::Contract(contract))?)?;
        }
    }
    Ok(())
}

/// The plans of a program's declarations with streams, in text order.
pub(crate) fn plans_of(alloc: Global, program: &Program) -> Result<Vec<Plan<'_>>, AllocError>
    ensures { IfOk result (λ v. map plan_view v.items ≡ map plan_of (components (program_view program.now))) }
{
    let mut plans = Vec::new(alloc);
    for decl in &program.decls {
        push_plan(&mut plans, alloc, decl)?;
    }
    Ok(plans)
}

/// Notes the place of the first plan of each name.
fn note_all<'a>(places: &mut IndexMap<&'a str, usize>, plans: &[Plan<'a>]) -> Result<(), AllocError>
    ensures { OnOk result ((x : Name) → by_name places.new x
        ≡ option_or (by_name places.old x) (place_from 0 (plan_names (map plan_view plans.now)) x)) }
{
    let mut place = 0;
    for plan in plans {
        note(places, plan.name, place)?;
        place += 1;
    }
    Ok(())
}

/// The place of the first plan of each name.
pub(crate) fn index_of<'a>(
    alloc: Global,
    plans: &[Plan<'a>],
) -> Result<IndexMap<&'a str, usize>, AllocError>
    ensures { IfOk result (λ m. IsIndex m (plan_names (map plan_view plans.now))) }
{
    let mut places = IndexMap::new(alloc);
    note_all(&mut places, plans)?;
    Ok(places)
}
