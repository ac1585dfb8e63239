//! What a walk over the frames of a node looks up.

ghost use Rattle.std.specs.Prelude.{◌≡◌, ◌≢◌, ◌<◌, ◌^◌, [], IfOk, length, map};
ghost use Rattle.lus_tree.specs.View.{program_view};
ghost use Rattle.lus_meaning.specs.ClockFaults.{components};
ghost use Rattle.lus_meaning.specs.Scene.{no_component};
ghost use Rattle.path_traces.specs.Indexed.{IsIndex};
ghost use Rattle.path_traces.specs.Plans.{plan_named, plan_names, plan_of, plan_view};

use crate::index::place_or;
use crate::plan::{Plan, index_of, no_plan, plans_of};
use indexmap::IndexMap;
use lus_tree::Program;
use std::alloc::{AllocError, Global};

/// The plans of a program's declarations, the place of the first of each name, and the plan of what isn't there.
#[derive(Drop)]
pub(crate) struct Tables<'a> {
    pub(crate) plans: Vec<Plan<'a>>,
    places: IndexMap<&'a str, usize>,
    none: Plan<'a>,
    ghost missing: { plan_view none ≡ plan_of no_component },
    ghost indexed: { IsIndex places (plan_names (map plan_view plans.items)) },
}

/// The tables of a program.
pub(crate) fn tables_of(alloc: Global, program: &Program) -> Result<Tables<'_>, AllocError>
    ensures { IfOk result (λ t. map plan_view t.plans.items ≡ map plan_of (components (program_view program.now))) }
{
    let plans = plans_of(alloc, program)?;
    let places = index_of(alloc, &plans)?;
    Ok(Tables {
        plans,
        places,
        none: no_plan(alloc),
    })
}

/// The first plan of that name, else that of what isn't there.
pub(crate) fn plan_named<'a, 's>(tables: &'s Tables<'a>, name: &str) -> &'s Plan<'a>
    ensures { plan_view result.now ≡ plan_named (map plan_view tables.now.plans.items) name.now }
{
    let place = place_or(&tables.places, name, tables.plans.len());
    if let Some(plan) = tables.plans.get(place) {
        return plan;
    }
    &tables.none
}
