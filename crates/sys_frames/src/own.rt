//! What is said of a frame itself.

ghost use Rattle.std.specs.Prelude.{◌≡◌, ◌++◌, ◌∷◌, OnOk, map};
ghost use Rattle.sys_contracts.specs.Views.{items_view};
ghost use Rattle.sys_parts.specs.Parts.{part_view};
ghost use Rattle.sys_conditions.specs.Conditioned.{assert_conditions, at_first, memory_conditions, start_conditions};
ghost use Rattle.sys_tables.specs.Views.{table_view};
ghost use Rattle.sys_terms.specs.View.{term_view, terms_view};
ghost use Rattle.sys_texts.specs.Views.{sight_view};
ghost use Rattle.sys_frames.specs.Lists.{joined};
ghost use Rattle.sys_frames.specs.Streams.{streams_here};
ghost use Rattle.sys_frames.specs.Views.{lists_view};
ghost use Rattle.sys_frames.specs.Walked.{own_lists, so_far_first, so_far_next};

use crate::lists::Lists;
use crate::shapes::push_own_shapes;
use crate::streams::push_streams;
use std::alloc::{AllocError, Global};
use sys_conditions::assertions::push_assertions;
use sys_conditions::kept::{push_at_first, push_memories, push_starts, so_far_condition};
use sys_contracts::items::Items;
use sys_parts::formulas::flag;
use sys_parts::parts::Part;
use sys_tables::table::Table;
use sys_terms::Term;
use sys_texts::sight::Sight;

/// The formulas, and behind them that the assumptions were true so far.
fn push_so_far_first(formulas: &mut Vec<Term>, so_far: Option<u32>) -> Result<(), AllocError>
    ensures { OnOk result (terms_view formulas.new.items ≡ terms_view formulas.old.items ++ so_far_first so_far) }
{
    if let Some(number) = so_far {
        formulas.push(flag(number))?;
    }
    Ok(())
}

/// The formulas, and behind them what holds first of a frame's own variables.
fn push_first(
    formulas: &mut Vec<Term>,
    table: &Table<'_>,
    sight: &Sight<'_>,
    so_far: Option<u32>,
) -> Result<(), AllocError>
    ensures { OnOk result (terms_view formulas.new.items ≡ terms_view formulas.old.items
        ++ (at_first (sight_view sight.now) (table_view table.now).starts ++ so_far_first so_far)) }
{
    push_at_first(formulas, sight, &table.starts)?;
    push_so_far_first(formulas, so_far)
}

/// The formulas, and behind them where a frame is active, and what holds of its streams.
fn push_here(
    alloc: Global,
    formulas: &mut Vec<Term>,
    table: &Table<'_>,
    sight: &Sight<'_>,
    items: &Items<'_>,
    active: Term,
    given: &[Part],
) -> Result<(), AllocError>
    ensures { OnOk result (terms_view formulas.new.items ≡ terms_view formulas.old.items
        ++ term_view active ∷ streams_here (sight_view sight.now) (items_view items.now).modes
        (table_view table.now).streams (map part_view given.now)) }
{
    formulas.push(active)?;
    push_streams(alloc, formulas, sight, &items.modes, &table.streams, given)
}

/// The formulas, and behind them what holds of the variable that says whether the assumptions were true so far.
fn push_so_far_next(
    alloc: Global,
    formulas: &mut Vec<Term>,
    sight: &Sight<'_>,
    so_far: Option<u32>,
    assumes: &[Term],
) -> Result<(), AllocError>
    ensures { OnOk result (terms_view formulas.new.items ≡ terms_view formulas.old.items
        ++ so_far_next (sight_view sight.now) so_far (terms_view assumes.now)) }
{
    if let Some(number) = so_far {
        let condition = so_far_condition(alloc, sight, number, assumes)?;
        formulas.push(condition)?;
    }
    Ok(())
}

/// The formulas, and behind them what a frame keeps to the next state.
fn push_next(
    alloc: Global,
    formulas: &mut Vec<Term>,
    table: &Table<'_>,
    sight: &Sight<'_>,
    items: &Items<'_>,
    so_far: Option<u32>,
) -> Result<(), AllocError>
    ensures { OnOk result (terms_view formulas.new.items ≡ terms_view formulas.old.items
        ++ (memory_conditions (sight_view sight.now) (items_view items.now).modes (table_view table.now).memories
        ++ (start_conditions (sight_view sight.now) (table_view table.now).starts
        ++ so_far_next (sight_view sight.now) so_far (items_view items.now).assumes))) }
{
    push_memories(alloc, formulas, sight, &items.modes, &table.memories)?;
    push_starts(alloc, formulas, sight, &table.starts)?;
    push_so_far_next(alloc, formulas, sight, so_far, &items.assumes)
}

/// The formulas, and behind them what a frame's body asserts.
fn push_asserts(
    alloc: Global,
    formulas: &mut Vec<Term>,
    table: &Table<'_>,
    sight: &Sight<'_>,
    items: &Items<'_>,
) -> Result<(), AllocError>
    ensures { OnOk result (terms_view formulas.new.items ≡ terms_view formulas.old.items
        ++ assert_conditions (sight_view sight.now) (items_view items.now).modes
        (table_view table.now).component.body) }
{
    push_assertions(alloc, formulas, sight, &items.modes, table.owner.body())
}

/// The lists, and behind them what is said of a frame itself.
pub(crate) fn push_own(
    alloc: Global,
    lists: &mut Lists,
    table: &Table<'_>,
    sight: &Sight<'_>,
    items: &Items<'_>,
    so_far: Option<u32>,
    active: Term,
    given: &[Part],
) -> Result<(), AllocError>
    ensures { OnOk result (lists_view lists.new ≡ joined (lists_view lists.old)
        (own_lists (table_view table.now) (sight_view sight.now) (items_view items.now) so_far (term_view active)
        (map part_view given.now))) }
{
    push_own_shapes(&mut lists.shapes, table, sight, so_far)?;
    push_first(&mut lists.first, table, sight, so_far)?;
    push_here(alloc, &mut lists.here, table, sight, items, active, given)?;
    push_next(alloc, &mut lists.next, table, sight, items, so_far)?;
    push_asserts(alloc, &mut lists.asserts, table, sight, items)
}
