//! All that is evaluated at an instant of a declaration of a checked program.

ghost use Rattle.std.specs.Prelude.{◌≡◌, ◌<◌, IfOk, length, option_map, slice_get};
ghost use Rattle.lus_tree.specs.View.{program_view};
ghost use Rattle.lus_meaning.specs.ClockFaults.{components};
ghost use Rattle.lus_checked.specs.Program.{tree_of};
ghost use Rattle.evaluation_parts.specs.Framed.{orders_view};
ghost use Rattle.evaluation_parts.specs.PartViews.{parts_view};
ghost use Rattle.evaluation_parts.specs.Views.{all_view, declared_view};
ghost use Rattle.evaluation_turns.specs.Turned.{AreOrders, IsTurn, IsTurnByAll, OfDeclaration, turn_at};

use crate::sources::{all_declared, sources_of};
use evaluation_parts::frame::{Declared, Frame};
use evaluation_parts::part::Part;
use evaluation_parts::turn;
use lus_checked::Checked;
use lus_tree::Program;
use std::alloc::{AllocError, Global};
use sys_tables::tables::tables;

/// The orders of the equations of the declarations.
fn orders_of(alloc: Global, checked: &Checked) -> Result<Vec<&[u32]>, AllocError>
    ensures { IfOk result (λ v. AreOrders (tree_of checked.now) (orders_view v.items)) }
{
    let mut orders = Vec::new(alloc);
    for number in 0..checked.parts() {
        orders.push(checked.order(number))?;
    }
    Ok(orders)
}

/// The declaration of that place.
fn declared_at<'a, 't>(all: &'t [Declared<'a, 't>], place: usize) -> Option<&'t Declared<'a, 't>>
    ensures { option_map (λ d. declared_view d.now) result ≡ slice_get (all_view all.now) place }
{
    all.get(place)
}

/// All that is evaluated at an instant of the declaration of that place, by these orders.
fn turned<'a, 't>(
    alloc: Global,
    program: &'a Program,
    all: &'t [Declared<'a, 't>],
    orders: &[&[u32]],
    place: usize,
) -> Result<Vec<Part<'a>>, AllocError>
    ensures { IfOk result (λ v. parts_view v.items ≡ turn_at (program_view program.now) (all_view all.now)
        (orders_view orders.now) (length program.now.decls.items) place) }
{
    match declared_at(all, place) {
        Some(declared) => {
            let frame = Frame {
                program,
                all,
                depth: program.decls.len(),
                declared,
            };
            turn::in_turn(alloc, frame, orders, place)
        }
        None => Ok(Vec::new(alloc)),
    }
}

/// All that is evaluated at an instant of the declaration of that number, constants left out, in the order in which it
/// would come if nothing had to wait: the equations of each frame in their least order, with their imports and
/// calls, and then the conditions.
///
/// # Errors
///
/// Want of memory.
pub fn in_turn<'a>(
    alloc: Global,
    checked: &'a Checked,
    number: usize,
) -> Result<Vec<Part<'a>>, AllocError>
    requires { number < length (components (tree_of checked.now)) }
    ensures turn { IfOk result (λ v. OfDeclaration (tree_of checked.now) number (λ i. IsTurn i (parts_view v.items))) }
    ensures all { IfOk result (λ v. OfDeclaration (tree_of checked.now) number
        (λ i. IsTurnByAll i (parts_view v.items))) }
{
    let program = checked.program();
    let orders = orders_of(alloc, checked)?;
    let known = tables(alloc, program)?;
    let sources = sources_of(alloc, &known)?;
    let all = all_declared(alloc, &sources)?;
    let parts = turned(alloc, program, &all, &orders, number)?;
    Ok(parts)
}
