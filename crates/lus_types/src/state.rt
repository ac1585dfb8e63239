//! State in functions.

ghost use Rattle.std.specs.Prelude.{◌≡◌, IfOk, flat_map, option_map};
ghost use Rattle.lus_tree.specs.Reason.{not_stateless};
ghost use Rattle.lus_tree.specs.View.{expr_view, node_view, program_view, word_view};
ghost use Rattle.lus_meaning.specs.Faults.{faults_at};
ghost use Rattle.lus_meaning.specs.NameFaults.{callee_has_state, state_faults, state_in};
ghost use Rattle.lus_meaning.specs.Occurrences.{gathered};
ghost use Rattle.lus_types.specs.Sides.{sides_view};
ghost use Rattle.lus_scopes.specs.Least.{least_view, noted_all};
ghost use Rattle.lus_scopes.specs.Scopes.{owner_view};
ghost use Rattle.lus_types.specs.States.{PlacesOn, callee_state, state_of};

use crate::parts::all_parts;
use lus_scopes::declarations::Declarations;
use lus_scopes::least::Least;
use lus_scopes::scope::Owner;
use lus_tree::{Expr, Form, Node, PlacedName, Pos, What};
use std::alloc::{AllocError, Global};

/// Whether a callee has state: a node, which is no function.
fn has_state(callee: Option<&Node>) -> bool
    ensures { result ≡ callee_has_state (option_map (λ n. node_view n.now) callee.entry) }
{
    match callee {
        Some(node) => !node.function,
        None => false,
    }
}

/// The places, and behind them that of a callee that has state.
fn push_callee(
    places: &mut Vec<Pos>,
    declarations: &Declarations<'_>,
    callee: &PlacedName,
) -> Result<(), AllocError>
    ensures { IfOk result (λ _. PlacesOn places.old.items places.new.items
        (callee_state (program_view declarations.now) (word_view callee.now))) }
{
    if has_state(declarations.node(&callee.text)) {
        places.push(callee.at)?;
    }
    Ok(())
}

/// The places, and behind them that where an expression itself has state.
#[tactic(auto, using(lus_tree::proofs::Views::form_views))]
fn push_state(
    places: &mut Vec<Pos>,
    declarations: &Declarations<'_>,
    e: &Expr,
) -> Result<(), AllocError>
    ensures { IfOk result (λ _. PlacesOn places.old.items places.new.items
        (state_of (program_view declarations.now) (expr_view e.now))) }
{
    match &e.form {
        Form::Pre(_, _) | Form::Arrow(_, _, _) | Form::Condact(_, _, _, _, _) => {
            places.push(e.at)?;
            Ok(())
        }
        Form::Call(_, callee, _) => push_callee(places, declarations, callee),
        Form::Truth(_)
        | Form::Number(_)
        | Form::Name(_)
        | Form::Not(_)
        | Form::Minus(_)
        | Form::Binary(_, _, _)
        | Form::If(_, _, _)
        | Form::When(_, _, _)
        | Form::Merge(_, _, _)
        | Form::ModeName(_, _) => Ok(()),
    }
}

/// Where these expressions have state, their parts left aside.
fn states_of(
    alloc: Global,
    declarations: &Declarations<'_>,
    all: &[&Expr],
) -> Result<Vec<Pos>, AllocError>
    ensures { IfOk result (λ v. v.items ≡ flat_map (state_of (program_view declarations.now)) (sides_view all.now)) }
{
    let mut places = Vec::new(alloc);
    for e in all {
        push_state(&mut places, declarations, e)?;
    }
    Ok(places)
}

/// Where a declaration has state.
fn places_of(
    alloc: Global,
    declarations: &Declarations<'_>,
    owner: Owner<'_>,
) -> Result<Vec<Pos>, AllocError>
    ensures { IfOk result (λ v. v.items
        ≡ gathered (state_in (program_view declarations.now)) (owner_view owner.entry)) }
{
    let all = all_parts(alloc, owner)?;
    states_of(alloc, declarations, &all)
}

/// Notes that there is state at these places.
fn note_places(least: &mut Least, places: &[Pos])
    ensures { least_view least.new ≡ noted_all (least_view least.old) (faults_at not_stateless places.now) }
{
    for place in places {
        least.note(What::NotStateless, *place);
    }
}

/// Notes the state of a function.
///
/// # Errors
///
/// Want of memory.
pub(crate) fn state(
    alloc: Global,
    declarations: &Declarations<'_>,
    least: &mut Least,
    owner: Owner<'_>,
) -> Result<(), AllocError>
    ensures { IfOk result (λ _. least_view least.new ≡ noted_all (least_view least.old)
        (state_faults (program_view declarations.now) (owner_view owner.entry))) }
{
    if owner.is_function() {
        let places = places_of(alloc, declarations, owner)?;
        note_places(least, &places);
    }
    Ok(())
}
