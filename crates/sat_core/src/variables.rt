ghost use Rattle.std.specs.Prelude.{◌≡◌, ◌++◌, ◌∷◌, ◌+◌, ◌<◌, ◌^◌, [], OnOk, OnErr, IfOk, IsTrue, true, map, length, List};
ghost use Rattle.proof_steps.specs.View.{clause_view, atom_view};
ghost use Rattle.proof_steps.specs.declared.Literal.{Literal as SignedLiteral};
ghost use Rattle.sat_core.specs.Shown.{plain as plain_of, with_literal, with_clause, with_clauses, flags_from, atoms_from};
ghost use Rattle.sat_core.specs.Variables.{Extends};
ghost use Rattle.sat_core.specs.Watching.{CanWatch, IsWatching, IsEntered, IsUnmoved};
ghost use Rattle.proof_checker.specs.Derived.{has};

use crate::keeping::keep;
use crate::order::Order;
use crate::set::same;
use crate::store::ClauseStore;
use crate::watches::Watches;
use kind_num::Shape;
use proof_steps::{Atom, Clause, Literal};
use std::alloc::{AllocError, Global};

/// The flag or atom, as it stands where true.
fn plain(literal: Literal) -> Literal
    ensures { result ≡ plain_of literal }
{
    match literal {
        Literal::Flag(number, _) => Literal::Flag(number, true),
        Literal::Atom(number, _) => Literal::Atom(number, true),
    }
}

fn listed(literals: &[Literal], literal: Literal) -> bool
    ensures { result ≡ has literals.now literal }
{
    for member in literals {
        if same(*member, literal) {
            return true;
        }
    }
    false
}

/// Whether the literal stands at the place.
fn is_at(variables: &[Literal], at: usize, literal: Literal) -> bool
    ensures { IsTrue result → has variables.now literal ≡ true }
{
    if at < variables.len() {
        same(variables[at], literal)
    } else {
        false
    }
}

/// Whether the list has the literal; where its place is known, no other is asked.
fn is_known(variables: &[Literal], order: &Order, literal: Literal) -> bool
    ensures { result ≡ has variables.now literal }
{
    if let Some(at) = order.slot(literal) {
        if is_at(variables, at, literal) {
            return true;
        }
    }
    listed(variables, literal)
}

fn extend_by(
    variables: &mut Vec<Literal>,
    order: &Order,
    literal: Literal,
) -> Result<(), AllocError>
    ensures ok { OnOk result (variables.new.items ≡ with_literal variables.old.items literal) }
    ensures extends { Extends variables.old.items variables.new.items }
{
    if is_known(variables, order, plain(literal)) {
        return Ok(());
    }
    variables.push(plain(literal))?;
    Ok(())
}

/// Takes in the variables of a clause; on an error it has done so in part.
fn extend(variables: &mut Vec<Literal>, order: &Order, clause: &[Literal]) -> Result<(), AllocError>
    ensures ok { OnOk result (variables.new.items ≡ with_clause variables.old.items clause.now) }
    ensures extends { Extends variables.old.items variables.new.items }
{
    for literal in clause {
        extend_by(variables, order, *literal)?;
    }
    Ok(())
}

/// Two different literals of a clause, the first and the last that differs from it.
fn two_of(clause: &[Literal]) -> Option<(Literal, Literal)>
    ensures { CanWatch clause.now result }
{
    if clause.len() == 0 {
        return None;
    }
    let first = clause[0];
    let mut i = clause.len();
    while i > 1 {
        i -= 1;
        if !same(first, clause[i]) {
            return Some((first, clause[i]));
        }
    }
    None
}

/// Takes in a clause with its variables, and lets it watch these of its literals.
pub fn admit(
    alloc: Global,
    clauses: &mut ClauseStore,
    watches: &mut Watches,
    variables: &mut Vec<Literal>,
    order: &Order,
    clause: &Clause,
    watched: Option<(Literal, Literal)>,
) -> Result<(), AllocError>
    requires watching { IsWatching clauses.old watches.old }
    requires few { length clauses.old < 4294967295 }
    requires can_watch { CanWatch (clause_view clause.now) watched }
    ensures clauses { OnOk result (clauses.new
        ≡ clauses.old ++ clause_view clause.now ∷ []) }
    ensures variables { OnOk result (variables.new.items ≡ with_clause variables.old.items (clause_view clause.now)) }
    ensures watching { OnOk result (IsEntered watches.old watches.new (clause_view clause.now) watched) }
    ensures same_clauses { OnErr result (clauses.new ≡ clauses.old) }
    ensures same_variables { OnErr result (variables.new.items ≡ variables.old.items) }
    ensures same_watches { OnErr result (IsUnmoved watches.old watches.new) }
{
    let copy = clause.copied(alloc)?;
    let before = variables.len();
    match extend(variables, order, clause.literals.as_slice()) {
        Ok(()) => match keep(alloc, clauses, watches, copy, watched) {
            Ok(()) => Ok(()),
            Err(fault) => {
                variables.truncate(before);
                Err(fault)
            }
        },
        Err(fault) => {
            variables.truncate(before);
            Err(fault)
        }
    }
}

/// Takes in clauses with their variables.
pub fn admit_all(
    alloc: Global,
    clauses: &mut ClauseStore,
    watches: &mut Watches,
    variables: &mut Vec<Literal>,
    order: &Order,
    more: &[Clause],
) -> Result<(), AllocError>
    requires watching { IsWatching clauses.old watches.old }
    requires few { length clauses.old + length more.now < 2 ^ 32 }
    ensures clauses { OnOk result (clauses.new
        ≡ clauses.old ++ map clause_view more.now) }
    ensures variables { OnOk result
        (variables.new.items ≡ with_clauses variables.old.items (map clause_view more.now)) }
    ensures watching { OnOk result (IsWatching clauses.new watches.new) }
{
    for clause in more {
        let watched = two_of(clause.literals.as_slice());
        admit(alloc, clauses, watches, variables, order, clause, watched)?;
    }
    Ok(())
}

/// The flags among the variables of these shapes.
pub fn flags_of(alloc: Global, shapes: &[Shape]) -> Result<Vec<Literal>, AllocError>
    requires { length shapes.now < 2 ^ 32 }
    ensures { IfOk result (λ v. v.items ≡ flags_from 0 shapes.now) }
{
    let mut flags = Vec::new(alloc);
    for i in 0..shapes.len() {
        match shapes[i] {
            Shape::Flag => flags.push(Literal::Flag(i as u32, true))?,
            Shape::Number => {}
        }
    }
    Ok(flags)
}

/// Takes in the atoms.
pub fn add_atoms(variables: &mut Vec<Literal>, atoms: &[Atom]) -> Result<(), AllocError>
    requires { length atoms.now < 2 ^ 32 }
    ensures { OnOk result (variables.new.items ≡ variables.old.items ++ atoms_from 1 (map atom_view atoms.now)) }
{
    for i in 0..atoms.len() {
        variables.push(Literal::Atom(i as u32 + 1, true))?;
    }
    Ok(())
}
