//! The faults of a contract and of a body, each place in its scope.

ghost use Rattle.std.specs.Prelude.{◌≡◌, ◌++◌, ◌∷◌, [], IfOk, List, length, map};
ghost use Rattle.lus_tree.specs.Tree.{Constant, ContractStatement};
ghost use Rattle.lus_tree.specs.View.{contract_item_view, definition_view};
ghost use Rattle.lus_meaning.specs.Program.{contract_statement_constants};
ghost use Rattle.lus_meaning.specs.Scene.{contract_statements};
ghost use Rattle.lus_meaning.specs.Scope.{body_scope, contract_statement_scope, scope_with};
ghost use Rattle.lus_meaning.specs.ExpressionFaults.{definition_faults};
ghost use Rattle.lus_meaning.specs.NameFaults.{assumption_faults, body_faults, contract_faults, contract_statement_faults, local_constant_faults};
ghost use Rattle.lus_types.specs.Before.{earlier, earlier_view, home_view, one_behind};
ghost use Rattle.lus_types.specs.Declarations.{inner_faults};
ghost use Rattle.lus_scopes.specs.Least.{least_view};
ghost use Rattle.lus_scopes.specs.Notes.{Notes};

use crate::before::{Before, body_scope, contract_scope};
use crate::home::Home;
use crate::reading::assumption;
use lus_scopes::bodies::{clocks, statements};
use lus_scopes::contracts::contract_item;
use lus_scopes::expression::definition;
use lus_scopes::least::Least;
use lus_tree::{ContractItem, Definition};
use std::alloc::{AllocError, Global};

/// Notes the faults of an item of a contract, and takes it to those before.
fn next_item<'a>(
    home: &Home<'_>,
    before: &mut Before<'a>,
    least: &mut Least,
    item: &'a ContractItem,
) -> Result<(), AllocError>
    ensures noted { IfOk result (λ _. (cs : List ContractStatement) → earlier_view before.old ≡ earlier cs []
        → Notes (least_view least.old) (least_view least.new)
        (contract_statement_faults (contract_statement_scope (home_view home.now) cs) (contract_item_view item.now))) }
    ensures before { IfOk result (λ _. earlier_view before.new ≡ one_behind (earlier_view before.old)
        (earlier (contract_item_view item.now ∷ []) [])) }
{
    contract_item(&contract_scope(before, home), least, item);
    before.push_item(item)
}

/// Notes the faults of the items of a contract, and takes them to those before.
fn next_items<'a>(
    home: &Home<'_>,
    before: &mut Before<'a>,
    least: &mut Least,
    items: &'a [ContractItem],
) -> Result<(), AllocError>
    requires { earlier_view before.old ≡ earlier [] [] }
    ensures noted { IfOk result (λ _. Notes (least_view least.old) (least_view least.new)
        (contract_faults (home_view home.now) [] (map contract_item_view items.now))) }
    ensures before { IfOk result (λ _. earlier_view before.new ≡ earlier (map contract_item_view items.now) []) }
{
    for item in items {
        next_item(home, before, least, item)?;
    }
    Ok(())
}

/// Notes the faults of a constant of a body, and takes it to those before.
fn next_constant<'a>(
    home: &Home<'_>,
    before: &mut Before<'a>,
    least: &mut Least,
    constant: &'a Definition,
) -> Result<(), AllocError>
    ensures noted { IfOk result (λ _. (cs : List ContractStatement) (ds : List Constant)
        → earlier_view before.old ≡ earlier cs ds → Notes (least_view least.old) (least_view least.new)
        (definition_faults (scope_with (home_view home.now) (length (contract_statement_constants cs ++ ds)) cs)
        (definition_view constant.now).sort (definition_view constant.now).value)) }
    ensures before { IfOk result (λ _. earlier_view before.new ≡ one_behind (earlier_view before.old)
        (earlier [] (definition_view constant.now ∷ []))) }
{
    definition(
        &body_scope(before, home),
        least,
        constant.sort,
        &constant.value,
    );
    before.push_constant(constant)
}

/// Notes the faults of the constants of a body, and takes them to those before.
fn constants<'a>(
    home: &Home<'_>,
    before: &mut Before<'a>,
    least: &mut Least,
    definitions: &'a [Definition],
) -> Result<(), AllocError>
    requires { earlier_view before.old ≡ earlier (contract_statements (home_view home.now).owner) [] }
    ensures noted { IfOk result (λ _. Notes (least_view least.old) (least_view least.new)
        (local_constant_faults (home_view home.now) 0 (map definition_view definitions.now))) }
    ensures before { IfOk result (λ _. earlier_view before.new
        ≡ earlier (contract_statements (home_view home.now).owner) (map definition_view definitions.now)) }
{
    for constant in definitions {
        next_constant(home, before, least, constant)?;
    }
    Ok(())
}

/// Notes the faults of a body, behind the contract, and those of what assumptions read.
fn body<'a>(
    alloc: Global,
    home: &Home<'a>,
    before: &mut Before<'a>,
    least: &mut Least,
) -> Result<(), AllocError>
    requires { earlier_view before.old ≡ earlier (contract_statements (home_view home.now).owner) [] }
    ensures { IfOk result (λ _. Notes (least_view least.old) (least_view least.new)
        (body_faults (home_view home.now) ++ assumption_faults (body_scope (home_view home.now)))) }
{
    constants(home, before, least, home.owner.constants())?;
    let scope = body_scope(before, home);
    clocks(&scope, least, home.owner.locals());
    statements(&scope, least, home.owner.body());
    assumption(alloc, &scope, least)?;
    Ok(())
}

/// Notes the faults of the contract and of the body of a declaration, and of what its assumptions
/// read.
///
/// # Errors
///
/// Want of memory.
pub(crate) fn contract_and_body(
    alloc: Global,
    home: &Home<'_>,
    least: &mut Least,
) -> Result<(), AllocError>
    ensures { IfOk result (λ _. Notes (least_view least.old) (least_view least.new)
        (inner_faults (home_view home.now))) }
{
    let mut before = Before::new(alloc);
    next_items(home, &mut before, least, home.owner.contract())?;
    body(alloc, home, &mut before, least)?;
    Ok(())
}
