//! The names of a declaration, in text order.

ghost use Rattle.std.specs.Prelude.{◌≡◌, ◌≤◌, ◌++◌, ◌∷◌, [], IfOk, drop, length, map, flat_map, take, take_while};
ghost use Rattle.lus_tree.specs.View.{contract_item_view, definition_view, param_view};
ghost use Rattle.lus_meaning.specs.Scene.{contract_statements};
ghost use Rattle.lus_meaning.specs.Scope.{a_fixed, a_local, a_stream, contract_statement_names, declared_in, interleaved, is_before, word_of};
ghost use Rattle.lus_scopes.specs.Scopes.{owner_view, role_view};
ghost use Rattle.lus_types.specs.Homes.{declared_view};

use crate::naming::Declared;
use lus_scopes::least::is_before;
use lus_scopes::scope::{Owner, Role};
use lus_tree::{ContractItem, Definition, Param, Pos};
use std::alloc::{AllocError, Global};

/// The names, and behind them those of streams of one kind.
fn push_streams<'a>(
    names: &mut Vec<Declared<'a>>,
    role: Role,
    params: &'a [Param],
) -> Result<(), AllocError>
    ensures { IfOk result (λ _. map declared_view names.new.items ≡ map declared_view names.old.items
        ++ map (a_stream (role_view role)) (map param_view params.now)) }
{
    for param in params {
        names.push(Declared::Stream(role, param))?;
    }
    Ok(())
}

/// The names, and behind them those that an item of a contract declares.
fn push_contract_item<'a>(
    names: &mut Vec<Declared<'a>>,
    item: &'a ContractItem,
) -> Result<(), AllocError>
    ensures { IfOk result (λ _. map declared_view names.new.items ≡ map declared_view names.old.items
        ++ contract_statement_names (contract_item_view item.now)) }
{
    match item {
        ContractItem::Ghost(param, _) => {
            names.push(Declared::Stream(Role::Ghost, param))?;
            Ok(())
        }
        ContractItem::Constant(definition) => {
            names.push(Declared::Fixed(definition))?;
            Ok(())
        }
        ContractItem::Assume(_)
        | ContractItem::Guarantee(_)
        | ContractItem::Mode(_, _, _)
        | ContractItem::Import(_, _, _, _) => Ok(()),
    }
}

/// The names, and behind them those that a contract declares.
fn push_contract<'a>(
    names: &mut Vec<Declared<'a>>,
    items: &'a [ContractItem],
) -> Result<(), AllocError>
    ensures { IfOk result (λ _. map declared_view names.new.items ≡ map declared_view names.old.items
        ++ flat_map contract_statement_names (map contract_item_view items.now)) }
{
    for item in items {
        push_contract_item(names, item)?;
    }
    Ok(())
}

/// The names, and behind them constants.
fn push_constants<'a>(
    names: &mut Vec<Declared<'a>>,
    definitions: &'a [Definition],
) -> Result<(), AllocError>
    ensures { IfOk result (λ _. map declared_view names.new.items ≡ map declared_view names.old.items
        ++ map a_fixed (map definition_view definitions.now)) }
{
    for definition in definitions {
        names.push(Declared::Fixed(definition))?;
    }
    Ok(())
}

/// How many of the first constants stand before a place.
fn count_before(definitions: &[Definition], at: Pos) -> usize
    ensures count { result ≡ length (take_while (λ x. is_before (word_of x).at at)
        (map a_fixed (map definition_view definitions.now))) }
    ensures fits { result ≤ length definitions.now }
{
    let mut count = 0;
    for definition in definitions {
        if !is_before(definition.name.at, at) {
            return count;
        }
        count += 1;
    }
    count
}

/// The names, and behind them so many constants and a local. Gives the constants that are left.
#[tactic(auto, using(crate::proofs::Interleaved::taken_twice, crate::proofs::Interleaved::dropped_twice))]
fn push_local<'a>(
    names: &mut Vec<Declared<'a>>,
    definitions: &'a [Definition],
    count: usize,
    param: &'a Param,
) -> Result<&'a [Definition], AllocError>
    requires { count ≤ length definitions.now }
    ensures local { IfOk result (λ rest. map declared_view names.new.items ≡ map declared_view names.old.items
        ++ (take count (map a_fixed (map definition_view definitions.now))
        ++ a_stream a_local (param_view param.now) ∷ [])) }
    ensures rest { IfOk result (λ rest. map a_fixed (map definition_view rest.now)
        ≡ drop count (map a_fixed (map definition_view definitions.now))) }
{
    let (first, rest) = definitions.split_at(count);
    push_constants(names, first)?;
    names.push(Declared::Stream(Role::Local, param))?;
    Ok(rest)
}

/// The names, and behind them constants and locals among each other, by their places.
fn push_interleaved<'a>(
    names: &mut Vec<Declared<'a>>,
    definitions: &'a [Definition],
    params: &'a [Param],
) -> Result<(), AllocError>
    ensures { IfOk result (λ _. map declared_view names.new.items ≡ map declared_view names.old.items
        ++ interleaved (map a_fixed (map definition_view definitions.now))
        (map (a_stream a_local) (map param_view params.now))) }
{
    let mut rest = definitions;
    for param in params {
        let count = count_before(rest, param.name.at);
        rest = push_local(names, rest, count, param)?;
    }
    push_constants(names, rest)
}

/// The names of a declaration.
///
/// # Errors
///
/// Want of memory.
pub(crate) fn declared_in(alloc: Global, owner: Owner<'_>) -> Result<Vec<Declared<'_>>, AllocError>
    ensures { IfOk result (λ v. map declared_view v.items ≡ declared_in (owner_view owner.entry)) }
{
    let mut names = Vec::new(alloc);
    push_streams(&mut names, Role::Input, owner.inputs())?;
    push_streams(&mut names, Role::Output, owner.outputs())?;
    push_contract(&mut names, owner.contract())?;
    push_interleaved(&mut names, owner.constants(), owner.locals())?;
    Ok(names)
}
