//! The streams of a declaration, in the order of its frame.

ghost use Rattle.std.specs.Prelude.{◌≡◌, ◌++◌, ◌∷◌, [], IfOk, OnOk, is_some, map};
ghost use Rattle.std.specs.Option.{option_or};
ghost use Rattle.lus_tree.specs.Tree.{Name};
ghost use Rattle.lus_tree.specs.View.{contract_item_view, param_view};
ghost use Rattle.lus_meaning.specs.Depends.{named_in};
ghost use Rattle.lus_meaning.specs.Run.{equations};
ghost use Rattle.lus_meaning.specs.Scene.{ghosts, variables};
ghost use Rattle.lus_streams.specs.Owner.{owner_view};
ghost use Rattle.lus_streams.specs.Streams.{params_view};
ghost use Rattle.sys_conditions.specs.Named.{right_of};
ghost use Rattle.sys_texts.specs.Views.{by_name};
ghost use Rattle.sys_tables.specs.Rights.{right_in};
ghost use Rattle.sys_tables.specs.Tabled.{named_stream, texts_of};
ghost use Rattle.sys_tables.specs.Views.{named_view};

use crate::noting::note;
use crate::rights::rights_of;
use crate::table::Named;
use indexmap::IndexMap;
use lus_streams::owner::Owner;
use lus_tree::{ContractItem, Param};
use std::alloc::{AllocError, Global};
use sys_conditions::occurrences::Right;

/// The streams, and behind them these.
fn push_all<'a>(streams: &mut Vec<&'a Param>, params: &'a [Param]) -> Result<(), AllocError>
    ensures { OnOk result (params_view streams.new.items ≡ params_view streams.old.items ++ map param_view params.now) }
{
    for param in params {
        streams.push(param)?;
    }
    Ok(())
}

/// The streams, and behind them an item's ghost variable, where it is one.
fn push_ghost<'a>(streams: &mut Vec<&'a Param>, item: &'a ContractItem) -> Result<(), AllocError>
    ensures { OnOk result (params_view streams.new.items ≡ params_view streams.old.items
        ++ ghosts (contract_item_view item.now ∷ [])) }
{
    if let ContractItem::Ghost(param, _) = item {
        streams.push(param)?;
    }
    Ok(())
}

/// The streams, and behind them the ghost variables of a contract.
fn push_ghosts<'a>(
    streams: &mut Vec<&'a Param>,
    items: &'a [ContractItem],
) -> Result<(), AllocError>
    ensures { OnOk result (params_view streams.new.items ≡ params_view streams.old.items
        ++ ghosts (map contract_item_view items.now)) }
{
    for item in items {
        push_ghost(streams, item)?;
    }
    Ok(())
}

/// The variables of a declaration, in the order of its frame.
fn variables_of(alloc: Global, owner: Owner<'_>) -> Result<Vec<&Param>, AllocError>
    ensures { IfOk result (λ v. params_view v.items ≡ variables (owner_view owner.entry)) }
{
    let mut streams = Vec::new(alloc);
    push_all(&mut streams, owner.inputs())?;
    push_all(&mut streams, owner.outputs())?;
    push_all(&mut streams, owner.locals())?;
    push_ghosts(&mut streams, owner.contract())?;
    Ok(streams)
}

/// The names of these, which are inputs.
fn inputs_by_name<'a>(
    alloc: Global,
    inputs: &'a [Param],
) -> Result<IndexMap<&'a str, bool>, AllocError>
    ensures { IfOk result (λ m. (x : Name) → is_some (by_name m x)
        ≡ named_in x (texts_of (map param_view inputs.now))) }
{
    let mut names = IndexMap::new(alloc);
    for input in inputs {
        note(&mut names, &input.name.text, true)?;
    }
    Ok(names)
}

/// What is known of a stream of a declaration.
fn named<'a>(
    owner: Owner<'a>,
    rights: &IndexMap<&'a str, Right<'a>>,
    inputs: &IndexMap<&'a str, bool>,
    param: &'a Param,
) -> Named<'a>
    requires rights { (x : Name) → right_in rights.now x ≡ right_of (equations (owner_view owner)) x }
    requires inputs { (x : Name) → is_some (by_name inputs.now x) ≡ named_in x (texts_of (owner_view owner).inputs) }
    ensures { named_view result ≡ named_stream (owner_view owner.entry) (param_view param.now) }
{
    let _ = owner;
    Named {
        param,
        right: rights.get(param.name.text.as_str()).copied(),
        input: inputs.get(param.name.text.as_str()).is_some(),
    }
}

/// What is known of these streams of a declaration.
fn all_named<'a>(
    alloc: Global,
    owner: Owner<'a>,
    params: &[&'a Param],
) -> Result<Vec<Named<'a>>, AllocError>
    ensures { IfOk result (λ v. map named_view v.items
        ≡ map (named_stream (owner_view owner.entry)) (params_view params.now)) }
{
    let rights = rights_of(alloc, owner)?;
    let inputs = inputs_by_name(alloc, owner.inputs())?;
    let mut streams = Vec::with_capacity(alloc, params.len())?;
    for param in params {
        streams.push(named(owner, &rights, &inputs, *param))?;
    }
    Ok(streams)
}

/// The streams of a declaration.
pub(crate) fn streams_of(alloc: Global, owner: Owner<'_>) -> Result<Vec<Named<'_>>, AllocError>
    ensures { IfOk result (λ v. map named_view v.items
        ≡ map (named_stream (owner_view owner.entry)) (variables (owner_view owner.entry))) }
{
    let params = variables_of(alloc, owner)?;
    all_named(alloc, owner, &params)
}
