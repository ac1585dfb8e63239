//! The equations of a declaration by the names that they define.

ghost use Rattle.std.specs.Prelude.{◌≡◌, ◌∷◌, [], IfOk, OnOk, Some, None, cond, map, option_map};
ghost use Rattle.std.specs.Option.{option_or};
ghost use Rattle.std.specs.Str.{bytes_eq};
ghost use Rattle.lus_tree.specs.Tree.{Name, text_of};
ghost use Rattle.lus_tree.specs.View.{contract_item_view, expr_view, item_view, word_view};
ghost use Rattle.lus_meaning.specs.Run.{body_equations, equations, ghost_equations};
ghost use Rattle.lus_streams.specs.Owner.{owner_view};
ghost use Rattle.sys_conditions.specs.Named.{right_of};
ghost use Rattle.sys_conditions.specs.Views.{right_view};
ghost use Rattle.sys_tables.specs.Rights.{right_from, right_in};

use crate::noting::note;
use indexmap::IndexMap;
use lus_streams::owner::Owner;
use lus_tree::{ContractItem, Expr, Item, PlacedName};
use std::alloc::{AllocError, Global};
use sys_conditions::occurrences::Right;

/// Notes the right side of a name that has none yet, and the name's place among the left names.
fn note_right<'a>(
    rights: &mut IndexMap<&'a str, Right<'a>>,
    name: &'a str,
    side: &'a Expr,
    place: usize,
) -> Result<(), AllocError>
    ensures { OnOk result ((x : Name) → right_in rights.new x ≡ option_or (right_in rights.old x)
        (right_from (expr_view side.now) place (name.now ∷ []) x)) }
{
    note(rights, name, Right { side, place })
}

/// Notes the right side of these names.
fn note_names<'a>(
    rights: &mut IndexMap<&'a str, Right<'a>>,
    names: &'a [PlacedName],
    side: &'a Expr,
) -> Result<(), AllocError>
    ensures { OnOk result ((x : Name) → right_in rights.new x ≡ option_or (right_in rights.old x)
        (right_from (expr_view side.now) 0 (map text_of (map word_view names.now)) x)) }
{
    let mut place = 0;
    for name in names {
        note_right(rights, &name.text, side, place)?;
        place += 1;
    }
    Ok(())
}

/// Notes the right side of a ghost variable.
#[tactic(auto, using(crate::proofs::Placed::one_by_place))]
fn note_ghost<'a>(
    rights: &mut IndexMap<&'a str, Right<'a>>,
    item: &'a ContractItem,
) -> Result<(), AllocError>
    ensures { OnOk result ((x : Name) → right_in rights.new x ≡ option_or (right_in rights.old x)
        (right_of (ghost_equations (contract_item_view item.now ∷ [])) x)) }
{
    match item {
        ContractItem::Ghost(param, side) => note_right(rights, &param.name.text, side, 0),
        ContractItem::Assume(_)
        | ContractItem::Guarantee(_)
        | ContractItem::Constant(_)
        | ContractItem::Mode(_, _, _)
        | ContractItem::Import(_, _, _, _) => Ok(()),
    }
}

/// Notes the right side of an equation of a body.
#[tactic(auto, using(crate::proofs::Placed::all_by_place))]
fn note_item<'a>(
    rights: &mut IndexMap<&'a str, Right<'a>>,
    item: &'a Item,
) -> Result<(), AllocError>
    ensures { OnOk result ((x : Name) → right_in rights.new x ≡ option_or (right_in rights.old x)
        (right_of (body_equations (item_view item.now ∷ [])) x)) }
{
    match item {
        Item::Equation(names, side) => note_names(rights, names, side),
        Item::Assert(_) | Item::Property(_) | Item::Main(_) => Ok(()),
    }
}

/// Notes the right sides of the ghost variables of a contract.
fn note_ghosts<'a>(
    rights: &mut IndexMap<&'a str, Right<'a>>,
    items: &'a [ContractItem],
) -> Result<(), AllocError>
    ensures { OnOk result ((x : Name) → right_in rights.new x ≡ option_or (right_in rights.old x)
        (right_of (ghost_equations (map contract_item_view items.now)) x)) }
{
    for item in items {
        note_ghost(rights, item)?;
    }
    Ok(())
}

/// Notes the right sides of a body.
fn note_body<'a>(
    rights: &mut IndexMap<&'a str, Right<'a>>,
    items: &'a [Item],
) -> Result<(), AllocError>
    ensures { OnOk result ((x : Name) → right_in rights.new x ≡ option_or (right_in rights.old x)
        (right_of (body_equations (map item_view items.now)) x)) }
{
    for item in items {
        note_item(rights, item)?;
    }
    Ok(())
}

/// The right sides of a declaration's equations, by the names that they define.
pub(crate) fn rights_of<'a>(
    alloc: Global,
    owner: Owner<'a>,
) -> Result<IndexMap<&'a str, Right<'a>>, AllocError>
    ensures { IfOk result (λ m. (x : Name) → right_in m x ≡ right_of (equations (owner_view owner.entry)) x) }
{
    let mut rights = IndexMap::new(alloc);
    note_ghosts(&mut rights, owner.contract())?;
    note_body(&mut rights, owner.body())?;
    Ok(rights)
}
