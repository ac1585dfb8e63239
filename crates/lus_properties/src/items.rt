//! What the items of a contract and of a body state.

ghost use Rattle.std.specs.Prelude.{◌≡◌, ◌++◌, ◌∷◌, [], OnOk, map};
ghost use Rattle.lus_meaning.specs.Contract.{ensured};
ghost use Rattle.lus_tree.specs.View.{item_view, named_view, word_view};
ghost use Rattle.lus_properties.specs.Marks.{assumption_marks, body_marks, guarantee_marks, labelled_mark, mode_marks, name_mark, statement_marks};
ghost use Rattle.lus_properties.specs.Views.{property_view};

use crate::property::{Property, PropertyKind, push_named};
use lus_tree::{Item, Named, PlacedName};
use std::alloc::{AllocError, Global};

/// What is listed of a contract: one kind of its items, or its modes themselves.
#[derive(Clone, Copy)]
pub(crate) enum ItemKind {
    Assumptions,
    Guarantees,
    Ensures,
    Modes,
}

/// Adds an assumption, where these are listed.
pub(crate) fn push_assumption<'a>(
    alloc: Global,
    kind: ItemKind,
    named: &'a Named,
    properties: &mut Vec<Property<'a>>,
) -> Result<(), AllocError>
    ensures { OnOk result (map property_view properties.new.items ≡ map property_view properties.old.items
        ++ assumption_marks kind (named_view named.now)) }
{
    match kind {
        ItemKind::Assumptions => push_named(alloc, PropertyKind::CalleeAssume, named, properties),
        ItemKind::Guarantees | ItemKind::Ensures | ItemKind::Modes => Ok(()),
    }
}

/// Adds a guarantee, where these are listed.
pub(crate) fn push_guarantee<'a>(
    alloc: Global,
    kind: ItemKind,
    named: &'a Named,
    properties: &mut Vec<Property<'a>>,
) -> Result<(), AllocError>
    ensures { OnOk result (map property_view properties.new.items ≡ map property_view properties.old.items
        ++ guarantee_marks kind (named_view named.now)) }
{
    match kind {
        ItemKind::Guarantees => push_named(alloc, PropertyKind::Guarantee, named, properties),
        ItemKind::Assumptions | ItemKind::Ensures | ItemKind::Modes => Ok(()),
    }
}

/// Adds the ensures of a mode.
fn push_ensures<'a>(
    alloc: Global,
    name: &'a str,
    promised: &'a [Named],
    properties: &mut Vec<Property<'a>>,
) -> Result<(), AllocError>
    ensures { OnOk result (map property_view properties.new.items ≡ map property_view properties.old.items
        ++ map (labelled_mark (ensured name.now)) (map named_view promised.now)) }
{
    for named in promised {
        push_named(alloc, PropertyKind::Ensure(name), named, properties)?;
    }
    Ok(())
}

/// Adds a mode itself.
fn push_name<'a>(
    alloc: Global,
    name: &'a PlacedName,
    properties: &mut Vec<Property<'a>>,
) -> Result<(), AllocError>
    ensures { OnOk result (map property_view properties.new.items ≡ map property_view properties.old.items
        ++ name_mark (word_view name.now) ∷ []) }
{
    properties.push(Property {
        kind: PropertyKind::OneMode,
        path: Vec::new(alloc),
        label: Some(&name.text),
        at: name.at,
    })?;
    Ok(())
}

/// Adds a mode, or its ensures, where these are listed.
pub(crate) fn push_mode<'a>(
    alloc: Global,
    kind: ItemKind,
    name: &'a PlacedName,
    promised: &'a [Named],
    properties: &mut Vec<Property<'a>>,
) -> Result<(), AllocError>
    ensures { OnOk result (map property_view properties.new.items ≡ map property_view properties.old.items
        ++ mode_marks kind (word_view name.now) (map named_view promised.now)) }
{
    match kind {
        ItemKind::Ensures => push_ensures(alloc, &name.text, promised, properties),
        ItemKind::Modes => push_name(alloc, name, properties),
        ItemKind::Assumptions | ItemKind::Guarantees => Ok(()),
    }
}

/// Adds an item of a body, where it is a property.
fn push_item<'a>(
    alloc: Global,
    item: &'a Item,
    properties: &mut Vec<Property<'a>>,
) -> Result<(), AllocError>
    ensures { OnOk result (map property_view properties.new.items ≡ map property_view properties.old.items
        ++ statement_marks (item_view item.now)) }
{
    match item {
        Item::Property(named) => push_named(alloc, PropertyKind::Body, named, properties),
        Item::Equation(_, _) | Item::Assert(_) | Item::Main(_) => Ok(()),
    }
}

/// Adds the properties of a body.
pub(crate) fn push_body<'a>(
    alloc: Global,
    items: &'a [Item],
    properties: &mut Vec<Property<'a>>,
) -> Result<(), AllocError>
    ensures { OnOk result (map property_view properties.new.items ≡ map property_view properties.old.items
        ++ body_marks (map item_view items.now)) }
{
    for item in items {
        push_item(alloc, item, properties)?;
    }
    Ok(())
}
