//! What is known of a main node.

use crate::orders::{orders_text, push_numbers};
use lus_checked::{Checked, Property, PropertyKind};
use std::alloc::{AllocError, Global};

/// What a property is of, in a word.
fn kind_text(kind: PropertyKind) -> &'static str {
    match kind {
        PropertyKind::Body => "body",
        PropertyKind::Guarantee => "guarantee",
        PropertyKind::Ensure => "ensure",
        PropertyKind::OneMode => "one mode",
        PropertyKind::CalleeAssume => "assume",
    }
}

/// Adds a property.
fn push_property(alloc: Global, text: &mut String, property: &Property) -> Result<(), AllocError> {
    let kind = kind_text(property.kind);
    let label = property.label.as_str();
    let item = format!(in alloc; "; {kind}: {label}")?;
    text.push_str(item.as_str())
}

/// The orders of all declarations, how many variables the main node's system has, for each of its outputs the inputs on
/// which it depends at the same instant, and its properties.
pub fn node_text(alloc: Global, program: &Checked) -> Result<String, AllocError> {
    let main = program.main();
    let width = program.width(main);
    let mut text = orders_text(alloc, program)?;
    let width = format!(in alloc; "; width {width}, reads")?;
    text.push_str(width.as_str())?;
    for inputs in program.reads(main) {
        push_numbers(alloc, &mut text, inputs.as_slice())?;
    }
    for property in program.properties(main) {
        push_property(alloc, &mut text, property)?;
    }
    Ok(text)
}
