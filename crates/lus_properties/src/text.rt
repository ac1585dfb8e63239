//! The printed names of properties.

ghost use Rattle.std.specs.Prelude.{◌≡◌, ◌++◌, IfOk, OnOk, codes, decimal, option_map};
ghost use Rattle.std.specs.String.{string_bytes};
ghost use Rattle.lus_meaning.specs.Label.{name_text, path_text};
ghost use Rattle.lus_properties.specs.Texts.{mark_text};
ghost use Rattle.lus_properties.specs.Views.{property_view};

use crate::property::{Property, PropertyKind};
use lus_tree::Pos;
use std::alloc::{AllocError, Global};

/// The text, and behind it a number and a dot.
fn with_number(alloc: Global, text: &str, number: u32) -> Result<String, AllocError>
    ensures { IfOk result (λ s. string_bytes s ≡ text.now ++ (decimal number ++ codes ".")) }
{
    format!(in alloc; "{text}{number}.")
}

/// The calls and imports on the way to a property, each with a dot.
fn path_text(alloc: Global, path: &[u32]) -> Result<String, AllocError>
    ensures { IfOk result (λ s. string_bytes s ≡ path_text path.now) }
{
    let mut text = String::new(alloc);
    for number in path {
        text = with_number(alloc, &text, *number)?;
    }
    Ok(text)
}

/// `"LABEL"`, or `@L:C` where there is no label.
fn name_text(alloc: Global, label: Option<&str>, at: Pos) -> Result<String, AllocError>
    ensures { IfOk result (λ s. string_bytes s ≡ name_text (option_map (λ x. x.now) label.entry) at) }
{
    match label {
        Some(label) => format!(in alloc; "\"{label}\""),
        None => {
            let line = at.line;
            let column = at.column;
            format!(in alloc; "@{line}:{column}")
        }
    }
}

/// How a property is named in what is printed: `property N`, `guarantee N`, `ensure M N`, `one mode active` or
/// `assume N`. N is the label in quotes, or the place. Before N, in an ensure before M, stands the number of each call
/// and import on the way, each with a dot.
///
/// # Errors
///
/// Want of memory.
pub fn label_text(alloc: Global, property: &Property<'_>) -> Result<String, AllocError>
    ensures { IfOk result (λ s. string_bytes s ≡ mark_text (property_view property.now)) }
{
    let path = path_text(alloc, &property.path)?;
    let name = name_text(alloc, property.label, property.at)?;
    match property.kind {
        PropertyKind::Body => format!(in alloc; "property {path}{name}"),
        PropertyKind::Guarantee => format!(in alloc; "guarantee {path}{name}"),
        PropertyKind::Ensure(mode) => format!(in alloc; "ensure {path}{mode} {name}"),
        PropertyKind::OneMode => format!(in alloc; "one mode active"),
        PropertyKind::CalleeAssume => format!(in alloc; "assume {path}{name}"),
    }
}
