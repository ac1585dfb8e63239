//! The names of properties.

use contract_reader::read_program;
use lus_properties::{label_text, properties};
use lus_streams::owner::Owner;
use lus_tree::{Decl, Program};
use std::alloc::{AllocError, Global};

/// The most bytes of a source.
const MOST_BYTES: usize = 1_048_576;

/// Adds the name of a declaration, and those of its properties.
fn push_labels(
    alloc: Global,
    text: &mut String,
    program: &Program,
    owner: Owner<'_>,
) -> Result<(), AllocError> {
    let name = owner.name();
    let line = format!(in alloc; "{name}\n")?;
    text.push_str(line.as_str())?;
    let properties = properties(alloc, program, owner)?;
    for property in &properties {
        let label = label_text(alloc, property)?;
        let line = format!(in alloc; "    {label}\n")?;
        text.push_str(line.as_str())?;
    }
    Ok(())
}

/// Adds what is said of a declaration; nothing of a constant.
fn push_declaration(
    alloc: Global,
    text: &mut String,
    program: &Program,
    decl: &Decl,
) -> Result<(), AllocError> {
    match decl {
        Decl::Constant(_) => Ok(()),
        Decl::Node(node) => push_labels(alloc, text, program, Owner::Node(node)),
        Decl::Contract(contract) => push_labels(alloc, text, program, Owner::Contract(contract)),
    }
}

/// What is said of all declarations.
fn all_labels(alloc: Global, program: &Program) -> Result<String, AllocError> {
    let mut text = String::new(alloc);
    for decl in &program.decls {
        push_declaration(alloc, &mut text, program, decl)?;
    }
    Ok(text)
}

/// The names of the properties of all declarations of a source, or why and where it is refused.
pub fn labels_or_refusal(alloc: Global, source: &str) -> Result<String, AllocError> {
    let bytes = source.as_bytes();
    if bytes.len() > MOST_BYTES {
        return String::from_str(alloc, "too long\n");
    }
    match read_program(alloc, bytes) {
        Ok(program) => all_labels(alloc, &program),
        Err(refusal) => format!(in alloc; "{refusal}\n"),
    }
}
