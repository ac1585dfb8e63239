//! Items, declarations and programs, as text.

ghost use Rattle.std.specs.Prelude.{◌≤◌, length};

use crate::expression::{show, show_all};
use crate::words::{
    show_mark, show_param, show_params, show_refusal, show_sort, show_word, show_words,
};
use contract_reader::read_program;
use lus_tree::{
    ContractItem, Decl, Definition, Expr, Item, Named, Node, Param, PlacedName, Program,
};
use std::alloc::{AllocError, Global};

/// The tree of a copy of the program, or the refusal.
pub fn program_of(alloc: Global, bytes: &[u8], places: bool) -> Result<String, AllocError>
    requires { length bytes.now ≤ 1048576 }
{
    match read_program(alloc, bytes) {
        Ok(program) => show_program(alloc, &program.copied(alloc)?, places),
        Err(refusal) => show_refusal(alloc, &refusal),
    }
}

/// `read`, or the refusal.
pub fn is_program(alloc: Global, bytes: &[u8]) -> Result<String, AllocError>
    requires { length bytes.now ≤ 1048576 }
{
    match read_program(alloc, bytes) {
        Ok(_) => String::from_str(alloc, "read"),
        Err(refusal) => show_refusal(alloc, &refusal),
    }
}

fn show_program(alloc: Global, program: &Program, places: bool) -> Result<String, AllocError> {
    let mut out = String::new(alloc);
    for decl in &program.decls {
        if !out.is_empty() {
            out.push_str(" ")?;
        }
        show_decl(&mut out, decl, places)?;
    }
    Ok(out)
}

fn show_decl(out: &mut String, decl: &Decl, places: bool) -> Result<(), AllocError> {
    match decl {
        Decl::Constant(definition) => show_definition(out, definition, places),
        Decl::Contract(contract) => {
            out.push_str("contract ")?;
            show_head(
                out,
                &contract.name,
                &contract.inputs,
                &contract.outputs,
                places,
            )?;
            show_contract(out, &contract.items, places)
        }
        Decl::Node(node) => {
            out.push_str(if node.function { "function " } else { "node " })?;
            show_head(out, &node.name, &node.inputs, &node.outputs, places)?;
            show_locals(out, node, places)?;
            if let Some(items) = &node.contract {
                show_contract(out, items, places)?;
            }
            out.push_str(" {")?;
            show_items(out, &node.items, places)?;
            out.push_str("}")
        }
    }
}

fn show_head(
    out: &mut String,
    name: &PlacedName,
    inputs: &[Param],
    outputs: &[Param],
    places: bool,
) -> Result<(), AllocError> {
    show_word(out, name, places)?;
    out.push_str("(")?;
    show_params(out, inputs, places)?;
    out.push_str(")(")?;
    show_params(out, outputs, places)?;
    out.push_str(")")
}

fn show_locals(out: &mut String, node: &Node, places: bool) -> Result<(), AllocError> {
    if !node.locals.is_empty() {
        out.push_str(" var ")?;
        show_params(out, &node.locals, places)?;
    }
    for definition in &node.consts {
        out.push_str(" ")?;
        show_definition(out, definition, places)?;
    }
    Ok(())
}

/// `const NAME:TYPE=VALUE;`
pub fn show_definition(out: &mut String, d: &Definition, places: bool) -> Result<(), AllocError> {
    out.push_str("const ")?;
    show_word(out, &d.name, places)?;
    if let Some(sort) = d.sort {
        show_sort(out, sort)?;
    }
    show_value(out, "=", &d.value, places)
}

/// A sign or a word, an expression and `;`.
fn show_value(
    out: &mut String,
    before: &str,
    value: &Expr,
    places: bool,
) -> Result<(), AllocError> {
    out.push_str(before)?;
    show(out, value, places)?;
    out.push_str(";")
}

/// The place, the label in `'`, and the expression.
fn show_named(out: &mut String, named: &Named, places: bool) -> Result<(), AllocError> {
    show_mark(out, named.at, places)?;
    if places {
        out.push_str(" ")?;
    }
    if let Some(label) = &named.label {
        let label = label.as_str();
        write!(out, "'{label}' ")?;
    }
    show_value(out, "", &named.value, places)
}

fn show_all_named(out: &mut String, all: &[Named], places: bool) -> Result<(), AllocError> {
    for named in all {
        show_named(out, named, places)?;
    }
    Ok(())
}

fn show_contract(out: &mut String, items: &[ContractItem], places: bool) -> Result<(), AllocError> {
    out.push_str(" [")?;
    for item in items {
        show_contract_item(out, item, places)?;
    }
    out.push_str("]")
}

fn show_contract_item(
    out: &mut String,
    item: &ContractItem,
    places: bool,
) -> Result<(), AllocError> {
    match item {
        ContractItem::Assume(named) => {
            out.push_str("assume ")?;
            show_named(out, named, places)
        }
        ContractItem::Guarantee(named) => {
            out.push_str("guarantee ")?;
            show_named(out, named, places)
        }
        ContractItem::Ghost(param, value) => {
            out.push_str("ghost ")?;
            show_param(out, param, places)?;
            show_value(out, "=", value, places)
        }
        ContractItem::Constant(definition) => show_definition(out, definition, places),
        ContractItem::Mode(name, required, ensured) => {
            out.push_str("mode ")?;
            show_word(out, name, places)?;
            out.push_str("(")?;
            show_all_named(out, required, places)?;
            out.push_str("/")?;
            show_all_named(out, ensured, places)?;
            out.push_str(");")
        }
        ContractItem::Import(number, contract, arguments, outputs) => {
            let number = *number;
            write!(out, "import#{number} ")?;
            show_word(out, contract, places)?;
            out.push_str("(")?;
            show_all(out, arguments, places)?;
            out.push_str(")(")?;
            show_words(out, outputs, places)?;
            out.push_str(");")
        }
    }
}

/// Items of a body, one after the other.
pub fn show_items(out: &mut String, items: &[Item], places: bool) -> Result<(), AllocError> {
    for item in items {
        show_item(out, item, places)?;
    }
    Ok(())
}

fn show_item(out: &mut String, item: &Item, places: bool) -> Result<(), AllocError> {
    match item {
        Item::Equation(left, right) => {
            show_words(out, left, places)?;
            show_value(out, "=", right, places)
        }
        Item::Assert(condition) => show_value(out, "assert ", condition, places),
        Item::Property(named) => {
            out.push_str("property ")?;
            show_named(out, named, places)
        }
        Item::Main(at) => {
            out.push_str("main")?;
            show_mark(out, *at, places)?;
            out.push_str(";")
        }
    }
}
