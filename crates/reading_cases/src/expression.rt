//! Expressions, as text.

use crate::words::{show_place, show_word};
use lus_tree::{Expr, Form, Operator, PlacedName};
use std::alloc::AllocError;

/// An expression in parentheses, with the numbers of its occurrences behind `#`, and with `places`
/// the place of its first token and its own before each expression, as `{from at}`, and the place
/// of each name that is no expression.
#[cycle(show)]
pub fn show(out: &mut String, e: &Expr, places: bool) -> Result<(), AllocError> {
    if places {
        show_places(out, e)?;
    }
    show_leaf(out, &e.form, places)?;
    show_operators(out, &e.form, places)?;
    show_choices(out, &e.form, places)?;
    show_calls(out, &e.form, places)
}

fn show_places(out: &mut String, e: &Expr) -> Result<(), AllocError> {
    out.push_str("{")?;
    show_place(out, e.from)?;
    out.push_str(" ")?;
    show_place(out, e.at)?;
    out.push_str("}")
}

/// An expression between two texts.
#[cycle(show)]
fn show_between(
    out: &mut String,
    before: &str,
    e: &Expr,
    after: &str,
    places: bool,
) -> Result<(), AllocError> {
    out.push_str(before)?;
    show(out, e, places)?;
    out.push_str(after)
}

/// Expressions with commas between them.
#[cycle(show)]
pub fn show_all(out: &mut String, all: &[Expr], places: bool) -> Result<(), AllocError> {
    let mut first = true;
    for e in all {
        if !first {
            out.push_str(", ")?;
        }
        first = false;
        show(out, e, places)?;
    }
    Ok(())
}

/// A literal, a name or a mode; nothing where the form is another.
fn show_leaf(out: &mut String, form: &Form, places: bool) -> Result<(), AllocError> {
    match form {
        Form::Truth(true) => out.push_str("true"),
        Form::Truth(false) => out.push_str("false"),
        Form::Number(n) => {
            let n = *n;
            write!(out, "{n}")
        }
        Form::Name(x) => out.push_str(x.as_str()),
        Form::ModeName(contract, mode) => show_mode_name(out, contract, mode, places),
        _ => Ok(()),
    }
}

fn show_mode_name(
    out: &mut String,
    contract: &Option<PlacedName>,
    mode: &PlacedName,
    places: bool,
) -> Result<(), AllocError> {
    if let Some(contract) = contract {
        out.push_str("::")?;
        show_word(out, contract, places)?;
    }
    out.push_str("::")?;
    show_word(out, mode, places)
}

fn sign(operator: Operator) -> &'static str {
    match operator {
        Operator::Implies => " => ",
        Operator::Or => " or ",
        Operator::Xor => " xor ",
        Operator::And => " and ",
        Operator::Less => " < ",
        Operator::AtMost => " <= ",
        Operator::Equal => " = ",
        Operator::Differs => " <> ",
        Operator::AtLeast => " >= ",
        Operator::More => " > ",
        Operator::Add => " + ",
        Operator::Sub => " - ",
        Operator::Mul => " * ",
        Operator::Div => " div ",
        Operator::Mod => " mod ",
    }
}

/// ` ->#` or `(pre#`, and the number behind it.
fn show_number(out: &mut String, before: &str, number: u32) -> Result<(), AllocError> {
    write!(out, "{before}{number} ")
}

/// Operators; nothing where the form is another.
#[cycle(show)]
fn show_operators(out: &mut String, form: &Form, places: bool) -> Result<(), AllocError> {
    match form {
        Form::Not(a) => show_between(out, "(not ", a, ")", places),
        Form::Minus(a) => show_between(out, "(- ", a, ")", places),
        Form::Pre(k, a) => {
            show_number(out, "(pre#", *k)?;
            show_between(out, "", a, ")", places)
        }
        Form::Arrow(k, a, b) => {
            show_between(out, "(", a, " ", places)?;
            show_number(out, "->#", *k)?;
            show_between(out, "", b, ")", places)
        }
        Form::Binary(o, a, b) => {
            show_between(out, "(", a, sign(*o), places)?;
            show_between(out, "", b, ")", places)
        }
        _ => Ok(()),
    }
}

/// `if`, `when` and `merge`; nothing where the form is another.
#[cycle(show)]
fn show_choices(out: &mut String, form: &Form, places: bool) -> Result<(), AllocError> {
    match form {
        Form::If(a, b, c) => {
            show_between(out, "(if ", a, " then ", places)?;
            show_between(out, "", b, " else ", places)?;
            show_between(out, "", c, ")", places)
        }
        Form::When(a, on, c) => {
            let when = if *on { " when " } else { " when not " };
            show_between(out, "(", a, when, places)?;
            show_word(out, c, places)?;
            out.push_str(")")
        }
        Form::Merge(c, a, b) => {
            out.push_str("(merge ")?;
            show_word(out, c, places)?;
            show_between(out, " ", a, " ", places)?;
            show_between(out, "", b, ")", places)
        }
        _ => Ok(()),
    }
}

/// Calls; nothing where the form is another.
#[cycle(show)]
fn show_calls(out: &mut String, form: &Form, places: bool) -> Result<(), AllocError> {
    match form {
        Form::Call(k, f, xs) => {
            let k = *k;
            show_word(out, f, places)?;
            write!(out, "#{k}(")?;
            show_all(out, xs, places)?;
            out.push_str(")")
        }
        Form::Condact(k, a, f, xs, ds) => {
            show_number(out, "(condact#", *k)?;
            show_between(out, "", a, " ", places)?;
            show_word(out, f, places)?;
            out.push_str("(")?;
            show_all(out, xs, places)?;
            out.push_str(") [")?;
            show_all(out, ds, places)?;
            out.push_str("])")
        }
        _ => Ok(()),
    }
}
