//! The texts of printed lines.
ghost use Rattle.std.specs.Prelude.{◌≡◌, ◌++◌, ℕ, List, [], ◌∷◌, codes, decimal, IfOk};
ghost use Rattle.std.specs.String.{string_bytes};
ghost use Rattle.lus_tree.specs.Reason.{refusal_view, what_view};
ghost use Rattle.kind_main.specs.Lines.{breaks_line, formless_line, lawful_line, operation_text, past_line, past_text, read_fault_line, refused_line, rule_more, rule_name};

use kind_num::{Op, Past};
use lus_tree::{Pos, Refusal, What};
use std::alloc::{AllocError, Global};

/// `breaks LABEL at T`
pub fn breaks_text(alloc: Global, label: &str, t: u32) -> Result<String, AllocError>
    ensures { IfOk result (λ text. string_bytes text ≡ breaks_line label.now t) }
{
    format!(in alloc; "breaks {label} at {t}\n")
}

/// The word of an operation.
fn operation(op: Op) -> &'static str
    ensures { result.now ≡ operation_text op }
{
    match op {
        Op::Add => "+",
        Op::Sub => "-",
        Op::Mul => "*",
        Op::Div => "div",
    }
}

/// An operation and its operands.
pub fn past_words(alloc: Global, past: Past) -> Result<String, AllocError>
    ensures { IfOk result (λ text. string_bytes text ≡ past_text past) }
{
    let op = operation(past.op);
    let left = past.left;
    let right = past.right;
    format!(in alloc; "{op} {left} {right}")
}

/// `past 128 bits at L:C instant T: OP A B`
pub fn past_line_text(
    alloc: Global,
    at: Pos,
    instant: u32,
    past: Past,
) -> Result<String, AllocError>
    ensures { IfOk result (λ text. string_bytes text ≡ past_line at instant past) }
{
    let line = at.line;
    let column = at.column;
    let words = past_words(alloc, past)?;
    format!(in alloc; "past 128 bits at {line}:{column} instant {instant}: {words}\n")
}

/// `lawful A of N`
pub fn lawful_text(alloc: Global, lawful: u32, n: u32) -> Result<String, AllocError>
    ensures { IfOk result (λ text. string_bytes text ≡ lawful_line lawful n) }
{
    format!(in alloc; "lawful {lawful} of {n}\n")
}

/// `read fault NAME`
pub fn read_fault_text(alloc: Global, name: &str) -> Result<String, AllocError>
    ensures { IfOk result (λ text. string_bytes text ≡ read_fault_line name.now) }
{
    if name.is_empty() {
        format!(in alloc; "read fault stdin\n")
    } else {
        format!(in alloc; "read fault {name}\n")
    }
}

/// The name of the rule that a refusal is of.
fn rule_name(what: &What) -> &'static str
    ensures { result.now ≡ rule_name (what_view what.now) }
{
    match what {
        What::TooLong => "TooLong",
        What::BadByte => "BadByte",
        What::UnclosedComment => "UnclosedComment",
        What::WideLiteral => "WideLiteral",
        What::Unexpected => "Unexpected",
        What::TooLarge => "TooLarge",
        What::LeftOut(_) => "LeftOut",
        What::NameTwice => "NameTwice",
        What::NameUnknown => "NameUnknown",
        What::TypeClash => "TypeClash",
        What::ArityClash => "ArityClash",
        What::NotLinear => "NotLinear",
        What::ZeroDivisor => "ZeroDivisor",
        What::NotConstant => "NotConstant",
        What::Heavy => "Heavy",
        What::ClockClash => "ClockClash",
        What::EquationTwice => "EquationTwice",
        What::InputDefined => "InputDefined",
        What::Cycle => "Cycle",
        What::NodeRecursion => "NodeRecursion",
        What::NotStateless => "NotStateless",
        What::AssumeReadsOutput => "AssumeReadsOutput",
        What::NoNode => "NoNode",
        What::MainUnknown => "MainUnknown",
        What::ModeUnknown => "ModeUnknown",
        What::TooMany(_) => "TooMany",
        What::Memory => "Memory",
    }
}

/// The word or the limit behind the name, with a space before it, where the rule has one.
fn rule_more(alloc: Global, what: &What) -> Result<String, AllocError>
    ensures { IfOk result (λ text. string_bytes text ≡ rule_more (what_view what.now)) }
{
    match what {
        What::LeftOut(word) => format!(in alloc; " {word}"),
        What::TooMany(limit) => format!(in alloc; " {limit}"),
        _ => Ok(String::new(alloc)),
    }
}

/// `refused L:C NAME`
pub fn refused_text(alloc: Global, refusal: &Refusal) -> Result<String, AllocError>
    ensures { IfOk result (λ text. string_bytes text ≡ refused_line (refusal_view refusal.now)) }
{
    let line = refusal.at.line;
    let column = refusal.at.column;
    let name = rule_name(&refusal.what);
    let more = rule_more(alloc, &refusal.what)?;
    format!(in alloc; "refused {line}:{column} {name}{more}\n")
}

/// `refused trace L:C Form`
pub fn formless_text(alloc: Global, at: Pos) -> Result<String, AllocError>
    ensures { IfOk result (λ text. string_bytes text ≡ formless_line at) }
{
    let line = at.line;
    let column = at.column;
    format!(in alloc; "refused trace {line}:{column} Form\n")
}
