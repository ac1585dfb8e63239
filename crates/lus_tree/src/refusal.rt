//! Why a source is refused, and where.

ghost use Rattle.std.specs.Prelude.{◌≡◌, IfOk};
ghost use Rattle.lus_tree.specs.Reason.{refusal_view, what_view};

use crate::place::Pos;
use std::alloc::{AllocError, Global};
use std::{error, fmt};
use thiserror::Error;

/// The rule that a source breaks. Its text is the name that is printed.
#[derive(Debug, Drop)]
pub enum What {
    /// More than 1,048,576 bytes.
    TooLong,
    /// A byte that stands in no token and no comment, or a text that is not closed.
    BadByte,
    /// A comment without its end.
    UnclosedComment,
    /// A number above 2^63 - 1.
    WideLiteral,
    /// A token, or the end, after which no text of the grammar can follow.
    Unexpected,
    /// An expression with more than 1,000 tokens.
    TooLarge,
    /// A word or sign of Lustre that this language leaves out.
    LeftOut(String),
    /// A name, mode or label that is declared a second time.
    NameTwice,
    /// A name, callee or import that is not declared.
    NameUnknown,
    /// An expression of another type than is needed.
    TypeClash,
    /// A wrong number of arguments, outputs, left names or defaults.
    ArityClash,
    /// A product of two expressions that are not constant.
    NotLinear,
    /// A constant divisor 0.
    ZeroDivisor,
    /// A constant, default or divisor that is not constant.
    NotConstant,
    /// An integer expression that could pass 128 bits.
    Heavy,
    /// An expression on another clock than is needed.
    ClockClash,
    /// A name with two equations.
    EquationTwice,
    /// An equation for an input, a ghost variable or a constant.
    InputDefined,
    /// An equation that depends on itself at one instant.
    Cycle,
    /// A call or an import on a circle of declarations.
    NodeRecursion,
    /// State in a function.
    NotStateless,
    /// An assumption that reads an output of this instant.
    AssumeReadsOutput,
    /// No node and no function.
    NoNode,
    /// The chosen main node is not there.
    MainUnknown,
    /// A mode that is not declared before its use.
    ModeUnknown,
    /// A declaration past a limit, and that limit.
    TooMany(u64),
    /// Want of memory. The place then says nothing.
    Memory,
}

/// A rule that a source breaks, and the place where it does.
#[derive(Debug, Drop, Error)]
#[error("refused {}:{} {what}", at.line, at.column)]
pub struct Refusal {
    pub at: Pos,
    pub what: What,
}

impl fmt::Display for What {
    fn fmt<W: fmt::Write>(&self, f: &mut fmt::Formatter<W>) -> fmt::Result {
        match self {
            What::LeftOut(word) => write!(f, "LeftOut {word}"),
            What::TooMany(limit) => write!(f, "TooMany {limit}"),
            // A rule with no field: its name.
            plain => fmt::Debug::fmt(plain, f),
        }
    }
}

impl error::Error for What {}

impl What {
    /// The same rule, with an equal word or limit.
    pub fn copied(&self, alloc: Global) -> Result<What, AllocError>
        ensures { IfOk result (λ c. what_view c ≡ what_view self.now) }
    {
        match self {
            What::TooLong => Ok(What::TooLong),
            What::BadByte => Ok(What::BadByte),
            What::UnclosedComment => Ok(What::UnclosedComment),
            What::WideLiteral => Ok(What::WideLiteral),
            What::Unexpected => Ok(What::Unexpected),
            What::TooLarge => Ok(What::TooLarge),
            What::LeftOut(word) => Ok(What::LeftOut(String::from_str(alloc, word)?)),
            What::NameTwice => Ok(What::NameTwice),
            What::NameUnknown => Ok(What::NameUnknown),
            What::TypeClash => Ok(What::TypeClash),
            What::ArityClash => Ok(What::ArityClash),
            What::NotLinear => Ok(What::NotLinear),
            What::ZeroDivisor => Ok(What::ZeroDivisor),
            What::NotConstant => Ok(What::NotConstant),
            What::Heavy => Ok(What::Heavy),
            What::ClockClash => Ok(What::ClockClash),
            What::EquationTwice => Ok(What::EquationTwice),
            What::InputDefined => Ok(What::InputDefined),
            What::Cycle => Ok(What::Cycle),
            What::NodeRecursion => Ok(What::NodeRecursion),
            What::NotStateless => Ok(What::NotStateless),
            What::AssumeReadsOutput => Ok(What::AssumeReadsOutput),
            What::NoNode => Ok(What::NoNode),
            What::MainUnknown => Ok(What::MainUnknown),
            What::ModeUnknown => Ok(What::ModeUnknown),
            What::TooMany(limit) => Ok(What::TooMany(*limit)),
            What::Memory => Ok(What::Memory),
        }
    }
}

impl Refusal {
    /// An equal refusal.
    pub fn copied(&self, alloc: Global) -> Result<Refusal, AllocError>
        ensures { IfOk result (λ c. refusal_view c ≡ refusal_view self.now) }
    {
        Ok(Refusal {
            at: self.at,
            what: self.what.copied(alloc)?,
        })
    }
}
