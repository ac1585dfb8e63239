//! Expressions.

ghost use Rattle.std.specs.Prelude.{◌≡◌, IfOk, map};
ghost use Rattle.lus_tree.specs.Tree.{Place};
ghost use Rattle.lus_tree.specs.View.{expr_view, exprs_view, form_view};

use crate::place::{PlacedName, Pos, copied_word_or_none};
use std::alloc::{AllocError, Global};

/// An operator between two operands: `=>`, `or`, `xor`, `and`, `<`, `<=`, `=`, `<>`, `>=`, `>`,
/// `+`, `-`, `*`, `div`, `mod`, in this order.
#[derive(Clone, Copy, PartialEq, Eq, Debug)]
pub enum Operator {
    Implies,
    Or,
    Xor,
    And,
    Less,
    AtMost,
    Equal,
    Differs,
    AtLeast,
    More,
    Add,
    Sub,
    Mul,
    Div,
    Mod,
}

/// An expression. `from` is the place of its first token, an opening parenthesis round it
/// included. `at` is the place of its own token: the operator, `pre`, `->`, `when`, `if`,
/// `merge`, `condact`, `activate`, `::`, the called name, or the literal or name itself.
#[cycle(expr)]
#[derive(Drop)]
pub struct Expr {
    pub from: Pos,
    pub at: Pos,
    pub form: Form,
}

/// The form of an expression. The numbers of `Pre`, `Arrow` and of the calls (`Call`, `Condact`)
/// count the occurrences of a declaration from 1 in text order, each kind by itself.
#[cycle(expr)]
#[derive(Drop)]
pub enum Form {
    /// `true` or `false`.
    Truth(bool),
    /// A literal, at most 2^63 - 1.
    Number(u64),
    /// A stream or a constant.
    Name(String),
    /// `not a`
    Not(Box<Expr>),
    /// `- a`
    Minus(Box<Expr>),
    /// `pre a`
    Pre(u32, Box<Expr>),
    /// `a -> b`
    Arrow(u32, Box<Expr>, Box<Expr>),
    /// `a OPERATOR b`
    Binary(Operator, Box<Expr>, Box<Expr>),
    /// `if a then b else c`
    If(Box<Expr>, Box<Expr>, Box<Expr>),
    /// `a when c`, or with false `a when not c`.
    When(Box<Expr>, bool, PlacedName),
    /// `merge c (true -> a) (false -> b)`
    Merge(PlacedName, Box<Expr>, Box<Expr>),
    /// `callee(arguments)`
    Call(u32, PlacedName, Vec<Expr>),
    /// `condact(condition, callee(arguments), defaults)`, also as
    /// `(activate callee every condition initial default (defaults))(arguments)`.
    Condact(u32, Box<Expr>, PlacedName, Vec<Expr>, Vec<Expr>),
    /// `::mode`, or `::contract::mode`.
    ModeName(Option<PlacedName>, PlacedName),
}

impl Expr {
    /// An equal expression.
    #[cycle(copied)]
    #[tactic(auto, using(crate::proofs::Views::form_views))]
    pub fn copied(&self, alloc: Global) -> Result<Expr, AllocError>
        ensures { IfOk result (λ e. expr_view e ≡ expr_view self.now) }
    {
        let form = self.form.copied(alloc)?;
        Ok(Expr {
            from: self.from,
            at: self.at,
            form,
        })
    }

    #[cycle(copied)]
    fn boxed(&self, alloc: Global) -> Result<Box<Expr>, AllocError>
        ensures { IfOk result (λ b. expr_view b.value ≡ expr_view self.now) }
    {
        let copy = self.copied(alloc)?;
        Ok(Box::new(alloc, copy)?)
    }
}

#[cycle(copied)]
pub(crate) fn copied_exprs(exprs: &[Expr], alloc: Global) -> Result<Vec<Expr>, AllocError>
    ensures { IfOk result (λ v. exprs_view v.items ≡ exprs_view exprs.now) }
{
    let mut copies = Vec::with_capacity(alloc, exprs.len())?;
    for expr in exprs {
        copies.push(expr.copied(alloc)?)?;
    }
    Ok(copies)
}

impl Form {
    /// An equal form.
    #[cycle(copied)]
    #[tactic(auto, using(crate::proofs::Views::form_views))]
    pub fn copied(&self, alloc: Global) -> Result<Form, AllocError>
        ensures { IfOk result (λ f. (s : Place) → form_view f s ≡ form_view self.now s) }
    {
        match self {
            Form::Truth(b) => Ok(Form::Truth(*b)),
            Form::Number(n) => Ok(Form::Number(*n)),
            Form::Name(x) => Ok(Form::Name(String::from_str(alloc, x)?)),
            Form::Not(a) => Ok(Form::Not(a.boxed(alloc)?)),
            Form::Minus(a) => Ok(Form::Minus(a.boxed(alloc)?)),
            Form::Pre(k, a) => Ok(Form::Pre(*k, a.boxed(alloc)?)),
            Form::Arrow(k, a, b) => Ok(Form::Arrow(*k, a.boxed(alloc)?, b.boxed(alloc)?)),
            Form::Binary(o, a, b) => Ok(Form::Binary(*o, a.boxed(alloc)?, b.boxed(alloc)?)),
            Form::If(a, b, c) => Ok(Form::If(a.boxed(alloc)?, b.boxed(alloc)?, c.boxed(alloc)?)),
            Form::When(a, on, c) => Ok(Form::When(a.boxed(alloc)?, *on, c.copied(alloc)?)),
            Form::Merge(c, a, b) => Ok(Form::Merge(
                c.copied(alloc)?,
                a.boxed(alloc)?,
                b.boxed(alloc)?,
            )),
            Form::Call(k, callee, arguments) => Ok(Form::Call(
                *k,
                callee.copied(alloc)?,
                copied_exprs(arguments, alloc)?,
            )),
            Form::Condact(k, condition, callee, arguments, defaults) => Ok(Form::Condact(
                *k,
                condition.boxed(alloc)?,
                callee.copied(alloc)?,
                copied_exprs(arguments, alloc)?,
                copied_exprs(defaults, alloc)?,
            )),
            Form::ModeName(contract, mode) => Ok(Form::ModeName(
                copied_word_or_none(contract, alloc)?,
                mode.copied(alloc)?,
            )),
        }
    }
}
