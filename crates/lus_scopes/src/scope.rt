//! What names mean where an expression stands.

use crate::counted::Counted;
use crate::declarations::Declarations;
use crate::layer::Layer;
use lus_meaning::Value;
use lus_tree::{ContractNode, Definition, Node, Param, Sort};

/// What a stream is.
#[derive(Clone, Copy, PartialEq, Eq)]
pub enum Role {
    Input,
    Output,
    Local,
    Ghost,
}

/// What a name stands for.
#[derive(Clone, Copy)]
pub enum Meaning<'a> {
    /// A stream.
    Stream(Role, &'a Param),
    /// A constant, with its type and its value where they are known.
    Constant(&'a Definition, Option<Sort>, Option<Value>),
}

/// A name, and how many constants stand before it in its list.
#[derive(Clone, Copy)]
pub struct Entry<'a> {
    pub meaning: Meaning<'a>,
    pub order: usize,
}

/// Which constants of a list may be used at a place.
#[derive(Clone, Copy)]
pub enum Extent {
    All,
    /// So many, in the order of the list.
    First(usize),
}

/// The declaration in which an expression stands.
#[derive(Clone, Copy)]
pub enum Owner<'a> {
    /// None: a constant of the program.
    Nothing,
    Node(&'a Node),
    Contract(&'a ContractNode),
}

/// Where an expression stands: the declarations of the program, its own, its names and behind them those of the
/// program's constants, whether the locals may not be used, and the modes and the imports before it,
/// where there can be any.
#[derive(Clone, Copy)]
pub struct Scope<'a> {
    pub declarations: &'a Declarations<'a>,
    pub owner: Owner<'a>,
    pub own: Layer<'a>,
    pub outer: Layer<'a>,
    pub hidden: bool,
    pub modes: Option<&'a Counted<'a>>,
    pub imports: Option<&'a Counted<'a>>,
}
