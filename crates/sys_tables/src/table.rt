//! What is known of a declaration, once for all of its frames.

use lus_layouts::{CallSlots, Layout};
use lus_streams::owner::Owner;
use lus_tree::Param;
use sys_conditions::occurrences::{Memory, Right, Start};
use sys_occurrences::sites::Site;
use sys_parts::constant::Constant;

/// A constant and its value.
#[derive(Clone, Copy)]
pub struct Fixed<'a> {
    pub name: &'a str,
    pub value: Constant,
}

/// A stream, what an equation gives it, and whether it is an input.
#[derive(Clone, Copy)]
pub struct Named<'a> {
    pub param: &'a Param,
    pub right: Option<Right<'a>>,
    pub input: bool,
}

/// A call or an import: the place of its callee among the declarations of the program, how many inputs the callee has,
/// which stand before its outputs, these, the values of the defaults, and where the call stands.
#[derive(Drop)]
pub struct Linked<'a> {
    pub site: Site<'a>,
    pub place: usize,
    pub inputs: usize,
    pub outputs: &'a [Param],
    pub defaults: Vec<Constant>,
    pub slots: CallSlots,
}

/// What is known of a declaration: the values of its constants, its streams in the order of its frame, its `pre`, its
/// `->`, and its calls and imports, each in the order of their numbers, where their variables stand, and whether it
/// has a contract.
#[derive(Drop)]
pub struct Table<'a> {
    pub owner: Owner<'a>,
    pub constants: Vec<Fixed<'a>>,
    pub streams: Vec<Named<'a>>,
    pub memories: Vec<Memory<'a>>,
    pub starts: Vec<Start<'a>>,
    pub calls: Vec<Linked<'a>>,
    pub layout: Layout,
    pub contract: bool,
}
