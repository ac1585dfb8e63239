//! Names as they are declared.

use lus_scopes::scope::Role;
use lus_tree::{Definition, Param};

/// A name as it is declared.
#[derive(Clone, Copy)]
pub(crate) enum Declared<'a> {
    Stream(Role, &'a Param),
    Fixed(&'a Definition),
}
