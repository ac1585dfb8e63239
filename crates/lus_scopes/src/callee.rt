//! What may be called or imported.

use crate::with_modes::WithModes;
use lus_tree::Node;

/// A declaration with parts.
#[derive(Drop)]
pub(crate) enum Callee<'a> {
    Node(&'a Node),
    Contract(WithModes<'a>),
}
