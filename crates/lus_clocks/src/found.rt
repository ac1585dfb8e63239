//! What is known of a part of an expression.

use lus_streams::clock::Clock;
use lus_tree::Pos;

/// What is known of a part of an expression: where it begins, and its clock, where it holds a name
/// or a call.
#[derive(Clone, Copy)]
pub(crate) struct Part<'a> {
    pub(crate) from: Pos,
    pub(crate) clock: Option<Clock<'a>>,
}
