//! What a trace may list.

use crate::place::Subject;
use lus_tree::Sort;

/// An input, a free name or a first value of a frame: the numbers of the calls on the way to the frame, what it is, its
/// type, how many values a line of it has, and whether each of these has to be there; and the number of its slot among
/// the variables of the node's system.
#[derive(Drop)]
pub struct Listable<'a> {
    pub path: Vec<u32>,
    pub what: Subject<'a>,
    pub sort: Sort,
    pub count: u32,
    pub needed: bool,
    pub slot: u32,
}
