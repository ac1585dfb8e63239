//! What stands where in the frames of a node.

/// A name, or the first value of the `pre` with this number, counted from 1.
#[derive(Clone, Copy, PartialEq, Eq, Hash)]
pub enum Subject<'a> {
    Name(&'a str),
    First(u32),
}

/// The numbers of the calls on the way to a frame, and what stands in the frame.
#[derive(Clone, Copy, PartialEq, Eq, Hash)]
pub struct Place<'a> {
    pub way: &'a [u32],
    pub what: Subject<'a>,
}
