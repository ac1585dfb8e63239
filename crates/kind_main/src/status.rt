//! How the program ends.

/// The program's exit status. Of a proof: 0 where all properties are valid, 1 where some is falsifiable, 4
/// where none is and some is unknown. Of a replay: 1 where some property breaks, 10 where none does, 9 where
/// a value is outside 128 bits. Of both: 2 for words of no form that is built, 3 for a refused source or
/// trace, 5 where a file could not be read, 6 where the output could not be written, 7 for want of memory.
#[derive(Clone, Copy, PartialEq, Eq, Debug)]
pub struct Status {
    pub code: u8,
}
