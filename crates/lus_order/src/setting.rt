//! What a place knows of the clocks of names, and of callees.

ghost use Rattle.std.specs.Prelude.{◌≡◌};
ghost use Rattle.lus_order.specs.Reads.{callees_view, clock_seen, clocks_view};

use name_table::NameTable;

/// The clocks of streams, by their names.
#[derive(Drop)]
pub(crate) struct Clocks<'a> {
    pub(crate) names: NameTable,
    pub(crate) clocks: Vec<Option<&'a str>>,
}

/// For each callee whether it reads its inputs at the same instant.
#[derive(Drop)]
pub(crate) struct Callees {
    pub(crate) names: NameTable,
    pub(crate) flags: Vec<Vec<bool>>,
}

impl<'a> Clocks<'a> {
    /// The name that says when a stream is on; none where it is on the base clock.
    pub(crate) fn clock(&self, name: &str) -> Option<&'a str>
        ensures { clock_seen result ≡ clocks_view self.now name.now }
    {
        let number = self.names.number(name)?;
        if number < self.clocks.len() {
            self.clocks[number]
        } else {
            None
        }
    }
}

impl Callees {
    /// Which inputs a callee reads.
    pub(crate) fn flags(&self, name: &str) -> &[bool]
        ensures { result.now ≡ callees_view self.now name.now }
    {
        match self.names.number(name) {
            Some(number) if number < self.flags.len() => &self.flags[number],
            Some(_) | None => &[],
        }
    }
}
