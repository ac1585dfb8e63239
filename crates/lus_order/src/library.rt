//! What is known of the declarations that others call and import.

ghost use Rattle.std.specs.Prelude.{◌≡◌, option_map, unwrap_or};
ghost use Rattle.lus_order.specs.Library.{known_view, library_view, nothing_known};

use crate::setting::Callees;
use name_table::NameTable;

/// A mode of a contract, with the inputs and outputs that its requires read.
#[derive(Drop)]
pub(crate) struct KnownMode<'a> {
    pub(crate) name: &'a str,
    pub(crate) reads: NameTable,
}

/// A declaration as its callers see it: its inputs and outputs, those inputs that some output reads at
/// the same instant, and the modes of its contract.
#[derive(Drop)]
pub(crate) struct Known<'a> {
    pub(crate) inputs: Vec<&'a str>,
    pub(crate) outputs: Vec<&'a str>,
    pub(crate) reads: NameTable,
    pub(crate) modes: Vec<KnownMode<'a>>,
}

/// Declarations by their names.
#[derive(Drop)]
pub(crate) struct Library<'a> {
    pub(crate) callees: Callees,
    pub(crate) summaries: Vec<Known<'a>>,
}

impl<'a> Library<'a> {
    /// What is known of a declaration.
    pub(crate) fn known(&self, name: &str) -> Option<&Known<'a>>
        ensures { unwrap_or (option_map (λ s. known_view s.now) result) nothing_known ≡ library_view self.now name.now }
    {
        let number = self.callees.names.number(name)?;
        if number < self.summaries.len() {
            Some(&self.summaries[number])
        } else {
            None
        }
    }
}
