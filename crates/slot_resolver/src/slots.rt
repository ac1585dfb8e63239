//! Where the slots of a declaration's frame are.

ghost use Rattle.std.specs.Prelude.{◌≡◌, IfOk, option_map, option_to_list};
ghost use Rattle.sys_meaning.specs.Slot.{memory, named, own, starting};
ghost use Rattle.slot_values.specs.Resolution.{resolved_view};
ghost use Rattle.slot_values.specs.Resolved.{Numbering, name_resolution, mode_resolution};
ghost use Rattle.slot_resolver.specs.Found.{found_view, output_found, held_found};

use lus_meaning::Value;
use slot_values::Resolved;
use std::alloc::{AllocError, Global};

/// What a name stands for.
#[derive(Clone, Copy, Debug)]
pub enum Found {
    /// A constant with this value; none where it has no value.
    Constant(Option<Value>),
    /// The slot with this number.
    Slot(u32),
}

/// The slots of a call that runs while a condition is true: of the callee's beat, of its first output, and of what is
/// held of that.
#[derive(Clone, Copy, Debug)]
pub struct Held {
    pub beat: u32,
    pub output: u32,
    pub held: u32,
}

/// The numbers of the slots of a declaration's frame, counted from its first one.
pub trait Slots {
    /// The numbers as contracts see them.
    ghost numbering: { Self → Numbering };

    /// What a name stands for.
    fn name(&self, name: &str) -> Found
        ensures { found_view result ≡ name_resolution (numbering self.now) name.now };

    /// The slot of a name that is no constant.
    fn stream(&self, name: &str) -> u32
        ensures { result ≡ (numbering self.now).number (own (named name.now)) };

    /// The slot of the memory of the `pre` occurrence with this number.
    fn memory(&self, number: u32) -> u32
        ensures { result ≡ (numbering self.now).number (own (memory number)) };

    /// The slot that is true where the `->` occurrence with this number starts.
    fn start(&self, number: u32) -> u32
        ensures { result ≡ (numbering self.now).number (own (starting number)) };

    /// The slot of the first output of the call with this number; none where it has none.
    fn output(&self, number: u32) -> Option<u32>
        ensures { result ≡ output_found (numbering self.now) number };

    /// The slots of the call with this number, if it runs while a condition is true; none where it has no output.
    fn held(&self, number: u32) -> Option<Held>
        ensures { result ≡ held_found (numbering self.now) number };

    /// What a mode asks. The only error is want of memory.
    fn mode(
        &self,
        alloc: Global,
        contract: Option<&str>,
        mode: &str,
    ) -> Result<Resolved, AllocError>
        ensures { IfOk result (λ r. resolved_view r ≡ mode_resolution (numbering self.now)
            (option_to_list (option_map (λ c. c.now) contract.entry), mode.now)) };
}
