//! What is chosen from outside.

ghost use Rattle.std.specs.Prelude.{◌≡◌};
ghost use Rattle.lus_meaning.specs.TraceView.{entry_view};
ghost use Rattle.slot_sources.specs.Rows.{Choices};

use lus_meaning::Value;

/// The first values of memories, and what a trace lists.
pub trait Chosen {
    /// Both as contracts see them.
    ghost choices: { Self → Choices };

    /// The first value of the memory of a `pre`, by its slot.
    fn first(&self, slot: usize) -> Option<Value>
        ensures { entry_view result ≡ (choices self.now).first slot };

    /// What is listed of a slot at an instant.
    fn listed(&self, slot: usize, instant: u32) -> Option<Value>
        ensures { entry_view result ≡ (choices self.now).at slot instant };
}
