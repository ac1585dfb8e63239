//! What a replay shows.

ghost use Rattle.std.specs.Prelude.{◌≡◌};
ghost use Rattle.lus_meaning.specs.TraceView.{entry_view};

use frame_names::FrameNames;
use lus_meaning::Value;
use slot_replay::Replayed;

/// At which instants properties break, how many instants are lawful, and the values of the names of the node and of the
/// frames of its calls.
#[derive(Drop)]
pub struct Replay {
    pub(crate) replayed: Replayed,
    pub(crate) frames: FrameNames,
    pub(crate) node: u32,
}

impl Replay {
    ghost use Rattle.program_replay.specs.Answer.{replay_view};

    /// The instant at which the property with this number breaks, if it does; they count from 0 in their order.
    pub fn breaks(&self, property: u32) -> Option<u32>
        ensures { result ≡ (replay_view self.now).breaks property }
    {
        self.replayed.breaks(property)
    }

    /// How many instants are lawful: the first ones.
    pub fn lawful(&self) -> u32
        ensures { result ≡ (replay_view self.now).lawful }
    {
        self.replayed.lawful()
    }

    /// The number of the node that the trace names, among the nodes and functions of the program.
    pub fn node(&self) -> u32
        ensures { result ≡ (replay_view self.now).node }
    {
        self.node
    }

    /// The value of a name at an instant in the frame at the end of a way of calls, which are counted from 1; none
    /// where it is absent, where the way leads to no frame, and where the name is none of that frame. What it has
    /// of a frame in which nothing is evaluated need not be the frame's.
    pub fn value(&self, path: &[u32], name: &str, instant: u32) -> Option<Value>
        ensures { entry_view result ≡ (replay_view self.now).value path.now name.now instant }
    {
        match self.frames.slot(path, name) {
            Some(slot) => self.replayed.value(slot, instant),
            None => None,
        }
    }
}
