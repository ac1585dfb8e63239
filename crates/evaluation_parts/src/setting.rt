//! Where a text stands.

ghost use Rattle.std.specs.Prelude.{◌≡◌};
ghost use Rattle.lus_meaning.specs.Depends.{modes_need};
ghost use Rattle.evaluation_parts.specs.Needed.{modes_needs_view};
ghost use Rattle.evaluation_parts.specs.Views.{frame_instance};

use crate::frame::Frame;
use crate::mode_need::ModeNeeds;
use crate::text::{FrameText, ModeText};

/// Where a text stands: its frame, the calls on the way there, each by its number, what the modes of the frame
/// need, the texts of the frames of its calls, in the order of their numbers, and the modes that it may name.
#[derive(Clone, Copy)]
pub struct Setting<'a, 't, 's> {
    pub frame: Frame<'a, 't>,
    pub way: &'s [u32],
    pub needs: &'s [ModeNeeds<'a>],
    pub texts: &'s [FrameText<'a>],
    pub modes: &'s [ModeText<'a>],
    ghost known: { modes_needs_view needs.now ≡ modes_need (frame_instance frame) },
}
