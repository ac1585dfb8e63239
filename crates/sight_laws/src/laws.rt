//! Sights of frames that stand at a number.

ghost use Rattle.sight_laws.specs.Sights.{CallsAreCalls, CalleesAreThere, CalleesStand, ConstantsAreKnown, DefaultsAreKnown, FramesHaveRoom, SightsAreSights, SoFarIsKept, SoFarStands};

use steady_laws::laws::{constants_are_kept, texts_are_steady, values_are_kept};

/// In a checked program the constants that are known of a declaration have their values, and so have the defaults
/// of its calls.
pub fn constants_are_known()
    ensures constants { ConstantsAreKnown }
    ensures defaults { DefaultsAreKnown }
{
    constants_are_kept();
    values_are_kept();
    texts_are_steady();
}

/// The declaration that a call or an import names is found by its place, which in a checked program is that of a
/// declaration.
pub fn callees_are_there()
    ensures stand { CalleesStand }
    ensures there { CalleesAreThere }
{}

/// In a checked program a frame of at most 20,000 variables that stands at a number below 2^31 has no number that is
/// 2^32 or more.
pub fn frames_have_room()
    ensures { FramesHaveRoom }
{}

/// In a checked program the sight of a frame that stands at a number finds what the translation finds: its calls are
/// those of the translation, with the numbers of their beats and outputs and of what holds these (`calls`), and it is a
/// sight of the stage over the declaration's instance (`sights`).
pub fn sights_are_sights()
    ensures calls { CallsAreCalls }
    ensures sights { SightsAreSights }
{
    constants_are_known();
}

/// A frame keeps whether its assumptions were true so far where the translation says so; and in a checked program this
/// has in a frame that stands at a number the number that is known of it.
pub fn so_far_stands()
    ensures kept { SoFarIsKept }
    ensures number { SoFarStands }
{}
