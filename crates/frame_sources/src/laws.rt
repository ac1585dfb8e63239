//! What is resolved by the sight of a frame.

ghost use Rattle.frame_sources.specs.Laws.{ModesAreResolved, ResolutionsAreResolved, RightsAreResolved, SwitchesAreSwitches};

/// Where a sight finds what the translation finds, what is resolved by it is what is resolved by the numbers of the
/// frame's places: the modes of the contract, each expression, the right sides, and the slots that tell clocks.
pub fn resolutions_are_resolved()
    ensures modes { ModesAreResolved }
    ensures expressions { ResolutionsAreResolved }
    ensures rights { RightsAreResolved }
    ensures switches { SwitchesAreSwitches }
{}
