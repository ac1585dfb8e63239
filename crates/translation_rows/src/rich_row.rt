//! The worked program of `specs/RichRow.antt`, which has every form of the language at once.

ghost use Rattle.translation_rows.specs.RichRow.{RichBack, RichFirst, RichHere, RichLegal, RichNext, RichProperties, RichShapes, RichStates};

/// Its system, as an independent translation has it.
pub fn rich_system_row()
    ensures shapes { RichShapes }
    ensures first { RichFirst }
    ensures here { RichHere }
    ensures next { RichNext }
    ensures legal { RichLegal }
    ensures properties { RichProperties }
{}

/// The states of a frame of five instants.
pub fn rich_states_row()
    ensures { RichStates }
{}

/// The frame of these states is the one that they are of.
pub fn rich_frame_row()
    ensures { RichBack }
{}
