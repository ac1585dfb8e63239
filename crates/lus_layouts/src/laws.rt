//! What the layouts of frames say.

ghost use Rattle.lus_layouts.specs.Fitting.{CalleesFit, NodesFit};
ghost use Rattle.lus_layouts.specs.Layouts.{LayoutsHold};

/// In a checked program the slots of a declaration's frame that has at most 20,000 variables stand where its layout
/// says: its own cells first, and for each call the outputs that are held right before the callee's frame, whose
/// slots are those of the callee in that call.
pub fn layouts_hold()
    ensures { LayoutsHold }
{}

/// The frames of the nodes and functions of a program that is within the limits have at most 20,000 variables; and in a
/// checked program so have those of all that is called from a frame that has.
pub fn frames_fit()
    ensures nodes { NodesFit }
    ensures callees { CalleesFit }
{}
