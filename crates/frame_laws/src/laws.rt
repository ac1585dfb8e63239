//! The laws of frames.

ghost use Rattle.lus_meaning.specs.Squeeze.{SqueezeLaw};
ghost use Rattle.frame_laws.specs.Laws.{EachHasOneFrame};

/// Of a checked program each declaration has for each trace that fits it exactly one frame of the trace's number of
/// instants: a run whose inputs, free names and first values, at every depth of calls, are those that the trace lists.
pub fn one_frame()
    ensures { EachHasOneFrame }
{}

/// Of a checked program a run of a declaration on some beat is, without the instants at which the beat is false, a run
/// on every instant, and each expression has at each instant that is left the value that it had.
pub fn squeezed()
    ensures { SqueezeLaw }
{}
