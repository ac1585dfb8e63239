//! What holds of the format of traces.

ghost use Rattle.trace_text.specs.Laws.{OneTrace, TraceOrMisfit, NeverBoth, OneMisfit, ReadBack};

/// Bytes are one trace at most.
pub fn one_trace()
    ensures { OneTrace }
{}

/// Bytes are a trace, or they have a first misfit.
pub fn trace_or_misfit()
    ensures { TraceOrMisfit }
{}

/// Bytes that are a trace have no misfit.
pub fn never_both()
    ensures { NeverBoth }
{}

/// Bytes have one first misfit at most.
pub fn one_misfit()
    ensures { OneMisfit }
{}

/// What is written of a trace whose parts are well formed is read back.
pub fn read_back()
    ensures { ReadBack }
{}
