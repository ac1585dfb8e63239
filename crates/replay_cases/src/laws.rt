//! The laws of traces and of their fit.

use lus_meaning::fit_or_misfit;
use trace_text::laws::{never_both, one_misfit, one_trace, read_back, trace_or_misfit};

/// Calls each law once.
pub fn all() {
    one_trace();
    trace_or_misfit();
    never_both();
    one_misfit();
    read_back();
    fit_or_misfit();
}
