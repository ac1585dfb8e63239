//! When a trace fits a program.

ghost use Rattle.lus_meaning.specs.Fits.{FitOrMisfit};

/// A trace fits a program exactly where it has no first word that doesn't fit.
pub fn fit_or_misfit()
    ensures { FitOrMisfit }
{}
