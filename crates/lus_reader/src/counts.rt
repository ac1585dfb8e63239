//! The numbers of occurrences.

ghost use Rattle.std.specs.Prelude.{◌≡◌, IfErr, IfOk};
ghost use Rattle.lus_grammar.specs.Phrase.{pres, arrows, calls};
ghost use Rattle.lus_grammar.specs.Syntax.{counted_on};
ghost use Rattle.lus_reader.specs.View.{counts_view};

use crate::stop::Stop;

/// How many `pre`, `->` and calls stand before a place of a declaration, each kind by itself.
#[derive(Clone, Copy, PartialEq, Eq, Debug)]
pub struct Counts {
    pub pres: u32,
    pub arrows: u32,
    pub calls: u32,
}

/// One more `pre`.
pub(crate) fn one_pre(counts: Counts) -> Result<Counts, Stop>
    ensures counted { IfOk result (λ c. counts_view c ≡ counted_on pres (counts_view counts)) }
    ensures full { IfErr result (λ e. e ≡ Stop.Memory) }
{
    match counts.pres.checked_add(1) {
        Some(pres) => Ok(Counts {
            pres,
            arrows: counts.arrows,
            calls: counts.calls,
        }),
        None => Err(Stop::Memory),
    }
}

/// One more `->`.
pub(crate) fn one_arrow(counts: Counts) -> Result<Counts, Stop>
    ensures counted { IfOk result (λ c. counts_view c ≡ counted_on arrows (counts_view counts)) }
    ensures full { IfErr result (λ e. e ≡ Stop.Memory) }
{
    match counts.arrows.checked_add(1) {
        Some(arrows) => Ok(Counts {
            pres: counts.pres,
            arrows,
            calls: counts.calls,
        }),
        None => Err(Stop::Memory),
    }
}

/// One more call.
pub(crate) fn one_call(counts: Counts) -> Result<Counts, Stop>
    ensures counted { IfOk result (λ c. counts_view c ≡ counted_on calls (counts_view counts)) }
    ensures full { IfErr result (λ e. e ≡ Stop.Memory) }
{
    match counts.calls.checked_add(1) {
        Some(calls) => Ok(Counts {
            pres: counts.pres,
            arrows: counts.arrows,
            calls,
        }),
        None => Err(Stop::Memory),
    }
}
