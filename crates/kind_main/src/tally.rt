//! How many properties have which verdict.
ghost use Rattle.std.specs.Prelude.{◌≡◌, ◌+◌, ◌≤◌, ◌<◌, ◌^◌, IfOk, length};
ghost use Rattle.std.specs.String.{string_bytes};
ghost use Rattle.kind_main.specs.Verdicts.{Tally as Counts, outcome_view, outcomes_view, summary_line, tally_code, tally_of, counts_of, Grown};

use crate::outcome::Outcome;
use crate::status::Status;
use std::alloc::{AllocError, Global};

/// How many properties have which verdict.
#[derive(Clone, Copy)]
pub struct Tally {
    pub valid: u32,
    pub falsifiable: u32,
    pub unknown: u32,
}

impl Tally {
    /// One property more.
    fn and(self, outcome: &Outcome) -> Tally
        requires { self.valid + self.falsifiable + self.unknown < 500 }
        ensures { Grown (outcome_view outcome.now) (counts_of self) (counts_of result) }
    {
        match outcome {
            Outcome::Valid => Tally {
                valid: self.valid + 1,
                ..self
            },
            Outcome::Falsifiable { .. } => Tally {
                falsifiable: self.falsifiable + 1,
                ..self
            },
            Outcome::Unknown { .. } => Tally {
                unknown: self.unknown + 1,
                ..self
            },
        }
    }

    /// Counts them.
    pub fn of(outcomes: &[Outcome]) -> Tally
        requires { length outcomes.now ≤ 500 }
        ensures { counts_of result ≡ tally_of (outcomes_view outcomes.now) }
    {
        let mut tally = Tally {
            valid: 0,
            falsifiable: 0,
            unknown: 0,
        };
        for outcome in outcomes {
            tally = tally.and(outcome);
        }
        tally
    }

    /// The status of a proof: 1 where some property is falsifiable, else 4 where some is unknown,
    /// else 0.
    pub fn status(self) -> Status
        ensures { result.code ≡ tally_code (counts_of self) }
    {
        let code = if self.falsifiable > 0 {
            1
        } else if self.unknown > 0 {
            4
        } else {
            0
        };
        Status { code }
    }
}

/// `summary valid A falsifiable B unknown C`
pub fn summary_text(alloc: Global, tally: Tally) -> Result<String, AllocError>
    ensures { IfOk result (λ text. string_bytes text ≡ summary_line (counts_of tally)) }
{
    let valid = tally.valid;
    let falsifiable = tally.falsifiable;
    let unknown = tally.unknown;
    format!(in alloc; "summary valid {valid} falsifiable {falsifiable} unknown {unknown}\n")
}
