//! How the properties of a source are decided.

ghost use Rattle.std.specs.Prelude.{◌≡◌};
ghost use Rattle.kind_main.specs.Options.{number_of, numbers_in, numbers_of, options_plan};

use board_core::Plan;
use proof_steps::Budgets;

/// An engine by its name.
#[derive(Clone, Copy, Debug, PartialEq, Eq)]
pub enum EngineName {
    Bounded,
    Step,
}

impl EngineName {
    /// The number under which its causes stand in a book, which is also that of its seat.
    pub fn number(self) -> u32
        ensures { result ≡ number_of self }
    {
        match self {
            EngineName::Bounded => 0,
            EngineName::Step => 1,
        }
    }
}

/// The engines that play, in the order in which their causes are printed.
#[derive(Clone, Copy, Debug, PartialEq, Eq)]
pub enum Engines {
    Bounded,
    Step,
    BoundedStep,
    StepBounded,
}

impl Engines {
    /// The first one, and the second one where there are two.
    pub fn names(self) -> (EngineName, Option<EngineName>)
        ensures { numbers_in result ≡ numbers_of self }
    {
        match self {
            Engines::Bounded => (EngineName::Bounded, None),
            Engines::Step => (EngineName::Step, None),
            Engines::BoundedStep => (EngineName::Bounded, Some(EngineName::Step)),
            Engines::StepBounded => (EngineName::Step, Some(EngineName::Bounded)),
        }
    }
}

/// The depth of the search, and the engines.
#[derive(Clone, Copy, Debug, PartialEq, Eq)]
pub struct Options {
    pub depth: u32,
    pub engines: Engines,
}

impl Options {
    /// How much the engines may do.
    pub fn plan(self) -> Plan
        ensures { result ≡ options_plan self }
    {
        Plan {
            depth: self.depth,
            frames: 30,
            blocked: 5_000,
            budgets: Budgets {
                conflicts: 100_000,
                splits: 2_000,
                pivots: 200_000,
            },
        }
    }
}
