//! The clocks of a declaration's numbered occurrences.

ghost use Rattle.std.specs.Prelude.{◌≡◌, None, IfOk, unwrap_or};
ghost use Rattle.lus_meaning.specs.ClockFaults.{or_else};
ghost use Rattle.lus_meaning.specs.Scene.{base};
ghost use Rattle.lus_clocks.specs.Cells.{clock_given};
ghost use Rattle.lus_streams.specs.Clocks.{clock_seen};
ghost use Rattle.lus_clocks.specs.Sought.{if_there, is_arrow, is_call, is_pre};
ghost use Rattle.lus_clocks.specs.Table.{Writes, kept};

use crate::cells::{Cell, Sampling, read, write};
use crate::occurrence::Occurrence;
use lus_streams::clock::Clock;
use std::alloc::{AllocError, Global};

/// The clocks of a declaration's numbered occurrences, each kind by its numbers.
#[derive(Drop)]
pub(crate) struct Table {
    pub(crate) pres: Vec<Cell>,
    pub(crate) arrows: Vec<Cell>,
    pub(crate) calls: Vec<Cell>,
}

impl Table {
    /// No clock.
    pub(crate) fn new(alloc: Global) -> Self
        ensures { (s : Occurrence) → kept result s ≡ None }
    {
        Table {
            pres: Vec::new(alloc),
            arrows: Vec::new(alloc),
            calls: Vec::new(alloc),
        }
    }

    /// Writes the clock of a `pre`, where none of its number was written.
    pub(crate) fn pre(
        &mut self,
        alloc: Global,
        number: u32,
        clock: Clock<'_>,
    ) -> Result<(), AllocError>
        ensures { IfOk result (λ _. Writes self.old self.new
            (λ s. if_there (is_pre s number) (clock_seen clock.entry))) }
    {
        write(alloc, &mut self.pres, number, clock)
    }

    /// The same of an `->`.
    pub(crate) fn arrow(
        &mut self,
        alloc: Global,
        number: u32,
        clock: Clock<'_>,
    ) -> Result<(), AllocError>
        ensures { IfOk result (λ _. Writes self.old self.new
            (λ s. if_there (is_arrow s number) (clock_seen clock.entry))) }
    {
        write(alloc, &mut self.arrows, number, clock)
    }

    /// The same of a call or import.
    pub(crate) fn call(
        &mut self,
        alloc: Global,
        number: u32,
        clock: Clock<'_>,
    ) -> Result<(), AllocError>
        ensures { IfOk result (λ _. Writes self.old self.new
            (λ s. if_there (is_call s number) (clock_seen clock.entry))) }
    {
        write(alloc, &mut self.calls, number, clock)
    }

    /// The clock of an occurrence, where it isn't the base clock.
    pub(crate) fn clock(&self, occurrence: Occurrence) -> Option<&Sampling>
        ensures { clock_given result ≡ unwrap_or (kept self.now occurrence) base }
    {
        match occurrence {
            Occurrence::Pre(number) => read(&self.pres, number),
            Occurrence::Arrow(number) => read(&self.arrows, number),
            Occurrence::Call(number) => read(&self.calls, number),
        }
    }
}
