//! What propagation came to.

ghost use Rattle.std.specs.Prelude.{◌≡◌, ◌+◌, ◌<◌, ◌≤◌, OnErr, IfOk, OnOk, All, map, length};
ghost use Rattle.proof_steps.specs.View.{step_view};
ghost use Rattle.sat_core.specs.Trail.{IsTrail};
ghost use Rattle.sat_core.specs.Held.{Covers, IsWithin, IsPlain};
ghost use Rattle.sat_core.specs.Shown.{AreTrueBeside, Grows};
ghost use Rattle.sat_core.specs.Analysis.{IsLast};
ghost use Rattle.sat_core.specs.Propagation.{IsFalseAt};
ghost use Rattle.sat_core.specs.Watching.{IsLonger, IsWatched, IsWatching};
ghost use Rattle.sat_core.specs.Looking.{weight};
ghost use Rattle.sat_core.specs.Charged.{AnswerCosts, IsKept, cost};
ghost use Rattle.sat_core.specs.Waiting.{IsReady};
ghost use Rattle.sat_core.specs.Answer.{IsEnded, IsAnswered};
ghost use Rattle.sat_core.specs.declared.answer.Answer.TheVariants.{Full};

use crate::assigned::Assigned;
use crate::assignment::Assignment;
use crate::derived::refuted;
use crate::order::Order;
use crate::propagation::run;
use crate::store::{ClauseStore, Looks};
use crate::watches::Watches;
use proof_steps::{Literal, Step};
use std::alloc::{AllocError, Global};

/// As many clauses as numbers can name.
pub const MOST: usize = 4294967295;

/// What propagation came to: all variables have values, or the numbered clause is false after a
/// decision, or it is false with none.
#[derive(Clone, Copy)]
pub enum Answer {
    Full,
    Conflict(u32),
    Empty(u32),
}

/// Derives the empty clause from a false one, unless it is known.
fn end(
    alloc: Global,
    clauses: &mut ClauseStore,
    watches: &mut Watches,
    log: &mut Vec<Step>,
    trail: &[Assigned],
    number: u32,
    head: usize,
    ended: bool,
) -> Result<(), AllocError>
    requires is_trail { IsTrail clauses.old trail.now }
    requires is_false { IsFalseAt clauses.old trail.now number }
    requires no_decision { IsLast trail.now None }
    requires watched { IsWatched clauses.old trail.now watches.old head }
    ensures ok { OnOk result (IsEnded ended clauses.old clauses.new
        (map step_view log.old.items) (map step_view log.new.items)) }
    ensures clauses { OnErr result (clauses.new ≡ clauses.old) }
    ensures log { OnErr result (log.new.items ≡ log.old.items) }
    ensures watched { IsWatched clauses.new trail.now watches.new head }
    ensures pairs { OnErr result (watches.new.pairs ≡ watches.old.pairs) }
    ensures longer { OnOk result (IsLonger watches.old.pairs watches.new.pairs) }
{
    if ended {
        return Ok(());
    }
    if clauses.len() >= MOST {
        return Err(AllocError);
    }
    refuted(alloc, clauses, watches, log, trail, number)?;
    Ok(())
}

/// Goes on with what is assigned; where a clause is false with no decision, derives the empty clause.
pub fn answered(
    alloc: Global,
    clauses: &mut ClauseStore,
    looks: &mut Looks,
    variables: &[Literal],
    watches: &mut Watches,
    log: &mut Vec<Step>,
    assignment: &mut Assignment,
    head: &mut usize,
    order: &mut Order,
    waiting: &[Assigned],
    stuck: Option<u32>,
    ended: bool,
) -> Result<Answer, AllocError>
    requires is_trail { IsTrail clauses.old assignment.old }
    requires covers { All (Covers variables.now) clauses.old }
    requires within { IsWithin variables.now assignment.old }
    requires plains { All IsPlain variables.now }
    requires ready { IsReady clauses.old assignment.old watches.old head.old waiting.now stuck }
    ensures answer { IfOk result (λ a. IsAnswered ended clauses.old
        clauses.new (map step_view log.old.items) (map step_view log.new.items) variables.now
        assignment.new a) }
    ensures beside { IfOk result (λ a. a ≡ Full → AreTrueBeside assignment.new watches.new.pairs) }
    ensures clauses { OnErr result (clauses.new ≡ clauses.old) }
    ensures log { OnErr result (log.new.items ≡ log.old.items) }
    ensures is_trail { IsTrail clauses.old assignment.new }
    ensures within { IsWithin variables.now assignment.new }
    ensures grows { Grows assignment.old assignment.new }
    ensures watched { IfOk result (λ a. IsWatched clauses.new assignment.new watches.new head.new) }
    ensures gone { IfOk result (λ a. a ≡ Full → head.new ≡ length assignment.new) }
    ensures watching { OnErr result (IsWatching clauses.new watches.new) }
    ensures kept { OnErr result (IsKept assignment.old (length assignment.old) watches.old watches.new) }
    ensures looks { IfOk result (λ a. (looks.new + weight clauses.old assignment.old
        ≤ looks.old + weight clauses.old assignment.new) × (looks.old ≤ looks.new)) }
    ensures cost { IfOk result (AnswerCosts clauses.old assignment.old
        (cost clauses.old assignment.old assignment.new watches.old.pairs watches.new.pairs) looks.old looks.new) }
{
    let Some(number) = run(
        alloc, clauses, looks, variables, watches, assignment, head, order, waiting, stuck,
    )?
    else {
        return Ok(Answer::Full);
    };
    let trail = assignment.trail();
    match trail.last_decision() {
        Some(_) => Ok(Answer::Conflict(number)),
        None => {
            end(
                alloc,
                clauses,
                watches,
                log,
                trail.entries,
                number,
                *head,
                ended,
            )?;
            Ok(Answer::Empty(number))
        }
    }
}
