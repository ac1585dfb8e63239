//! Induction over several states.

ghost use Rattle.std.specs.Prelude.{◌≡◌, ◌<◌, ◌≤◌, ◌^◌, ◌+◌, List, [], length, take, true, false, Some, Ok, IfOk, OnOk, IsErr, is_err};
ghost use Rattle.sys_terms.specs.View.{Machine, system_view};
ghost use Rattle.sys_terms.specs.Fits.{IsMild};
ghost use Rattle.board_core.specs.declared.plan.Plan.{Plan as Options};
ghost use Rattle.board_core.specs.Plans.{IsPlan};
ghost use Rattle.board_core.specs.Entries.{Posting};
ghost use Rattle.board_core.specs.Seats.{Begins, DecidesAll, HasCauses};
ghost use Rattle.board_core.specs.declared.engine.Progress.TheVariants.{More, Spent, Decided};
ghost use Rattle.kind_engine.specs.Tasks.{AreTasks};
ghost use Rattle.kind_engine.specs.Posts.{Grows, IsBehind, TellsFirstWide};
ghost use Rattle.kind_engine.specs.Engines.{worker_machine, worker_plan, worker_known, worker_steps, is_over, worker_front};

use crate::lemmas::{Lemmas, read_lemmas};
use crate::subject::Subject;
use crate::task::{Search, Task};
use crate::turning::{Turned, after_read};
use board_core::{BoardSeat, Book, Engine, EngineFault, Plan, Progress};
use std::alloc::{AllocError, Global};
use std::marker::Model;
use std::snapshot::Snapshot;
use sys_terms::System;

/// Proves each property by the step by k states, k from 1 on, a k a turn, up to the depth of its plan. It
/// cites each lemma that it has read. Its number is 1.
///
/// Where the step by k states is refuted it asks about the instants below k itself, with the same lemmas.
/// Where they are refuted too it posts the base, the step and that the property is held; where one breaks,
/// that break. A property whose step by as many states as the depth is not refuted is posted as stuck, at
/// the path that answers it. The turn behind the depth posts, for each property that what was read leaves
/// undecided, that the search went to its depth; or, where a query stopped or an instant below k is broken
/// with a number of size 2^63 or more alone, that, with what shows that it was to be asked. After want of
/// memory each further turn answers it again.
#[derive(Drop)]
pub struct StepEngine {
    subject: Subject,
    search: Option<Search>,
    known: Option<Snapshot<Book>>,
}

impl Model for StepEngine {
    ghost use Rattle.std.specs.Coded.{codes};
    ghost use Rattle.sys_terms.specs.contracts.term.Term as e;
    ghost use Rattle.kind_engine.specs.Engines.{Worker, IsWorker};

    ghost Value = { Worker };

    ghost coded = { Prim.hlevel (codes, e.the_row.coded) };

    ghost view = { λ b. (b.subject, b.search, b.known) };

    ghost invariant = { λ b. IsWorker 1 (b.subject, b.search, b.known) };
}

/// The number of induction.
const STEP: u32 = 1;

/// Each property is at the step by one state.
fn first_tasks(alloc: Global, count: u32) -> Result<Vec<Task>, AllocError>
    ensures { IfOk result (λ ts. (length ts.items ≡ count)
        × ((m : Machine) (plan : Options) (known : List Posting) → 1 ≤ plan.depth
        → AreTasks m plan known 1 1 0 ts.items)) }
{
    let mut tasks = Vec::with_capacity(alloc, count as usize)?;
    for i in 0..count {
        tasks.push(Task::Run(Vec::new(alloc)))?;
    }
    Ok(tasks)
}

impl StepEngine {
    /// An engine that knows nothing yet.
    ///
    /// # Errors
    ///
    /// Only want of memory, or more properties than 32 bits number.
    pub fn new(alloc: Global, system: System, plan: Plan) -> Result<StepEngine, EngineFault>
        requires mild { IsMild (system_view system) }
        requires few { length (system_view system).shapes < 2 ^ 32 }
        requires plan { IsPlan plan }
        ensures system { IfOk result (λ e. worker_machine e ≡ system_view system) }
        ensures plan { IfOk result (λ e. worker_plan e ≡ plan) }
        ensures known { IfOk result (λ e. worker_known e ≡ []) }
        ensures searches { IfOk result (λ e. is_over e ≡ false) }
        ensures left { IfOk result (λ e. worker_steps e ≡ plan.depth + 1) }
        ensures front { IfOk result (λ e. worker_front e ≡ 0) }
    {
        let Ok(count) = u32::try_from(system.properties.len()) else {
            return Err(EngineFault::Memory);
        };
        let tasks = first_tasks(alloc, count)?;
        Ok(StepEngine {
            subject: Subject {
                system,
                plan,
                engine: STEP,
            },
            search: Some(Search {
                turn: 1,
                lemmas: Lemmas {
                    front: 0,
                    cites: Vec::new(alloc),
                },
                tasks,
            }),
            known: None,
        })
    }
}

impl Engine for StepEngine {
    ghost number = { λ e. Some 1 };

    ghost machine = { λ e. Some (worker_machine e) };

    ghost plan = { λ e. Some (worker_plan e) };

    ghost known = { λ e. worker_known e };

    ghost owed = { λ e. [] };

    ghost steps = { λ e. worker_steps e };

    ghost turn_gives = { λ e before p f after. Grows TellsFirstWide before.number before.seen after.seen };

    /// As `Engine` says; besides, a turn reads once. Where the engine has taken up all that the reads at
    /// this seat have answered, as a new engine has at a new seat, it has so after the turn, and a path at
    /// which it is stuck has a front no less than the length of what the seat had seen before the turn. A cause
    /// `wide` names, of the values of size 2^63 or more in its path, that of the variable of the smallest number, at
    /// its first such instant. After want of memory the engine is over: each further turn answers it again.
    fn turn<B: BoardSeat>(&mut self, alloc: Global, seat: &mut B) -> Result<Progress, EngineFault>
        requires machine { worker_machine self.old ≡ B.machine seat.old }
        requires plan { worker_plan self.old ≡ B.plan seat.old }
        requires known { Begins (worker_known self.old) (B.seen seat.old) }
        requires front { B.front seat.old ≤ length (worker_known self.old) }
        ensures same { (worker_machine self.new ≡ worker_machine self.old) × (worker_plan self.new ≡ worker_plan self.old) }
        ensures seat { (B.number seat.new ≡ B.number seat.old) × (B.machine seat.new ≡ B.machine seat.old)
            × (B.plan seat.new ≡ B.plan seat.old) × (B.lent seat.new ≡ B.lent seat.old) }
        ensures seen { Begins (B.seen seat.old) (B.seen seat.new) }
        ensures known { Begins (worker_known self.new) (B.seen seat.new) }
        ensures front { OnOk result (B.front seat.new ≤ length (worker_known self.new)) }
        ensures decided { result ≡ Ok Decided
            → DecidesAll (take (B.front seat.new) (B.seen seat.new)) (length (B.machine seat.new).properties) }
        ensures at_once { OnOk result (
            DecidesAll (take (B.front seat.new) (B.seen seat.new)) (length (B.machine seat.new).properties)
            → result ≡ Ok Decided) }
        ensures spent { result ≡ Ok Spent
            → HasCauses (take (B.front seat.new) (B.seen seat.new)) (B.seen seat.new) (B.number seat.new)
            (Some 1) (length (B.machine seat.new).properties) }
        ensures falls { result ≡ Ok More → worker_steps self.new < worker_steps self.old }

        ensures reads { OnOk result (B.reads seat.new ≡ B.reads seat.old + 1) }
        ensures wide { OnOk result (Grows TellsFirstWide (B.number seat.old) (B.seen seat.old) (B.seen seat.new)) }
        ensures over { is_over self.new ≡ is_err result }
        ensures stays_over { is_over self.old ≡ true → IsErr result }
        ensures stuck { OnOk result (B.front seat.old ≤ worker_front self.old
            → Grows (IsBehind (length (B.seen seat.old))) (B.number seat.old) (B.seen seat.old) (B.seen seat.new)) }
        ensures taken { OnOk result (B.front seat.old ≤ worker_front self.old → B.front seat.new ≤ worker_front self.new) }
    {
        let Some(search) = self.search.take() else {
            return Err(EngineFault::Memory);
        };
        let Search {
            turn,
            lemmas,
            tasks,
        } = search;
        let lemmas = read_lemmas(alloc, seat, lemmas)?;
        let search = Search {
            turn,
            lemmas,
            tasks,
        };
        let Turned { progress, search } = after_read(alloc, &self.subject, seat, search)?;
        self.search = Some(search);
        self.known = Some(seat.seen());
        Ok(progress)
    }

    fn left(&self) -> u64 {
        match &self.search {
            Some(search) => self.subject.plan.depth as u64 + 2 - search.turn as u64,
            None => 0,
        }
    }
}
