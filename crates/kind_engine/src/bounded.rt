//! Bounded search.

ghost use Rattle.std.specs.Prelude.{◌≡◌, ◌<◌, ◌≤◌, ◌^◌, ◌+◌, List, [], length, take, true, false, Some, Ok, IfOk, OnOk, IsErr, is_err};
ghost use Rattle.sys_terms.specs.View.{Machine, system_view};
ghost use Rattle.sys_terms.specs.Fits.{IsMild};
ghost use Rattle.board_core.specs.declared.plan.Plan.{Plan as Options};
ghost use Rattle.board_core.specs.Plans.{IsPlan};
ghost use Rattle.board_core.specs.Entries.{Posting};
ghost use Rattle.board_core.specs.Seats.{Begins, DecidesAll, HasCauses};
ghost use Rattle.board_core.specs.declared.engine.Progress.TheVariants.{More, Spent, Decided};
ghost use Rattle.kind_engine.specs.Tasks.{AreTasks};
ghost use Rattle.kind_engine.specs.Posts.{Grows, TellsFirstWide};
ghost use Rattle.kind_engine.specs.Engines.{worker_machine, worker_plan, worker_known, worker_steps, is_over};

use crate::lemmas::Lemmas;
use crate::subject::Subject;
use crate::task::{Search, Task};
use crate::turning::{Turned, after_read};
use board_core::{BoardSeat, Book, Engine, EngineFault, Plan, Progress};
use std::alloc::{AllocError, Global};
use std::marker::Model;
use std::snapshot::Snapshot;
use sys_terms::System;

/// Looks for a break of each property at the instants from 0 on, an instant a turn, up to the depth
/// of its plan. It cites no lemma. Its number is 0.
///
/// A property that it finds broken it posts at once. The turn behind the depth posts, for each property
/// that what was read leaves undecided, that its instants are refuted and that the search went to its
/// depth; or, where an instant is left open, why, with the proofs of the instants before: its query or its
/// narrow query stopped, or only paths with a number of size 2^63 or more break the property there.
/// After want of memory each further turn answers it again.
#[derive(Drop)]
pub struct BoundedEngine {
    subject: Subject,
    search: Option<Search>,
    known: Option<Snapshot<Book>>,
}

impl Model for BoundedEngine {
    ghost use Rattle.std.specs.Coded.{codes};
    ghost use Rattle.sys_terms.specs.contracts.term.Term as e;
    ghost use Rattle.kind_engine.specs.Engines.{Worker, IsWorker};

    ghost Value = { Worker };

    ghost coded = { Prim.hlevel (codes, e.the_row.coded) };

    ghost view = { λ b. (b.subject, b.search, b.known) };

    ghost invariant = { λ b. IsWorker 0 (b.subject, b.search, b.known) };
}

/// The number of bounded search.
const BOUNDED: u32 = 0;

/// No instant of a property is refuted yet.
fn first_tasks(alloc: Global, count: u32) -> Result<Vec<Task>, AllocError>
    ensures { IfOk result (λ ts. (length ts.items ≡ count)
        × ((m : Machine) (plan : Options) (known : List Posting) → AreTasks m plan known 0 0 0 ts.items)) }
{
    let mut tasks = Vec::with_capacity(alloc, count as usize)?;
    for i in 0..count {
        tasks.push(Task::Refuted(Vec::new(alloc)))?;
    }
    Ok(tasks)
}

impl BoundedEngine {
    /// An engine that knows nothing yet.
    ///
    /// # Errors
    ///
    /// Only want of memory, or more properties than 32 bits number.
    pub fn new(alloc: Global, system: System, plan: Plan) -> Result<BoundedEngine, EngineFault>
        requires mild { IsMild (system_view system) }
        requires few { length (system_view system).shapes < 2 ^ 32 }
        requires plan { IsPlan plan }
        ensures system { IfOk result (λ e. worker_machine e ≡ system_view system) }
        ensures plan { IfOk result (λ e. worker_plan e ≡ plan) }
        ensures known { IfOk result (λ e. worker_known e ≡ []) }
        ensures searches { IfOk result (λ e. is_over e ≡ false) }
        ensures left { IfOk result (λ e. worker_steps e ≡ plan.depth + 2) }
    {
        let Ok(count) = u32::try_from(system.properties.len()) else {
            return Err(EngineFault::Memory);
        };
        let tasks = first_tasks(alloc, count)?;
        Ok(BoundedEngine {
            subject: Subject {
                system,
                plan,
                engine: BOUNDED,
            },
            search: Some(Search {
                turn: 0,
                lemmas: Lemmas {
                    front: 0,
                    cites: Vec::new(alloc),
                },
                tasks,
            }),
            known: None,
        })
    }
}

impl Engine for BoundedEngine {
    ghost number = { λ e. Some 0 };

    ghost machine = { λ e. Some (worker_machine e) };

    ghost plan = { λ e. Some (worker_plan e) };

    ghost known = { λ e. worker_known e };

    ghost owed = { λ e. [] };

    ghost steps = { λ e. worker_steps e };

    ghost turn_gives = { λ e before p f after. Grows TellsFirstWide before.number before.seen after.seen };

    /// As `Engine` says; besides, a turn reads once, and a cause `wide` names, of the values of size 2^63 or more
    /// in its path, that of the variable of the smallest number, at its first such instant. After want of memory
    /// the engine is over: each further turn answers it again.
    fn turn<B: BoardSeat>(&mut self, alloc: Global, seat: &mut B) -> Result<Progress, EngineFault>
        requires machine { worker_machine self.old ≡ B.machine seat.old }
        requires plan { worker_plan self.old ≡ B.plan seat.old }
        requires known { Begins (worker_known self.old) (B.seen seat.old) }
        requires front { B.front seat.old ≤ length (worker_known self.old) }
        ensures same { (worker_machine self.new ≡ worker_machine self.old) × (worker_plan self.new ≡ worker_plan self.old) }
        ensures seat { (B.number seat.new ≡ B.number seat.old) × (B.machine seat.new ≡ B.machine seat.old)
            × (B.plan seat.new ≡ B.plan seat.old) × (B.lent seat.new ≡ B.lent seat.old) }
        ensures seen { Begins (B.seen seat.old) (B.seen seat.new) }
        ensures known { Begins (worker_known self.new) (B.seen seat.new) }
        ensures front { OnOk result (B.front seat.new ≤ length (worker_known self.new)) }
        ensures decided { result ≡ Ok Decided
            → DecidesAll (take (B.front seat.new) (B.seen seat.new)) (length (B.machine seat.new).properties) }
        ensures at_once { OnOk result (
            DecidesAll (take (B.front seat.new) (B.seen seat.new)) (length (B.machine seat.new).properties)
            → result ≡ Ok Decided) }
        ensures spent { result ≡ Ok Spent
            → HasCauses (take (B.front seat.new) (B.seen seat.new)) (B.seen seat.new) (B.number seat.new)
            (Some 0) (length (B.machine seat.new).properties) }
        ensures falls { result ≡ Ok More → worker_steps self.new < worker_steps self.old }

        ensures reads { OnOk result (B.reads seat.new ≡ B.reads seat.old + 1) }
        ensures wide { OnOk result (Grows TellsFirstWide (B.number seat.old) (B.seen seat.old) (B.seen seat.new)) }
        ensures over { is_over self.new ≡ is_err result }
        ensures stays_over { is_over self.old ≡ true → IsErr result }
    {
        let Some(search) = self.search.take() else {
            return Err(EngineFault::Memory);
        };
        let news = seat.read(alloc)?;
        drop(news);
        let Turned { progress, search } = after_read(alloc, &self.subject, seat, search)?;
        self.search = Some(search);
        self.known = Some(seat.seen());
        Ok(progress)
    }

    fn left(&self) -> u64 {
        match &self.search {
            Some(search) => self.subject.plan.depth as u64 + 2 - search.turn as u64,
            None => 0,
        }
    }
}
