//! A turn after its read.

ghost use Rattle.std.specs.Prelude.{◌≡◌, ◌<◌, ◌≤◌, ℕ, length, suc, take, true, false, Some, IfOk, OnOk};
ghost use Rattle.sys_terms.specs.View.{system_view};
ghost use Rattle.cert_rules.specs.View.{cites_view};
ghost use Rattle.board_core.specs.Seats.{Begins, DecidesAll, HasCauses, has_cause};
ghost use Rattle.board_core.specs.Verdicts.{decides};
ghost use Rattle.board_core.specs.declared.engine.Progress.TheVariants.{More, Spent, Decided};
ghost use Rattle.kind_engine.specs.Ready.{IsReady};
ghost use Rattle.kind_engine.specs.Lemmas.{AreLemmas};
ghost use Rattle.kind_engine.specs.Posts.{Grows, IsPost};
ghost use Rattle.kind_engine.specs.Tasks.{IsTask, AreTasks, IsSearch};
ghost use Rattle.kind_engine.specs.Engines.{turns_of};

use crate::halted::post_halted;
use crate::lemmas::Lemmas;
use crate::posting::post_spent;
use crate::searching::at_next_instant;
use crate::stepping::at_next_step;
use crate::subject::Subject;
use crate::task::{Search, Task};
use board_core::{BoardSeat, Cause, EngineFault, Kept, Progress};
use std::alloc::Global;

/// Whether what was read decides each property.
fn all_decided<B: BoardSeat>(seat: &B, count: u32) -> bool
    ensures all { result ≡ true → DecidesAll (take (B.front seat.now) (B.seen seat.now)) count }
    ensures at_once { DecidesAll (take (B.front seat.now) (B.seen seat.now)) count → result ≡ true }
{
    for property in 0..count {
        if !seat.decided(property) {
            return false;
        }
    }
    true
}

/// The task of the property after this turn.
fn advanced<B: BoardSeat>(
    alloc: Global,
    subject: &Subject,
    seat: &mut B,
    turn: u32,
    lemmas: &Lemmas,
    property: u32,
    task: Task,
) -> Result<Task, EngineFault>
    requires ready { IsReady (system_view subject.now.system) subject.now.plan }
    requires book { (B.machine seat.old ≡ system_view subject.now.system) × (B.plan seat.old ≡ subject.now.plan) }
    requires lemmas { AreLemmas (system_view subject.now.system) (B.seen seat.old) lemmas.now.front
        (cites_view lemmas.now.cites.items) }
    requires named { property < length (system_view subject.now.system).properties }
    requires task { IsTask (system_view subject.now.system) subject.now.plan (B.seen seat.old)
        subject.now.engine turn property task }
    ensures seat { (B.number seat.new ≡ B.number seat.old) × (B.machine seat.new ≡ B.machine seat.old)
        × (B.plan seat.new ≡ B.plan seat.old) × (B.lent seat.new ≡ B.lent seat.old) }
    ensures front { B.front seat.new ≡ B.front seat.old }
    ensures reads { B.reads seat.new ≡ B.reads seat.old }
    ensures seen { Begins (B.seen seat.old) (B.seen seat.new) }
    ensures posts { OnOk result (Grows (IsPost lemmas.now.front) (B.number seat.old) (B.seen seat.old) (B.seen seat.new)) }
    ensures task { IfOk result (λ t. IsTask (system_view subject.now.system) subject.now.plan (B.seen seat.new)
        subject.now.engine (suc turn) property t) }
{
    if seat.decided(property) {
        return Ok(Task::Decided);
    }
    match task {
        Task::Refuted(proofs) => at_next_instant(alloc, subject, seat, property, proofs),
        Task::Run(run) => at_next_step(alloc, subject, seat, property, turn, lemmas, run),
        Task::Halted(halted) => Ok(Task::Halted(halted)),
        Task::Ended => Ok(Task::Ended),
        Task::Decided => Ok(Task::Decided),
    }
}

/// The tasks after this turn.
fn all_advanced<B: BoardSeat>(
    alloc: Global,
    subject: &Subject,
    seat: &mut B,
    turn: u32,
    lemmas: &Lemmas,
    tasks: Vec<Task>,
) -> Result<Vec<Task>, EngineFault>
    requires ready { IsReady (system_view subject.now.system) subject.now.plan }
    requires book { (B.machine seat.old ≡ system_view subject.now.system) × (B.plan seat.old ≡ subject.now.plan) }
    requires lemmas { AreLemmas (system_view subject.now.system) (B.seen seat.old) lemmas.now.front
        (cites_view lemmas.now.cites.items) }
    requires count { length tasks.items ≡ length (system_view subject.now.system).properties }
    requires tasks { AreTasks (system_view subject.now.system) subject.now.plan (B.seen seat.old)
        subject.now.engine turn 0 tasks.items }
    ensures seat { (B.number seat.new ≡ B.number seat.old) × (B.machine seat.new ≡ B.machine seat.old)
        × (B.plan seat.new ≡ B.plan seat.old) × (B.lent seat.new ≡ B.lent seat.old) }
    ensures front { B.front seat.new ≡ B.front seat.old }
    ensures reads { B.reads seat.new ≡ B.reads seat.old }
    ensures seen { Begins (B.seen seat.old) (B.seen seat.new) }
    ensures posts { OnOk result (Grows (IsPost lemmas.now.front) (B.number seat.old) (B.seen seat.old) (B.seen seat.new)) }
    ensures count { IfOk result (λ ts. length ts.items ≡ length (system_view subject.now.system).properties) }
    ensures tasks { IfOk result (λ ts. AreTasks (system_view subject.now.system) subject.now.plan (B.seen seat.new)
        subject.now.engine (suc turn) 0 ts.items) }
{
    let mut next = Vec::with_capacity(alloc, tasks.len())?;
    for task in tasks {
        let property = next.len() as u32;
        next.push(advanced(alloc, subject, seat, turn, lemmas, property, task)?)?;
    }
    Ok(next)
}

/// Posts why the property is undecided.
fn report<B: BoardSeat>(
    alloc: Global,
    subject: &Subject,
    seat: &mut B,
    property: u32,
    task: &Task,
) -> Result<(), EngineFault>
    requires book { (B.machine seat.old ≡ system_view subject.now.system) × (B.plan seat.old ≡ subject.now.plan) }
    requires task { IsTask (system_view subject.now.system) subject.now.plan
        (take (B.front seat.old) (B.seen seat.old)) subject.now.engine (suc subject.now.plan.depth) property task.now }
    requires undecided { decides property (take (B.front seat.old) (B.seen seat.old)) ≡ false }
    ensures seat { (B.number seat.new ≡ B.number seat.old) × (B.machine seat.new ≡ B.machine seat.old)
        × (B.plan seat.new ≡ B.plan seat.old) × (B.lent seat.new ≡ B.lent seat.old) }
    ensures front { B.front seat.new ≡ B.front seat.old }
    ensures reads { B.reads seat.new ≡ B.reads seat.old }
    ensures seen { Begins (B.seen seat.old) (B.seen seat.new) }
    ensures posts { OnOk result ((least : ℕ) → Grows (IsPost least) (B.number seat.old) (B.seen seat.old) (B.seen seat.new)) }
    ensures cause { OnOk result (has_cause (B.number seat.old) subject.now.engine property (B.seen seat.new) ≡ true) }
{
    match task {
        Task::Halted(halted) => post_halted(alloc, seat, subject.engine, property, halted),
        Task::Ended => {
            let kept = Kept {
                query: None,
                proofs: Vec::new(alloc),
                paths: Vec::new(alloc),
                terms: Vec::new(alloc),
            };
            let cause = Cause::Depth(subject.plan.depth);
            post_spent(seat, subject.engine, property, cause, kept)
        }
        Task::Refuted(_) | Task::Run(_) | Task::Decided => unreachable!(),
    }
}

/// Posts for each property that what was read leaves undecided why it is.
fn report_all<B: BoardSeat>(
    alloc: Global,
    subject: &Subject,
    seat: &mut B,
    tasks: &[Task],
) -> Result<(), EngineFault>
    requires ready { IsReady (system_view subject.now.system) subject.now.plan }
    requires book { (B.machine seat.old ≡ system_view subject.now.system) × (B.plan seat.old ≡ subject.now.plan) }
    requires read { B.front seat.old ≡ length (B.seen seat.old) }
    requires count { length tasks.now ≡ length (system_view subject.now.system).properties }
    requires tasks { AreTasks (system_view subject.now.system) subject.now.plan (B.seen seat.old)
        subject.now.engine (suc subject.now.plan.depth) 0 tasks.now }
    ensures seat { (B.number seat.new ≡ B.number seat.old) × (B.machine seat.new ≡ B.machine seat.old)
        × (B.plan seat.new ≡ B.plan seat.old) × (B.lent seat.new ≡ B.lent seat.old) }
    ensures front { B.front seat.new ≡ B.front seat.old }
    ensures reads { B.reads seat.new ≡ B.reads seat.old }
    ensures seen { Begins (B.seen seat.old) (B.seen seat.new) }
    ensures posts { OnOk result ((least : ℕ) → Grows (IsPost least) (B.number seat.old) (B.seen seat.old) (B.seen seat.new)) }
    ensures causes { OnOk result (HasCauses (B.seen seat.old) (B.seen seat.new) (B.number seat.old)
        (Some subject.now.engine) (length (system_view subject.now.system).properties)) }
{
    for property in 0..tasks.len() as u32 {
        if !seat.decided(property) {
            report(alloc, subject, seat, property, &tasks[property as usize])?;
        }
    }
    Ok(())
}

/// How a turn ended, and how far the engine then is.
#[derive(Drop)]
pub(crate) struct Turned {
    pub(crate) progress: Progress,
    pub(crate) search: Search,
}

/// A turn after its read: it asks, or tells why properties are undecided.
pub(crate) fn after_read<B: BoardSeat>(
    alloc: Global,
    subject: &Subject,
    seat: &mut B,
    search: Search,
) -> Result<Turned, EngineFault>
    requires ready { IsReady (system_view subject.now.system) subject.now.plan }
    requires book { (B.machine seat.old ≡ system_view subject.now.system) × (B.plan seat.old ≡ subject.now.plan) }
    requires read { B.front seat.old ≡ length (B.seen seat.old) }
    requires search { IsSearch (system_view subject.now.system) subject.now.plan (B.seen seat.old)
        subject.now.engine search }
    ensures seat { (B.number seat.new ≡ B.number seat.old) × (B.machine seat.new ≡ B.machine seat.old)
        × (B.plan seat.new ≡ B.plan seat.old) × (B.lent seat.new ≡ B.lent seat.old) }
    ensures front { B.front seat.new ≡ B.front seat.old }
    ensures reads { B.reads seat.new ≡ B.reads seat.old }
    ensures seen { Begins (B.seen seat.old) (B.seen seat.new) }
    ensures posts { OnOk result (Grows (IsPost search.lemmas.front) (B.number seat.old) (B.seen seat.old) (B.seen seat.new)) }
    ensures search { IfOk result (λ r. IsSearch (system_view subject.now.system) subject.now.plan
        (B.seen seat.new) subject.now.engine r.search) }
    ensures lemmas { IfOk result (λ r. r.search.lemmas.front ≡ search.lemmas.front) }
    ensures decided { IfOk result (λ r. r.progress ≡ Decided
        → DecidesAll (B.seen seat.old) (length (system_view subject.now.system).properties)) }
    ensures at_once { IfOk result (λ r.
        DecidesAll (B.seen seat.old) (length (system_view subject.now.system).properties) → r.progress ≡ Decided) }
    ensures spent { IfOk result (λ r. r.progress ≡ Spent → HasCauses (B.seen seat.old) (B.seen seat.new)
        (B.number seat.old) (Some subject.now.engine) (length (system_view subject.now.system).properties)) }
    ensures falls { IfOk result (λ r. r.progress ≡ More
        → turns_of subject.now.plan (Some r.search) < turns_of subject.now.plan (Some search)) }
{
    if all_decided(seat, search.tasks.len() as u32) {
        return Ok(Turned {
            progress: Progress::Decided,
            search,
        });
    }
    let Search {
        turn,
        lemmas,
        tasks,
    } = search;
    if turn > subject.plan.depth {
        report_all(alloc, subject, seat, &tasks)?;
        return Ok(Turned {
            progress: Progress::Spent,
            search: Search {
                turn,
                lemmas,
                tasks,
            },
        });
    }
    let tasks = all_advanced(alloc, subject, seat, turn, &lemmas, tasks)?;
    Ok(Turned {
        progress: Progress::More,
        search: Search {
            turn: turn + 1,
            lemmas,
            tasks,
        },
    })
}
