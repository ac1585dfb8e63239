//! Two engines that take turns at one book.

ghost use Rattle.std.specs.Prelude.{◌≡◌, ◌<◌, [], true, false, length, IfOk, OnOk};
ghost use Rattle.sys_terms.specs.View.{system_view};
ghost use Rattle.sys_terms.specs.Fits.{IsMild};
ghost use Rattle.board_core.specs.Plans.{IsPlan};
ghost use Rattle.board_core.specs.Entries.{AreSound};
ghost use Rattle.board_core.specs.Books.{history_of, machine_of, plan_of};
ghost use Rattle.board_core.specs.Seats.{Begins, Fits, HasCauses};
ghost use Rattle.board_core.specs.Plays.{IsPlaying, HasTurn, IsMove, AreMoves, RunsOut, IsPlay, place, table, new_players};

use crate::book::Book;
use crate::chair::Chair;
use crate::engine::{Engine, Progress};
use crate::fault::PlayFault;
use crate::plan::Plan;
use std::alloc::Global;
use sys_terms::System;

/// How far an engine is: the read front of its chair, and whether it has ended.
#[derive(Clone, Copy)]
pub(crate) struct Player {
    pub(crate) front: u64,
    pub(crate) ended: bool,
}

/// The two of a play.
#[derive(Clone, Copy)]
pub(crate) struct Players {
    pub(crate) first: Player,
    pub(crate) second: Player,
}

/// One turn at a chair of its own, unless the engine has ended.
fn play_turn<E: Engine>(
    alloc: Global,
    book: &mut Book,
    seat: u32,
    engine: &mut E,
    player: Player,
) -> Result<Player, PlayFault>
    requires machine { Fits (E.machine engine.old) (machine_of book.old) }
    requires plan { Fits (E.plan engine.old) (plan_of book.old) }
    requires playing { IsPlaying (history_of book.old) (machine_of book.old) seat
        (E.number engine.old) (E.known engine.old) player }
    ensures engine { (E.number engine.new ≡ E.number engine.old) × (E.machine engine.new ≡ E.machine engine.old)
        × (E.plan engine.new ≡ E.plan engine.old) }
    ensures book { OnOk result ((machine_of book.new ≡ machine_of book.old) × (plan_of book.new ≡ plan_of book.old)) }
    ensures grows { OnOk result (Begins (history_of book.old) (history_of book.new)) }
    ensures playing { IfOk result (λ p. IsPlaying (history_of book.new) (machine_of book.new) seat
        (E.number engine.new) (E.known engine.new) p) }
    ensures falls { IfOk result (λ p. p.ended ≡ false → E.steps engine.new < E.steps engine.old) }
    ensures turn { IfOk result (λ p. HasTurn E.turn_gives seat (place engine.old player (history_of book.old))
        (place engine.new p (history_of book.new))) }
{
    if player.ended {
        return Ok(player);
    }
    let mut chair = Chair::at(book, seat, player.front);
    let progress = engine.turn(alloc, &mut chair)?;
    Ok(Player {
        front: chair.seen(),
        ended: progress != Progress::More,
    })
}

/// One turn of the engine of this number, 0 or 1; another number does nothing.
fn play_number<A: Engine, B: Engine>(
    alloc: Global,
    book: &mut Book,
    a: &mut A,
    b: &mut B,
    players: Players,
    number: u32,
) -> Result<Players, PlayFault>
    requires first { Fits (A.machine a.old) (machine_of book.old) × Fits (A.plan a.old) (plan_of book.old) }
    requires second { Fits (B.machine b.old) (machine_of book.old) × Fits (B.plan b.old) (plan_of book.old) }
    requires playing { IsPlaying (history_of book.old) (machine_of book.old) 0
        (A.number a.old) (A.known a.old) players.first
        × IsPlaying (history_of book.old) (machine_of book.old) 1 (B.number b.old) (B.known b.old) players.second }
    ensures first { (A.number a.new ≡ A.number a.old) × (A.machine a.new ≡ A.machine a.old)
        × (A.plan a.new ≡ A.plan a.old) }
    ensures second { (B.number b.new ≡ B.number b.old) × (B.machine b.new ≡ B.machine b.old)
        × (B.plan b.new ≡ B.plan b.old) }
    ensures book { OnOk result ((machine_of book.new ≡ machine_of book.old) × (plan_of book.new ≡ plan_of book.old)) }
    ensures playing { IfOk result (λ p. IsPlaying (history_of book.new) (machine_of book.new) 0
        (A.number a.new) (A.known a.new) p.first
        × IsPlaying (history_of book.new) (machine_of book.new) 1 (B.number b.new) (B.known b.new) p.second) }
    ensures turn { IfOk result (λ p. IsMove A.turn_gives B.turn_gives number
        (table a.old b.old players (history_of book.old)) (table a.new b.new p (history_of book.new))) }
{
    let mut next = players;
    if number == 0 {
        next.first = play_turn(alloc, book, 0, a, players.first)?;
    } else if number == 1 {
        next.second = play_turn(alloc, book, 1, b, players.second)?;
    }
    Ok(next)
}

/// Turns in this order.
fn play_order<A: Engine, B: Engine>(
    alloc: Global,
    book: &mut Book,
    a: &mut A,
    b: &mut B,
    order: &[u32],
) -> Result<Players, PlayFault>
    requires first { Fits (A.machine a.old) (machine_of book.old) × Fits (A.plan a.old) (plan_of book.old)
        × (A.known a.old ≡ []) }
    requires second { Fits (B.machine b.old) (machine_of book.old) × Fits (B.plan b.old) (plan_of book.old)
        × (B.known b.old ≡ []) }
    ensures first { (A.number a.new ≡ A.number a.old) × (A.machine a.new ≡ A.machine a.old)
        × (A.plan a.new ≡ A.plan a.old) }
    ensures second { (B.number b.new ≡ B.number b.old) × (B.machine b.new ≡ B.machine b.old)
        × (B.plan b.new ≡ B.plan b.old) }
    ensures book { OnOk result ((machine_of book.new ≡ machine_of book.old) × (plan_of book.new ≡ plan_of book.old)) }
    ensures playing { IfOk result (λ p. IsPlaying (history_of book.new) (machine_of book.new) 0
        (A.number a.new) (A.known a.new) p.first
        × IsPlaying (history_of book.new) (machine_of book.new) 1 (B.number b.new) (B.known b.new) p.second) }
    ensures turns { IfOk result (λ p. AreMoves A.turn_gives B.turn_gives order.now
        (table a.old b.old new_players (history_of book.old)) (table a.new b.new p (history_of book.new))) }
{
    let start = Player {
        front: 0,
        ended: false,
    };
    let mut players = Players {
        first: start,
        second: start,
    };
    for number in order {
        players = play_number(alloc, book, a, b, players, *number)?;
    }
    Ok(players)
}

/// Turns of one engine until it ends.
fn play_to_end<E: Engine>(
    alloc: Global,
    book: &mut Book,
    seat: u32,
    engine: &mut E,
    player: Player,
) -> Result<(), PlayFault>
    requires machine { Fits (E.machine engine.old) (machine_of book.old) }
    requires plan { Fits (E.plan engine.old) (plan_of book.old) }
    requires playing { IsPlaying (history_of book.old) (machine_of book.old) seat
        (E.number engine.old) (E.known engine.old) player }
    ensures book { OnOk result ((machine_of book.new ≡ machine_of book.old) × (plan_of book.new ≡ plan_of book.old)) }
    ensures grows { OnOk result (Begins (history_of book.old) (history_of book.new)) }
    ensures causes { OnOk result (HasCauses (history_of book.new) (history_of book.new) seat
        (E.number engine.old) (length (machine_of book.old).properties)) }
    ensures turns { OnOk result (RunsOut E.turn_gives seat (place engine.old player (history_of book.old))
        engine.new (history_of book.new)) }
{
    let mut player = player;
    loop {
        player = play_turn(alloc, book, seat, engine, player)?;
        if player.ended {
            return Ok(());
        }
    }
}

/// Opens a book and lets two engines play at it: `a` has a turn at each 0 of the order, at the seat
/// of number 0, and `b` at each 1, at that of number 1. Other numbers do nothing, nor do those of an
/// engine that has ended. After the order `a` and then `b` run to their ends.
///
/// Each has this system and plan, or none, and knows nothing yet. The book is sound, and for each
/// property that it leaves undecided each of the two that has a number has posted its cause.
/// The one fault is want of memory; both engines are then only dropped.
pub fn play<A: Engine, B: Engine>(
    alloc: Global,
    system: System,
    plan: Plan,
    a: &mut A,
    b: &mut B,
    order: &[u32],
) -> Result<Book, PlayFault>
    requires mild { IsMild (system_view system) }
    requires plan { IsPlan plan }
    requires first { Fits (A.machine a.old) (system_view system) × Fits (A.plan a.old) plan × (A.known a.old ≡ []) }
    requires second { Fits (B.machine b.old) (system_view system) × Fits (B.plan b.old) plan × (B.known b.old ≡ []) }
    ensures book { IfOk result (λ book. (machine_of book ≡ system_view system) × (plan_of book ≡ plan)) }
    ensures sound { IfOk result (λ book. AreSound (machine_of book) (plan_of book) (history_of book)) }
    ensures first { IfOk result (λ book. HasCauses (history_of book) (history_of book) 0
        (A.number a.old) (length (machine_of book).properties)) }
    ensures second { IfOk result (λ book. HasCauses (history_of book) (history_of book) 1
        (B.number b.old) (length (machine_of book).properties)) }
    ensures turns { IfOk result (λ book. IsPlay A.turn_gives B.turn_gives order.now a.old b.old a.new b.new
        (history_of book)) }
{
    let mut book = Book::open(alloc, system, plan);
    let players = play_order(alloc, &mut book, a, b, order)?;
    play_to_end(alloc, &mut book, 0, a, players.first)?;
    play_to_end(alloc, &mut book, 1, b, players.second)?;
    let _entries = book.count();
    Ok(book)
}
