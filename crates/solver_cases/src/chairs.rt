//! Chairs over one book, and a play of two engines that do nothing.

ghost use Rattle.std.specs.Prelude.{◌≡◌, []};
ghost use Rattle.sys_terms.specs.View.{system_view};
ghost use Rattle.cert_rules.specs.Kept.{base_machine, base_cites, lemma_machine, lemma_cites};
ghost use Rattle.board_core.specs.Books.{machine_of};
ghost use Rattle.solver_cases.specs.Ready.{IsReady};

use crate::facts::{first_base, lemma_in};
use crate::given::{Given, proofs, ready};
use crate::news::news_text;
use crate::parts::parts;
use crate::sleeper::Sleeper;
use anyhow::{Result, bail};
use board_core::{BoardSeat, Book, Chair, Entry, Plan, play};
use cert_rules::{Base, Lemma};
use proof_steps::Budgets;
use std::alloc::{AllocError, Global};

/// A plan within its ranges.
const PLAN: Plan = Plan {
    depth: 2,
    frames: 30,
    blocked: 5_000,
    budgets: Budgets {
        conflicts: 100_000,
        splits: 2_000,
        pivots: 200_000,
    },
};

/// Posts a lemma that cites none.
fn post_lemma<B: BoardSeat>(alloc: Global, seat: &mut B, lemma: Lemma) -> Result<String>
    requires system { lemma_machine lemma ≡ B.machine seat.old }
    requires alone { lemma_cites lemma ≡ [] }
    ensures same { (B.machine seat.new ≡ B.machine seat.old) × (B.lent seat.new ≡ B.lent seat.old) }
{
    match seat.post(Entry::lemma(lemma)) {
        Ok(place) => Ok(format!(in alloc; "posts a lemma: place {place}")?),
        Err(_) => bail!("it isn't posted"),
    }
}

/// Posts a base that cites none.
fn post_base<B: BoardSeat>(alloc: Global, seat: &mut B, base: Base) -> Result<String>
    requires system { base_machine base ≡ B.machine seat.old }
    requires alone { base_cites base ≡ [] }
{
    match seat.post(Entry::base(base)) {
        Ok(place) => Ok(format!(in alloc; "posts a base: place {place}")?),
        Err(_) => bail!("it isn't posted"),
    }
}

fn read<B: BoardSeat>(alloc: Global, seat: &mut B) -> Result<String>
    ensures same { (B.machine seat.new ≡ B.machine seat.old) × (B.lent seat.new ≡ B.lent seat.old) }
{
    match seat.read(alloc) {
        Ok(news) => Ok(news_text(alloc, &news)?),
        Err(_) => bail!("it isn't read"),
    }
}

/// The first chair posts a lemma and reads twice.
fn first_chair(alloc: Global, book: &mut Book, lemma: Lemma) -> Result<String>
    requires system { lemma_machine lemma ≡ machine_of book.old }
    requires alone { lemma_cites lemma ≡ [] }
    ensures system { machine_of book.new ≡ machine_of book.old }
{
    let mut chair = Chair::at(book, 0, 0);
    let posted = post_lemma(alloc, &mut chair, lemma)?;
    let news = read(alloc, &mut chair)?;
    let again = read(alloc, &mut chair)?;
    let front = chair.seen();
    Ok(format!(in alloc; "chair 0 {posted}, reads {news}, reads {again}, front {front}")?)
}

/// The second one reads from the front on, posts a base and reads again.
fn second_chair(alloc: Global, book: &mut Book, base: Base) -> Result<String>
    requires system { base_machine base ≡ machine_of book.old }
    requires alone { base_cites base ≡ [] }
{
    let mut chair = Chair::at(book, 1, 0);
    let news = read(alloc, &mut chair)?;
    let posted = post_base(alloc, &mut chair, base)?;
    let again = read(alloc, &mut chair)?;
    let front = chair.seen();
    Ok(format!(in alloc; "chair 1 reads {news}, {posted}, reads {again}, front {front}")?)
}

/// What the chairs leave.
fn book_text(alloc: Global, book: &Book) -> Result<String, AllocError> {
    let (count, decided, spent) = (book.count(), book.decided(0), book.spent(0, 0).is_some());
    let verdict = book.verdict(0);
    format!(in alloc; "book {count} entries, {verdict:?}, decided {decided}, spent {spent}")
}

/// The lines of the two chairs, one after the other, and of the book that they leave.
fn seated(alloc: Global, mut book: Book, lemma: Lemma, base: Base) -> Result<String>
    requires lemma { lemma_machine lemma ≡ machine_of book }
    requires lemma_alone { lemma_cites lemma ≡ [] }
    requires base { base_machine base ≡ machine_of book }
    requires base_alone { base_cites base ≡ [] }
{
    let first = first_chair(alloc, &mut book, lemma)?;
    let second = second_chair(alloc, &mut book, base)?;
    let left = book_text(alloc, &book)?;
    Ok(format!(in alloc; "{first}\n{second}\n{left}")?)
}

/// `SYSTEM; TERM; REFUTATION; REFUTATION; REFUTATIONS`: two chairs that post a lemma and a base.
pub fn chairs(alloc: Global, given: &Given, case: &str) -> Result<String> {
    let parts = parts(case);
    let system = ready(given, parts[0])?;
    let lemma = lemma_in(alloc, given, system, &parts)?;
    let base = first_base(alloc, system, &proofs(alloc, given, parts[4])?)?;
    let book = Book::open(alloc, system.copied(alloc)?, PLAN);
    seated(alloc, book, lemma, base)
}

fn play_text(alloc: Global, book: &Book) -> Result<String, AllocError> {
    let (count, verdict) = (book.count(), book.verdict(0));
    format!(in alloc; "play {count} entries, {verdict:?}")
}

/// `SYSTEM`: what the book of a play of two idle engines says.
pub fn idle(alloc: Global, given: &Given, case: &str) -> Result<String> {
    let system = ready(given, case)?.copied(alloc)?;
    match play(
        alloc,
        system,
        PLAN,
        &mut Sleeper {},
        &mut Sleeper {},
        &[0, 1, 2, 0],
    ) {
        Ok(book) => Ok(play_text(alloc, &book)?),
        Err(_) => bail!("it isn't played"),
    }
}
