//! The lemmas that an engine cites.

ghost use Rattle.std.specs.Prelude.{◌≡◌, ◌<◌, ◌≤◌, ◌+◌, ℕ, List, length, map, option_map, IfOk, OnOk};
ghost use Rattle.sys_terms.specs.View.{Machine, term_view, terms_view};
ghost use Rattle.cert_rules.specs.View.{cites_view, cited_terms};
ghost use Rattle.board_core.specs.declared.plan.Plan.{Plan as Options};
ghost use Rattle.board_core.specs.Entries.{Posting, AreSound};
ghost use Rattle.board_core.specs.View.{news_view, statement_view};
ghost use Rattle.board_core.specs.Seats.{Begins};
ghost use Rattle.kind_engine.specs.Lemmas.{AreLemmas, IsToldOf, told_term};
ghost use Rattle.kind_engine.specs.Posts.{Grows, IsPost};

use board_core::{BoardSeat, EngineFault, News, Statement};
use cert_rules::Cited;
use std::alloc::{AllocError, Global};
use sys_terms::Term;

/// All lemma entries at places below the front, in order.
#[derive(Drop)]
pub(crate) struct Lemmas {
    pub(crate) front: u64,
    pub(crate) cites: Vec<Cited>,
}

/// Their terms.
pub(crate) fn terms_of(alloc: Global, cites: &[Cited]) -> Result<Vec<Term>, AllocError>
    ensures { IfOk result (λ v. terms_view v.items ≡ cited_terms cites.now) }
{
    let mut terms = Vec::with_capacity(alloc, cites.len())?;
    for cited in cites {
        terms.push(cited.term.copied(alloc)?)?;
    }
    Ok(terms)
}

/// Their places.
pub(crate) fn places_of(alloc: Global, cites: &[Cited]) -> Result<Vec<u64>, AllocError>
    ensures { IfOk result (λ v. v.items ≡ map (λ c. c.place) cites.now) }
{
    let mut places = Vec::with_capacity(alloc, cites.len())?;
    for cited in cites {
        places.push(cited.place)?;
    }
    Ok(places)
}

/// The lemma that is told.
fn told_lemma(statement: Statement) -> Option<Term>
    ensures { option_map term_view result ≡ told_term (statement_view statement) }
{
    match statement {
        Statement::Lemma(term) => Some(term),
        Statement::Base { .. }
        | Statement::Step { .. }
        | Statement::Held(_)
        | Statement::Broken { .. }
        | Statement::Stuck { .. }
        | Statement::Spent { .. } => None,
    }
}

/// With the entry that is told. One that is not the next leaves them as they are.
fn with_news(lemmas: Lemmas, news: News) -> Result<Lemmas, AllocError>
    ensures lemmas { IfOk result (λ r. (m : Machine) (plan : Options) (history : List Posting)
        → AreSound m plan history → IsToldOf history (news_view news)
        → AreLemmas m history lemmas.front (cites_view lemmas.cites.items)
        → AreLemmas m history r.front (cites_view r.cites.items)) }
    ensures stays { IfOk result (λ r. lemmas.front ≤ r.front) }
    ensures taken { IfOk result (λ r. news.place ≤ lemmas.front → news.place < r.front) }
{
    let Lemmas { front, mut cites } = lemmas;
    let News {
        place,
        statement,
        ..
    } = news;
    if place != front {
        return Ok(Lemmas { front, cites });
    }
    if front == u64::MAX {
        return Err(AllocError);
    }
    match told_lemma(statement) {
        Some(term) => {
            cites.push(Cited { place, term })?;
            Ok(Lemmas {
                front: front + 1,
                cites,
            })
        }
        None => Ok(Lemmas {
            front: front + 1,
            cites,
        }),
    }
}

/// Reads, and takes up each lemma that is told. Where they have all below the read front, they have then all that is seen.
pub(crate) fn read_lemmas<B: BoardSeat>(
    alloc: Global,
    seat: &mut B,
    lemmas: Lemmas,
) -> Result<Lemmas, EngineFault>
    requires known { AreLemmas (B.machine seat.old) (B.seen seat.old) lemmas.front (cites_view lemmas.cites.items) }
    ensures seat { (B.number seat.new ≡ B.number seat.old) × (B.machine seat.new ≡ B.machine seat.old)
        × (B.plan seat.new ≡ B.plan seat.old) × (B.lent seat.new ≡ B.lent seat.old) }
    ensures front { OnOk result (B.front seat.new ≡ length (B.seen seat.new)) }
    ensures reads { OnOk result (B.reads seat.new ≡ B.reads seat.old + 1) }
    ensures seen { Begins (B.seen seat.old) (B.seen seat.new) }
    ensures posts { OnOk result ((least : ℕ) → Grows (IsPost least) (B.number seat.old) (B.seen seat.old) (B.seen seat.new)) }
    ensures lemmas { IfOk result (λ r. AreLemmas (B.machine seat.new) (B.seen seat.new) r.front
        (cites_view r.cites.items)) }
    ensures taken { IfOk result (λ r. B.front seat.old ≤ lemmas.front → length (B.seen seat.new) ≤ r.front) }
{
    let news = seat.read(alloc)?;
    let mut lemmas = lemmas;
    for entry in news {
        lemmas = with_news(lemmas, entry)?;
    }
    Ok(lemmas)
}
