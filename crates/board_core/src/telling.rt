//! How entries are told.

ghost use Rattle.std.specs.Prelude.{◌≡◌, ◌≤◌, IfOk, map, drop, length};
ghost use Rattle.cert_rules.specs.Kept.{held_at};
ghost use Rattle.board_core.specs.View.{made_view, statement_view, fact_said, said_by, news_view, told_from};
ghost use Rattle.board_core.specs.Books.{history_in};

use crate::entry::Made;
use crate::fault::BookFault;
use crate::posted::Posted;
use crate::statement::{News, Statement, broken, spent, stuck};
use cert_rules::Held;
use std::alloc::{AllocError, Global};

fn held_statement(held: &Held, _first: u64, _second: u64) -> Statement
    ensures { statement_view result ≡ fact_said (held_at held.now _first _second) }
{
    Statement::Held(held.property())
}

/// What the entry says.
fn statement_of(alloc: Global, made: &Made) -> Result<Statement, AllocError>
    ensures { IfOk result (λ s. statement_view s ≡ said_by (made_view made.now)) }
{
    match made {
        Made::Base(base) => Ok(Statement::Base {
            property: base.property(),
            instant: base.instant(),
        }),
        Made::Step(step) => Ok(Statement::Step {
            property: step.property(),
            k: step.k(),
        }),
        Made::Lemma(lemma) => {
            let term = lemma.term().copied(alloc)?;
            Ok(Statement::Lemma(term))
        }
        Made::Held(held, first, second) => Ok(held_statement(held, *first, *second)),
        Made::Broken(property, path) => broken(alloc, *property, path),
        Made::Stuck(property, path, front) => stuck(alloc, *property, path, *front),
        Made::Spent(engine, property, cause, _) => spent(alloc, *engine, *property, cause),
    }
}

/// The entries from the front on; none where there are not as many.
pub(crate) fn told(alloc: Global, entries: &[Posted], front: usize) -> Result<Vec<News>, BookFault>
    ensures { IfOk result (λ news. map news_view news.items ≡ told_from front (drop front (history_in entries.now))) }
{
    let mut news = Vec::new(alloc);
    for place in front..entries.len() {
        let statement = statement_of(alloc, &entries[place].made)?;
        news.push(News {
            place: place as u64,
            seat: entries[place].seat,
            statement,
        })?;
    }
    Ok(news)
}
