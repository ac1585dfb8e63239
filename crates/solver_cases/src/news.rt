//! News as text.

use board_core::{News, Statement};
use std::alloc::{AllocError, Global};

fn statement_text(alloc: Global, statement: &Statement) -> Result<String, AllocError> {
    match statement {
        Statement::Base { property, instant } => format!(in alloc; "base {property} to {instant}"),
        Statement::Step { property, k } => format!(in alloc; "step {property} after {k}"),
        Statement::Lemma(_) => format!(in alloc; "lemma"),
        Statement::Held(property) => format!(in alloc; "held {property}"),
        Statement::Broken { property, .. } => format!(in alloc; "broken {property}"),
        Statement::Stuck { property, .. } => format!(in alloc; "stuck {property}"),
        Statement::Spent { property, .. } => format!(in alloc; "spent {property}"),
    }
}

/// Each entry with its place and seat, and what a copy of its statement says.
pub fn news_text(alloc: Global, news: &[News]) -> Result<String, AllocError> {
    if news.is_empty() {
        return format!(in alloc; "nothing");
    }
    let mut text = String::new(alloc);
    for told in news {
        let (place, seat) = (told.place, told.seat);
        let copy = told.statement.copied(alloc)?;
        let line = format!(in alloc; "[{place} by {seat}: {}]", statement_text(alloc, &copy)?)?;
        text.push_str(&line)?;
    }
    Ok(text)
}
