//! The calls and imports of a declaration.

ghost use Rattle.std.specs.Prelude.{◌≡◌, IfOk, map};
ghost use Rattle.sys_conditions.specs.Views.{manner_view};
ghost use Rattle.sys_tables.specs.Views.{linked_view};
ghost use Rattle.evaluation_parts.specs.Views.{link_view, links_view};
ghost use Rattle.evaluation_parts.specs.Views.{manner_view as link_manner};
ghost use Rattle.evaluation_turns.specs.Seen.{link_seen};

use evaluation_parts::frame::{Link, Manner};
use std::alloc::{AllocError, Global};
use sys_conditions::occurrences::Manner as SiteManner;
use sys_tables::table::Linked;

/// How a call runs.
fn manner_of(manner: SiteManner<'_>) -> Manner<'_>
    ensures { link_manner result ≡ manner_view manner.entry }
{
    match manner {
        SiteManner::Plain => Manner::Plain,
        SiteManner::While(condition) => Manner::While(condition),
        SiteManner::Import(outputs) => Manner::Import(outputs),
    }
}

/// A call, with the place of its callee.
fn link_of<'a>(linked: &Linked<'a>) -> Link<'a>
    ensures { link_view result ≡ link_seen (linked_view linked.now) }
{
    let site = linked.site;
    Link {
        number: site.number,
        callee: site.callee,
        clock: site.clock,
        arguments: site.arguments,
        defaults: site.defaults,
        manner: manner_of(site.manner),
        place: linked.place,
    }
}

/// Calls, each with the place of its callee.
pub(crate) fn links_of<'a>(alloc: Global, calls: &[Linked<'a>]) -> Result<Vec<Link<'a>>, AllocError>
    ensures { IfOk result (λ v. links_view v.items ≡ map link_seen (map linked_view calls.now)) }
{
    let mut links = Vec::with_capacity(alloc, calls.len())?;
    for linked in calls {
        links.push(link_of(linked))?;
    }
    Ok(links)
}
