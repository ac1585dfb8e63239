//! What callers need of a declaration, by its own text and the same of its callees.

ghost use Rattle.std.specs.Prelude.{◌≡◌, ◌+◌, IfOk, length, map};
ghost use Rattle.lus_tree.specs.View.{contract_item_view, expr_view, exprs_view, item_view, joined};
ghost use Rattle.lus_meaning.specs.Scene.{ghosts, variables};
ghost use Rattle.lus_limits.specs.Counts.{property_count, body_count, contract_counts, cut_counts, none_counted, one_assumption, one_guarantee, one_mode, statement_counts, with_counts};
ghost use Rattle.lus_streams.specs.Owner.{owner_view};
ghost use Rattle.lus_limits.specs.Parts.{sides, sides_view};
ghost use Rattle.lus_limits.specs.Summaries.{bound, counts_view, cut, link_counts, links_owed, links_width, own_count, owed_of, sofar_count, state_count, states_among, states_in, summary_by};

use crate::calls::Way;
use crate::part::has_contract;
use crate::texts::sides_of;
use lus_streams::owner::Owner;
use lus_tree::{ContractItem, Expr, Form, Item};
use std::alloc::{AllocError, Global};

/// One past the greatest limit of a count. Greater counts are cut there.
const BOUND: usize = 20_001;

/// How many assumptions, guarantees, ensures and modes a contract has, those of its imports too,
/// each cut.
#[derive(Clone, Copy)]
pub struct ItemCounts {
    pub assumes: usize,
    pub guarantees: usize,
    pub ensured: usize,
    pub modes: usize,
}

/// What callers need of a declaration: how many variables its frame has where it runs as an import,
/// whether it has a contract, what this counts, and how many properties the declaration has. Each
/// number is cut.
#[derive(Clone, Copy)]
pub struct Summary {
    pub frame: usize,
    pub contract: bool,
    pub counts: ItemCounts,
    pub properties: usize,
}

/// A call or an import: how it runs, how many outputs are held, and its callee.
#[derive(Clone, Copy)]
pub struct Link {
    pub way: Way,
    pub held: usize,
    pub callee: Summary,
}

/// A number, cut.
pub(crate) fn cut(number: usize) -> usize
    ensures { result ≡ cut number }
{
    if number < BOUND { number } else { BOUND }
}

/// A sum, cut.
pub(crate) fn sum(left: usize, right: usize) -> usize
    ensures { result ≡ cut (left + right) }
{
    if left < BOUND && right < BOUND - left {
        left + right
    } else {
        BOUND
    }
}

/// How many occurrences of `pre` and `->` an expression has.
#[cycle(states)]
#[tactic(auto, using(lus_tree::proofs::Views::form_views, crate::proofs::Cutting::cut_sums))]
fn state_count(e: &Expr) -> usize
    ensures { result ≡ cut (state_count (expr_view e.now)) }
{
    match &e.form {
        Form::Not(a) | Form::Minus(a) | Form::When(a, _, _) => state_count(a),
        Form::Pre(_, a) => sum(1, state_count(a)),
        Form::Arrow(_, a, b) => sum(1, sum(state_count(a), state_count(b))),
        Form::Binary(_, a, b) | Form::Merge(_, a, b) => sum(state_count(a), state_count(b)),
        Form::If(a, b, c) => sum(state_count(a), sum(state_count(b), state_count(c))),
        Form::Call(_, _, arguments) => states_among(arguments),
        Form::Condact(_, a, _, arguments, defaults) => sum(
            state_count(a),
            sum(states_among(arguments), states_among(defaults)),
        ),
        Form::Truth(_) | Form::Number(_) | Form::Name(_) | Form::ModeName(_, _) => 0,
    }
}

/// How many these have.
#[cycle(states)]
#[tactic(auto, using(crate::proofs::Cutting::cut_on, crate::proofs::Cutting::cut_once, crate::proofs::Cutting::cut_end))]
fn states_among(values: &[Expr]) -> usize
    ensures { result ≡ cut (states_among (joined (exprs_view values.now))) }
{
    let mut count = 0;
    for value in values {
        count = sum(count, state_count(value));
    }
    count
}

/// How many the expressions of a declaration have.
#[tactic(auto, using(crate::proofs::Cutting::cut_on, crate::proofs::Cutting::cut_once, crate::proofs::Cutting::cut_end))]
pub(crate) fn states_in(sides: &[&Expr]) -> usize
    ensures { result ≡ cut (states_in (sides_view sides.now)) }
{
    let mut count = 0;
    for side in sides {
        count = sum(count, state_count(*side));
    }
    count
}

/// One more where a frame keeps whether its assumptions were true.
pub(crate) fn sofar_count(way: Way, contract: bool) -> usize
    ensures { result ≡ sofar_count way contract }
{
    match way {
        Way::Import => 0,
        Way::Plain | Way::Condition => { if contract { 1 } else { 0 } }
    }
}

/// How many variables a call takes: those that its caller holds, and those of its frame.
#[tactic(auto, using(crate::proofs::Cutting::cut_on))]
fn link_width(link: &Link) -> usize
    ensures { result ≡ cut (link.now.held + (link.now.callee.frame
        + sofar_count link.now.way link.now.callee.contract)) }
{
    sum(
        link.held,
        sum(
            link.callee.frame,
            sofar_count(link.way, link.callee.contract),
        ),
    )
}

/// How many variables calls take.
#[tactic(auto, using(crate::proofs::Cutting::cut_on, crate::proofs::Cutting::cut_once, crate::proofs::Cutting::cut_end))]
pub(crate) fn links_width(links: &[Link]) -> usize
    ensures { result ≡ cut (links_width links.now) }
{
    let mut width = 0;
    for link in links {
        width = sum(width, link_width(link));
    }
    width
}

/// How many assumptions are owed for a call.
fn owed_of(link: &Link) -> usize
    ensures { result ≡ owed_of link.now.way link.now.callee.counts.assumes }
{
    match link.way {
        Way::Import => 0,
        Way::Plain | Way::Condition => link.callee.counts.assumes,
    }
}

/// How many assumptions are owed for calls.
#[tactic(auto, using(crate::proofs::Cutting::cut_on, crate::proofs::Cutting::cut_once, crate::proofs::Cutting::cut_end))]
pub(crate) fn links_owed(links: &[Link]) -> usize
    ensures { result ≡ cut (links_owed links.now) }
{
    let mut owed = 0;
    for link in links {
        owed = sum(owed, owed_of(link));
    }
    owed
}

/// How many properties stand in a body.
#[tactic(auto, using(crate::proofs::Cutting::cut_on, crate::proofs::Cutting::cut_once, crate::proofs::Cutting::cut_end))]
pub(crate) fn body_count(items: &[Item]) -> usize
    ensures { result ≡ cut (body_count (map item_view items.now)) }
{
    let mut count = 0;
    for item in items {
        if let Item::Property(_) = item {
            count = sum(count, 1);
        }
    }
    count
}

/// Both counts together.
fn with_counts(left: ItemCounts, right: ItemCounts) -> ItemCounts
    ensures { counts_view result ≡ cut_counts bound (with_counts (counts_view left) (counts_view right)) }
{
    ItemCounts {
        assumes: sum(left.assumes, right.assumes),
        guarantees: sum(left.guarantees, right.guarantees),
        ensured: sum(left.ensured, right.ensured),
        modes: sum(left.modes, right.modes),
    }
}

/// No items.
fn none_counted() -> ItemCounts
    ensures { counts_view result ≡ none_counted }
{
    ItemCounts {
        assumes: 0,
        guarantees: 0,
        ensured: 0,
        modes: 0,
    }
}

/// One assumption.
fn one_assumption() -> ItemCounts
    ensures { counts_view result ≡ one_assumption }
{
    ItemCounts {
        assumes: 1,
        guarantees: 0,
        ensured: 0,
        modes: 0,
    }
}

/// One guarantee.
fn one_guarantee() -> ItemCounts
    ensures { counts_view result ≡ one_guarantee }
{
    ItemCounts {
        assumes: 0,
        guarantees: 1,
        ensured: 0,
        modes: 0,
    }
}

/// A mode with so many ensures.
fn one_mode(ensured: usize) -> ItemCounts
    ensures { counts_view result ≡ one_mode ensured }
{
    ItemCounts {
        assumes: 0,
        guarantees: 0,
        ensured,
        modes: 1,
    }
}

/// The counts of the import with that number, counted from 1.
fn link_counts(links: &[Link], number: u32) -> ItemCounts
    ensures { counts_view result ≡ link_counts links.now number }
{
    let place = (number as usize).saturating_sub(1);
    if place < links.len() {
        links[place].callee.counts
    } else {
        none_counted()
    }
}

/// The counts of an item of a contract.
fn statement_counts(item: &ContractItem, links: &[Link]) -> ItemCounts
    ensures { counts_view result ≡ statement_counts (link_counts links.now) (contract_item_view item.now) }
{
    match item {
        ContractItem::Assume(_) => one_assumption(),
        ContractItem::Guarantee(_) => one_guarantee(),
        ContractItem::Mode(_, _, ensured) => one_mode(ensured.len()),
        ContractItem::Import(number, _, _, _) => link_counts(links, *number),
        ContractItem::Ghost(_, _) | ContractItem::Constant(_) => none_counted(),
    }
}

/// The counts of a contract.
pub(crate) fn contract_counts(items: &[ContractItem], links: &[Link]) -> ItemCounts
    ensures { counts_view result
        ≡ cut_counts bound (contract_counts (link_counts links.now) (map contract_item_view items.now)) }
{
    let mut counts = none_counted();
    for item in items {
        counts = with_counts(counts, statement_counts(item, links));
    }
    counts
}

/// How many ghost variables a contract has.
#[tactic(auto, using(crate::proofs::Cutting::cut_on, crate::proofs::Cutting::cut_once, crate::proofs::Cutting::cut_end))]
fn ghost_count(items: &[ContractItem]) -> usize
    ensures { result ≡ cut (length (ghosts (map contract_item_view items.now))) }
{
    let mut count = 0;
    for item in items {
        if let ContractItem::Ghost(_, _) = item {
            count = sum(count, 1);
        }
    }
    count
}

/// How many streams a declaration has.
#[tactic(auto, using(crate::proofs::Cutting::names_counted))]
fn name_count(part: Owner<'_>) -> usize
    ensures { result ≡ cut (length (variables (owner_view part.entry))) }
{
    let ghosts = ghost_count(part.contract());
    let inner = sum(part.locals().len(), ghosts);
    sum(part.inputs().len(), sum(part.outputs().len(), inner))
}

/// How many cells a declaration's frame has of its own where it runs as an import.
#[tactic(auto, using(crate::proofs::Cutting::own_cut))]
pub(crate) fn own_count(part: Owner<'_>, texts: &[&Expr]) -> usize
    requires { sides_view texts.now ≡ sides (owner_view part) }
    ensures { result ≡ cut (own_count (owner_view part.entry)) }
{
    sum(1, sum(name_count(part), states_in(texts)))
}

/// How many properties a declaration has, by what its contract counts and what it owes.
#[tactic(auto, using(crate::proofs::Cutting::properties_cut))]
fn property_count(items: &[Item], counts: ItemCounts, owed: usize) -> usize
    ensures { result ≡ cut (property_count (map item_view items.now) (counts_view counts) owed) }
{
    let active = if counts.modes == 0 { 0 } else { 1 };
    let contract = sum(counts.ensured, sum(active, owed));
    sum(body_count(items), sum(counts.guarantees, contract))
}

/// What callers need of a declaration, by its own text and what is needed of its callees: `links`
/// has its calls and imports by number.
///
/// # Errors
///
/// Want of memory.
#[tactic(auto, using(crate::proofs::Cutting::summary_cut))]
pub fn summed(alloc: Global, part: Owner<'_>, links: &[Link]) -> Result<Summary, AllocError>
    ensures { IfOk result (λ s. s ≡ summary_by (owner_view part.entry) links.now) }
{
    let texts = sides_of(alloc, part)?;
    let counts = contract_counts(part.contract(), links);
    Ok(Summary {
        frame: sum(own_count(part, &texts), links_width(links)),
        contract: has_contract(part),
        counts,
        properties: property_count(part.body(), counts, links_owed(links)),
    })
}
