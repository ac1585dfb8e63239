//! The calls of a declaration.

ghost use Rattle.std.specs.Prelude.{◌≡◌, ◌++◌, ◌∷◌, [], IfOk, OnOk, flat_map, map};
ghost use Rattle.lus_tree.specs.View.{contract_item_view, expr_view, exprs_view, joined, word_view};
ghost use Rattle.lus_meaning.specs.Occurrences.{gathered};
ghost use Rattle.lus_meaning.specs.Program.{import_site, listed, site_in};
ghost use Rattle.lus_meaning.specs.Scene.{contract_statements};
ghost use Rattle.lus_streams.specs.Clocks.{clock_seen};
ghost use Rattle.lus_streams.specs.Names.{names_view};
ghost use Rattle.sys_occurrences.specs.Occurring.{held_site, plain_site, sites_among, sites_in, sites_of};
ghost use Rattle.sys_occurrences.specs.Views.{placed_view, site_view};

use crate::places::{Placed, places_of};
use lus_streams::clock::Clock;
use lus_streams::names::Names;
use lus_tree::{ContractItem, Expr, Form, PlacedName};
use std::alloc::{AllocError, Global};
use sys_conditions::occurrences::Manner;

/// A call or an import: its number, whom it calls, the clock of its place, its arguments and defaults, and how it runs.
#[derive(Clone, Copy)]
pub struct Site<'a> {
    pub number: u32,
    pub callee: &'a str,
    pub clock: Clock<'a>,
    pub arguments: &'a [Expr],
    pub defaults: &'a [Expr],
    pub manner: Manner<'a>,
}

/// The calls, and behind them a plain one.
fn push_plain_site<'a>(
    sites: &mut Vec<Site<'a>>,
    number: u32,
    callee: &'a PlacedName,
    clock: Clock<'a>,
    arguments: &'a [Expr],
) -> Result<(), AllocError>
    ensures { OnOk result (map site_view sites.new.items ≡ map site_view sites.old.items
        ++ plain_site number (word_view callee.now) (clock_seen clock.entry) (exprs_view arguments.now) ∷ []) }
{
    sites.push(Site {
        number,
        callee: &callee.text,
        clock,
        arguments,
        defaults: &[],
        manner: Manner::Plain,
    })?;
    Ok(())
}

/// The calls, and behind them a plain one, as the tree has it.
fn push_plain<'a>(
    sites: &mut Vec<Site<'a>>,
    number: u32,
    callee: &'a PlacedName,
    clock: Clock<'a>,
    arguments: &'a [Expr],
) -> Result<(), AllocError>
    ensures { OnOk result (map site_view sites.new.items ≡ map site_view sites.old.items
        ++ plain_site number (word_view callee.now) (clock_seen clock.entry)
        (listed (joined (exprs_view arguments.now))) ∷ []) }
{
    push_plain_site(sites, number, callee, clock, arguments)?;
    Ok(())
}

/// The calls, and behind them one under a condition.
fn push_held_site<'a>(
    sites: &mut Vec<Site<'a>>,
    number: u32,
    callee: &'a PlacedName,
    clock: Clock<'a>,
    condition: &'a Expr,
    arguments: &'a [Expr],
    defaults: &'a [Expr],
) -> Result<(), AllocError>
    ensures { OnOk result (map site_view sites.new.items ≡ map site_view sites.old.items
        ++ held_site number (word_view callee.now) (clock_seen clock.entry) (expr_view condition.now)
        (exprs_view arguments.now) (exprs_view defaults.now) ∷ []) }
{
    sites.push(Site {
        number,
        callee: &callee.text,
        clock,
        arguments,
        defaults,
        manner: Manner::While(condition),
    })?;
    Ok(())
}

/// The calls, and behind them one under a condition, as the tree has it.
fn push_held<'a>(
    sites: &mut Vec<Site<'a>>,
    number: u32,
    callee: &'a PlacedName,
    clock: Clock<'a>,
    condition: &'a Expr,
    arguments: &'a [Expr],
    defaults: &'a [Expr],
) -> Result<(), AllocError>
    ensures { OnOk result (map site_view sites.new.items ≡ map site_view sites.old.items
        ++ held_site number (word_view callee.now) (clock_seen clock.entry) (expr_view condition.now)
        (listed (joined (exprs_view arguments.now))) (listed (joined (exprs_view defaults.now))) ∷ []) }
{
    push_held_site(sites, number, callee, clock, condition, arguments, defaults)?;
    Ok(())
}

/// The calls, and behind them those of an expression on that clock.
#[cycle(sites)]
#[tactic(auto, using(lus_tree::proofs::Views::form_views))]
fn push_sites<'a>(
    sites: &mut Vec<Site<'a>>,
    names: Names<'a, '_>,
    clock: Clock<'a>,
    e: &'a Expr,
) -> Result<(), AllocError>
    ensures { OnOk result (map site_view sites.new.items ≡ map site_view sites.old.items
        ++ sites_in (names_view names.entry) (clock_seen clock.entry) (expr_view e.now)) }
{
    match &e.form {
        Form::Not(a) | Form::Minus(a) | Form::Pre(_, a) => push_sites(sites, names, clock, a),
        Form::Arrow(_, a, b) | Form::Binary(_, a, b) => {
            push_sites(sites, names, clock, a)?;
            push_sites(sites, names, clock, b)
        }
        Form::If(a, b, c) => {
            push_sites(sites, names, clock, a)?;
            push_sites(sites, names, clock, b)?;
            push_sites(sites, names, clock, c)
        }
        Form::When(a, _, x) => {
            let outer = names.clock_or_base(&x.text);
            push_sites(sites, names, outer, a)
        }
        Form::Merge(x, a, b) => {
            push_sites(sites, names, Clock::Sampled(true, x), a)?;
            push_sites(sites, names, Clock::Sampled(false, x), b)
        }
        Form::Call(number, callee, arguments) => {
            push_plain(sites, *number, callee, clock, arguments)?;
            push_sites_among(sites, names, clock, arguments)
        }
        Form::Condact(number, a, callee, arguments, defaults) => {
            push_held(sites, *number, callee, clock, a, arguments, defaults)?;
            push_sites(sites, names, clock, a)?;
            push_sites_among(sites, names, clock, arguments)?;
            push_sites_among(sites, names, clock, defaults)
        }
        Form::Truth(_) | Form::Number(_) | Form::Name(_) | Form::ModeName(_, _) => Ok(()),
    }
}

/// The calls, and behind them those of these expressions on that clock.
#[cycle(sites)]
fn push_sites_among<'a>(
    sites: &mut Vec<Site<'a>>,
    names: Names<'a, '_>,
    clock: Clock<'a>,
    values: &'a [Expr],
) -> Result<(), AllocError>
    ensures { OnOk result (map site_view sites.new.items ≡ map site_view sites.old.items
        ++ sites_among (names_view names.entry) (clock_seen clock.entry) (joined (exprs_view values.now))) }
{
    for value in values {
        push_sites(sites, names, clock, value)?;
    }
    Ok(())
}

/// The calls of these places.
fn found<'a>(
    alloc: Global,
    names: Names<'a, '_>,
    places: &[Placed<'a>],
) -> Result<Vec<Site<'a>>, AllocError>
    ensures { IfOk result (λ v. map site_view v.items
        ≡ sites_of (names_view names.entry) (map placed_view places.now)) }
{
    let mut sites = Vec::new(alloc);
    for place in places {
        push_sites(&mut sites, names, place.clock, place.expression)?;
    }
    Ok(sites)
}

/// The calls, and behind them an import.
fn push_import<'a>(sites: &mut Vec<Site<'a>>, item: &'a ContractItem) -> Result<(), AllocError>
    ensures { OnOk result (map site_view sites.new.items ≡ map site_view sites.old.items
        ++ import_site (contract_item_view item.now)) }
{
    if let ContractItem::Import(number, callee, arguments, outputs) = item {
        sites.push(Site {
            number: *number,
            callee: &callee.text,
            clock: Clock::Base,
            arguments,
            defaults: &[],
            manner: Manner::Import(outputs),
        })?;
    }
    Ok(())
}

/// The calls, and behind them the imports of a contract.
fn push_imports<'a>(sites: &mut Vec<Site<'a>>, items: &'a [ContractItem]) -> Result<(), AllocError>
    ensures { OnOk result (map site_view sites.new.items ≡ map site_view sites.old.items
        ++ flat_map import_site (map contract_item_view items.now)) }
{
    for item in items {
        push_import(sites, item)?;
    }
    Ok(())
}

/// The calls and imports of a declaration: calls in the order of the tree, and behind them imports.
///
/// # Errors
///
/// Want of memory.
#[tactic(auto, using(crate::proofs::Occurring::sites_are))]
pub fn sites<'a>(alloc: Global, names: Names<'a, '_>) -> Result<Vec<Site<'a>>, AllocError>
    ensures { IfOk result (λ v. map site_view v.items ≡ gathered site_in (names_view names.entry)
        ++ flat_map import_site (contract_statements (names_view names.entry))) }
{
    let places = places_of(alloc, names)?;
    let mut sites = found(alloc, names, &places)?;
    push_imports(&mut sites, names.owner.contract())?;
    Ok(sites)
}
