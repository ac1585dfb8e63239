//! Terms, paths, queries, clause forms, facts, chairs and solved queries by cases, each a line of a file in `data/`. What
//! is asked of each file stands in `TABLES`; `data/systems` and `data/refutations` have what the lines name.
//!
//! For the benchmarks, the words `clauses NUMBER make` have it make the clauses of a query of so many conditions, and
//! `facts NUMBER check` have it make the base of a chain of so many equal flags; with `build` in place of the last word it
//! makes only what these are made of.

#![tactic(auto)]

mod asked;
mod chairs;
mod deep;
mod facts;
mod form_rows;
mod form_text;
mod given;
mod large;
mod news;
mod parts;
mod queries;
mod refutations;
mod rows;
mod sleeper;
mod states;
mod systems;
mod term_text;
mod terms;

use anyhow::Result;
use asked::solved;
use chairs::{chairs, idle};
use deep::Walk;
use facts::{base, concluded, implied, lemma, step};
use given::Given;
use large::{large_base, large_form};
use parts::{cut, number};
use queries::{condition, form, query};
use refutations::refutations_of;
use states::{measures, mild, path, value};
use std::alloc::Global;
use std::{env, fs};
use systems::systems_of;

/// What is asked of a line.
#[derive(Clone, Copy)]
enum Table {
    Mild,
    Path,
    Value,
    Measures,
    Query,
    Form,
    Condition,
    Base,
    Step,
    Lemma,
    Concluded,
    Implied,
    Chairs,
    Play,
    Solved,
}

/// The files without their `.cases`.
const TABLES: [(&str, Table); 15] = [
    ("mild", Table::Mild),
    ("paths", Table::Path),
    ("values", Table::Value),
    ("measures", Table::Measures),
    ("queries", Table::Query),
    ("forms", Table::Form),
    ("conditions", Table::Condition),
    ("bases", Table::Base),
    ("steps", Table::Step),
    ("lemmas", Table::Lemma),
    ("concluded", Table::Concluded),
    ("implied", Table::Implied),
    ("chairs", Table::Chairs),
    ("plays", Table::Play),
    ("solved", Table::Solved),
];

/// The files of deep terms.
const DEEP: [(&str, Walk); 2] = [("deep_terms", Walk::Passed), ("deep_forms", Walk::Counted)];

/// Whether a line begins with a name.
fn has_name(table: Table) -> bool {
    match table {
        Table::Value | Table::Measures | Table::Query | Table::Chairs | Table::Play => false,
        _ => true,
    }
}

/// What comes of a case.
fn answer(alloc: Global, given: &Given, table: Table, case: &str) -> Result<String> {
    match table {
        Table::Mild => mild(alloc, given, case),
        Table::Path => path(alloc, given, case),
        Table::Value => Ok(value(alloc, case)?),
        Table::Measures => Ok(measures(alloc, case)?),
        Table::Query => query(alloc, given, case),
        Table::Form => form(alloc, given, case),
        Table::Condition => Ok(condition(alloc, case)?),
        Table::Base => base(alloc, given, case),
        Table::Step => step(alloc, given, case),
        Table::Lemma => lemma(alloc, given, case),
        Table::Concluded => concluded(alloc, given, case),
        Table::Implied => implied(alloc, given, case),
        Table::Chairs => chairs(alloc, given, case),
        Table::Play => idle(alloc, given, case),
        Table::Solved => solved(alloc, given, case),
    }
}

/// The cases of a file, whose name is printed.
fn cases_of(rt: &HostRuntime, name: &str) -> Result<String> {
    println!(rt; "== {name}")?;
    let file = format!(in rt.alloc(); "{name}.cases")?;
    Ok(fs::read_to_string(rt, file.as_str())?)
}

fn print_case(rt: &HostRuntime, given: &Given, table: Table, line: &str) -> Result<()> {
    let (name, case) = if has_name(table) {
        cut(line)
    } else {
        ("", line)
    };
    if !name.is_empty() {
        print!(rt; "{name}: ")?;
    }
    let answer = answer(rt.alloc(), given, table, case)?;
    Ok(println!(rt; "{answer}")?)
}

fn print_table(rt: &HostRuntime, given: &Given, name: &str, table: Table) -> Result<()> {
    let cases = cases_of(rt, name)?;
    for line in cases.lines() {
        print_case(rt, given, table, line)?;
    }
    Ok(())
}

fn print_tables(rt: &HostRuntime) -> Result<()> {
    let systems = fs::read_to_string(rt, "systems")?;
    let refutations = fs::read_to_string(rt, "refutations")?;
    let given = Given {
        systems: systems_of(rt.alloc(), systems.as_str())?,
        refutations: refutations_of(rt.alloc(), refutations.as_str())?,
    };
    for (name, table) in TABLES {
        print_table(rt, &given, name, table)?;
    }
    Ok(())
}

fn print_large(rt: &HostRuntime, what: &str, number: u32, make: bool) -> Result<()> {
    let line = if what == "clauses" {
        large_form(rt.alloc(), number, make)?
    } else {
        large_base(rt.alloc(), number, make)?
    };
    Ok(println!(rt; "{line}")?)
}

fn main(rt: HostRuntime) -> Result<()> {
    let words: Vec<String> = env::args(&rt)?.collect(rt.alloc())?;
    if let [_, what, count, work] = words.as_slice() {
        let count = number(count.as_str());
        return print_large(&rt, what.as_str(), count, work.as_str() != "build");
    }
    rows::the_counter_comes_to_three();
    rows::the_counter_is_below_three();
    rows::the_counter_skips_nothing();
    form_rows::five_at_its_first_state();
    form_rows::five_after_a_step();
    print_tables(&rt)?;
    for (name, walk) in DEEP {
        let cases = cases_of(&rt, name)?;
        let lines = deep::lines(&rt, rt.alloc(), walk, cases.as_str())?;
        print!(rt; "{lines}")?;
    }
    println!(rt; "== large")?;
    print_large(&rt, "clauses", 1_000, true)?;
    print_large(&rt, "facts", 1_000, true)
}
