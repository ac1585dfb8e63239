//! Circles of declarations.

ghost use Rattle.std.specs.Prelude.{◌≡◌, ◌++◌, ◌<◌, ◌∷◌, [], IfOk, List, Some, false, true, map, length, slice_get, cond, set, flat_map};
ghost use Rattle.lus_tree.specs.Tree.{Component, Program as ProgramTree};
ghost use Rattle.lus_tree.specs.Reason.{Refused};
ghost use Rattle.lus_tree.specs.View.{decl_view, program_view, word_view};
ghost use Rattle.lus_meaning.specs.ClockFaults.{components};
ghost use Rattle.lus_meaning.specs.NameFaults.{callee_in, import_words, recursion_faults};
ghost use Rattle.lus_meaning.specs.Occurrences.{gathered};
ghost use Rattle.lus_meaning.specs.Scene.{contract_statements};
ghost use Rattle.lus_types.specs.Called.{contract_links, link_of, marked_faults, names_behind, node_links, row_by, row_of};
ghost use Rattle.lus_types.specs.Circles.{IsGraph, IsLeading, IsOne};
ghost use Rattle.lus_scopes.specs.Least.{least_view, noted_all};
ghost use Rattle.lus_scopes.specs.Notes.{Notes};
ghost use Rattle.lus_scopes.specs.Scopes.{owner_view};
ghost use Rattle.lus_types.specs.Marks.{is_marked, link_view, row_view};
ghost use Rattle.lus_types.specs.Words.{words_view};
ghost use Rattle.name_table.specs.Names.{number_of};

use crate::called::{calls_of, imports_of};
use crate::marks::{Link, Row, is_marked, spread_by};
use crate::ways::{Ways, places_to, ways_of};
use lus_scopes::declarations::Declarations;
use lus_scopes::least::Least;
use lus_scopes::scope::Owner;
use lus_tree::{Decl, PlacedName, Program, What};
use name_table::NameTable;
use std::alloc::{AllocError, Global};

/// What the declarations of a program with parts call and import, by the numbers of their names.
#[derive(Drop)]
pub(crate) struct Graph {
    /// A row for each, in text order.
    pub(crate) rows: Vec<Row>,
    /// How many names there are.
    count: usize,
    /// The same, forth and back.
    pub(crate) ways: Ways,
}

/// The names of declarations with parts, each once.
fn names_of(alloc: Global, program: &Program) -> Result<NameTable, AllocError>
    ensures { IfOk result (λ t. t ≡ names_behind [] (program_view program.now)) }
{
    let mut names = NameTable::new(alloc);
    for decl in &program.decls {
        add_name(alloc, &mut names, decl)?;
    }
    Ok(names)
}

/// Adds the name of a declaration with parts, where it is new.
fn add_name(alloc: Global, names: &mut NameTable, decl: &Decl) -> Result<(), AllocError>
    ensures { IfOk result (λ _. names.new ≡ names_behind names.old (decl_view decl.now ∷ [])) }
{
    match decl {
        Decl::Constant(_) => {}
        Decl::Node(node) => {
            names.add(alloc, &node.name.text)?;
        }
        Decl::Contract(contract) => {
            names.add(alloc, &contract.name.text)?;
        }
    }
    Ok(())
}

/// The number of a name, and how many names there are where it has none.
#[tactic(auto, using(crate::proofs::CircleFaults::number_past))]
pub(crate) fn number_of(names: &NameTable, name: &str) -> usize
    ensures { result ≡ number_of names.now name.now }
{
    match names.number(name) {
        Some(number) => number,
        None => names.len(),
    }
}

/// The links, and behind them one to this name, where it has a number.
fn push_link(links: &mut Vec<Link>, names: &NameTable, word: &PlacedName) -> Result<(), AllocError>
    ensures { IfOk result (λ _. map link_view links.new.items ≡ map link_view links.old.items
        ++ link_of names.now (word_view word.now)) }
{
    if let Some(to) = names.number(&word.text) {
        let link = Link { to, at: word.at };
        links.push(link)?;
    }
    Ok(())
}

/// The links, and behind them one to this name, where it is a node's or function's.
fn push_node_link(
    links: &mut Vec<Link>,
    declarations: &Declarations<'_>,
    names: &NameTable,
    word: &PlacedName,
) -> Result<(), AllocError>
    ensures { IfOk result (λ _. map link_view links.new.items ≡ map link_view links.old.items
        ++ node_links (program_view declarations.now) names.now (word_view word.now ∷ [])) }
{
    if declarations.node(&word.text).is_some() {
        push_link(links, names, word)?;
    }
    Ok(())
}

/// The links, and behind them one to this name, where it is a contract node's.
fn push_contract_link(
    links: &mut Vec<Link>,
    declarations: &Declarations<'_>,
    names: &NameTable,
    word: &PlacedName,
) -> Result<(), AllocError>
    ensures { IfOk result (λ _. map link_view links.new.items ≡ map link_view links.old.items
        ++ contract_links (program_view declarations.now) names.now (word_view word.now ∷ [])) }
{
    if declarations.contract(&word.text).is_some() {
        push_link(links, names, word)?;
    }
    Ok(())
}

/// The links, and behind them those to the nodes and functions of these names.
fn push_node_links(
    links: &mut Vec<Link>,
    declarations: &Declarations<'_>,
    names: &NameTable,
    words: &[&PlacedName],
) -> Result<(), AllocError>
    ensures { IfOk result (λ _. map link_view links.new.items ≡ map link_view links.old.items
        ++ node_links (program_view declarations.now) names.now (words_view words.now)) }
{
    for word in words {
        push_node_link(links, declarations, names, word)?;
    }
    Ok(())
}

/// The links, and behind them those to the contract nodes of these names.
fn push_contract_links(
    links: &mut Vec<Link>,
    declarations: &Declarations<'_>,
    names: &NameTable,
    words: &[&PlacedName],
) -> Result<(), AllocError>
    ensures { IfOk result (λ _. map link_view links.new.items ≡ map link_view links.old.items
        ++ contract_links (program_view declarations.now) names.now (words_view words.now)) }
{
    for word in words {
        push_contract_link(links, declarations, names, word)?;
    }
    Ok(())
}

/// The row of a declaration by what it calls and imports.
fn row_by(
    alloc: Global,
    declarations: &Declarations<'_>,
    names: &NameTable,
    name: &str,
    calls: &[&PlacedName],
    imports: &[&PlacedName],
) -> Result<Row, AllocError>
    ensures { IfOk result (λ r. row_view r
        ≡ row_by (program_view declarations.now) names.now name.now (words_view calls.now) (words_view imports.now)) }
{
    let mut links = Vec::new(alloc);
    push_node_links(&mut links, declarations, names, calls)?;
    push_contract_links(&mut links, declarations, names, imports)?;
    Ok(Row {
        from: number_of(names, name),
        links,
    })
}

/// The row of a declaration of this name.
fn row_of(
    alloc: Global,
    declarations: &Declarations<'_>,
    names: &NameTable,
    name: &str,
    owner: Owner<'_>,
) -> Result<Row, AllocError>
    ensures { IfOk result (λ r. row_view r ≡ row_by (program_view declarations.now) names.now name.now
        (gathered callee_in (owner_view owner.entry)) (flat_map import_words
        (contract_statements (owner_view owner.entry)))) }
{
    let calls = calls_of(alloc, owner)?;
    let imports = imports_of(alloc, owner.contract())?;
    row_by(alloc, declarations, names, name, &calls, &imports)
}

/// The rows, and behind them that of a declaration with parts.
fn push_row(
    alloc: Global,
    rows: &mut Vec<Row>,
    declarations: &Declarations<'_>,
    names: &NameTable,
    decl: &Decl,
) -> Result<(), AllocError>
    ensures { IfOk result (λ _. map row_view rows.new.items ≡ map row_view rows.old.items
        ++ map (row_of (program_view declarations.now) names.now) (components (decl_view decl.now ∷ []))) }
{
    match decl {
        Decl::Constant(_) => {}
        Decl::Node(node) => {
            let owner = Owner::Node(node);
            let row = row_of(alloc, declarations, names, &node.name.text, owner)?;
            rows.push(row)?;
        }
        Decl::Contract(contract) => {
            let owner = Owner::Contract(contract);
            let row = row_of(alloc, declarations, names, &contract.name.text, owner)?;
            rows.push(row)?;
        }
    }
    Ok(())
}

/// A row for each declaration with parts.
fn rows_of(
    alloc: Global,
    declarations: &Declarations<'_>,
    names: &NameTable,
    decls: &[Decl],
) -> Result<Vec<Row>, AllocError>
    ensures { IfOk result (λ v. map row_view v.items
        ≡ map (row_of (program_view declarations.now) names.now) (components (map decl_view decls.now))) }
{
    let mut rows = Vec::new(alloc);
    for decl in decls {
        push_row(alloc, &mut rows, declarations, names, decl)?;
    }
    Ok(rows)
}

/// What the declarations of a program call and import.
pub(crate) fn graph_of(alloc: Global, declarations: &Declarations<'_>) -> Result<Graph, AllocError>
    ensures { IfOk result (λ g. IsGraph (program_view declarations.now) g) }
{
    let names = names_of(alloc, declarations.program())?;
    let rows = rows_of(alloc, declarations, &names, &declarations.program().decls)?;
    let ways = ways_of(alloc, &rows, names.len())?;
    Ok(Graph {
        rows,
        count: names.len(),
        ways,
    })
}

/// As many numbers, of which one is marked.
fn one_marked(alloc: Global, count: usize, number: usize) -> Result<Vec<bool>, AllocError>
    ensures { IfOk result (λ v. IsOne count number v.items) }
{
    let mut marks = Vec::new(alloc);
    for i in 0..count {
        marks.push(i == number)?;
    }
    Ok(marks)
}

/// The numbers that lead to one.
fn leading(alloc: Global, graph: &Graph, number: usize) -> Result<Vec<bool>, AllocError>
    ensures { IfOk result (λ v. IsLeading (map row_view graph.now.rows.items) graph.now.count number v.items) }
{
    let mut marks = one_marked(alloc, graph.count, number)?;
    let places = places_to(alloc, &graph.rows, &graph.ways, number)?;
    spread_by(&mut marks, &graph.rows, &places);
    Ok(marks)
}

/// Notes the links to marked numbers.
fn note_marked(least: &mut Least, marks: &[bool], links: &[Link])
    ensures { least_view least.new
        ≡ noted_all (least_view least.old) (marked_faults marks.now (map link_view links.now)) }
{
    for link in links {
        least.note_if(is_marked(marks, link.to), What::NodeRecursion, link.at);
    }
}

/// Notes the calls and imports of the declaration with parts of that number, counted from 0, that
/// are on a circle of declarations.
///
/// # Errors
///
/// Want of memory.
pub(crate) fn recursion(
    alloc: Global,
    graph: &Graph,
    least: &mut Least,
    number: usize,
) -> Result<(), AllocError>
    requires { number < length graph.now.rows.items }
    ensures { IfOk result (λ _. (p : ProgramTree) (n : Component) → IsGraph p graph.now
        → slice_get (components p) number ≡ Some n
        → Notes (least_view least.old) (least_view least.new) (recursion_faults p n)) }
{
    let row = &graph.rows[number];
    let marks = leading(alloc, graph, row.from)?;
    note_marked(least, &marks, &row.links);
    Ok(())
}
