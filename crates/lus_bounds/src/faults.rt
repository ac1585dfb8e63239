//! The faults of passed limits, and the numbers of variables.

ghost use Rattle.std.specs.Prelude.{◌≡◌, ◌+◌, ◌^◌, ◌<◌, ◌∷◌, ◌++◌, [], IfOk, is_none, map, not};
ghost use Rattle.lus_tree.specs.Lookup.{number_of};
ghost use Rattle.lus_tree.specs.View.{decl_view, program_view, word_view};
ghost use Rattle.lus_meaning.specs.Limits.{main_faults};
ghost use Rattle.lus_scopes.specs.Least.{least_view, noted_all};
ghost use Rattle.lus_bounds.specs.Passed.{declaration_faults, fault_of, limit_faults_by, name_seen, parts_after};
ghost use Rattle.lus_bounds.specs.Widths.{declaration_widths, widths_by};

use crate::passed::{node_passed, size_at, text_passed};
use lus_limits::SystemSize;
use lus_scopes::least::Least;
use lus_streams::owner::Owner;
use lus_tree::{Decl, PlacedName, Pos, Program, What};
use std::alloc::{AllocError, Global};

/// Notes a limit that the declaration of that name passes, where there is one.
fn note_limit(least: &mut Least, word: &PlacedName, limit: Option<u64>)
    ensures { least_view least.new ≡ noted_all (least_view least.old) (fault_of (word_view word.now) limit) }
{
    if let Some(limit) = limit {
        least.note(What::TooMany(limit), word.at);
    }
}

/// Notes the first limit that a declaration passes, behind so many with parts.
fn note_declaration(least: &mut Least, sizes: &[SystemSize], before: usize, decl: &Decl)
    ensures { least_view least.new
        ≡ noted_all (least_view least.old) (declaration_faults sizes.now before (decl_view decl.now)) }
{
    match decl {
        Decl::Constant(_) => {}
        Decl::Node(node) => {
            let limit = node_passed(before, Owner::Node(node), size_at(sizes, before));
            note_limit(least, &node.name, limit);
        }
        Decl::Contract(contract) => {
            let limit = text_passed(before, Owner::Contract(contract));
            note_limit(least, &contract.name, limit);
        }
    }
}

/// How many declarations with parts there are with one declaration more.
pub fn parts_after(before: usize, decl: &Decl) -> usize
    requires { before + 1 < 2 ^ 64 }
    ensures { result ≡ parts_after before (decl_view decl.now) }
{
    match decl {
        Decl::Constant(_) => before,
        Decl::Node(_) | Decl::Contract(_) => before + 1,
    }
}

/// Notes the first limit that each declaration passes, by the sizes of their systems in text order.
#[tactic(auto, using(lus_scopes::proofs::Leasts::noted_append))]
pub(crate) fn note_limits(least: &mut Least, sizes: &[SystemSize], decls: &[Decl])
    ensures { least_view least.new
        ≡ noted_all (least_view least.old) (limit_faults_by sizes.now 0 (map decl_view decls.now)) }
{
    let mut before = 0;
    for decl in decls {
        note_declaration(least, sizes, before, decl);
        before = parts_after(before, decl);
    }
}

/// Adds how many variables a declaration's system has, where it is a node or function, behind so many declarations with
/// parts.
fn push_width(
    widths: &mut Vec<usize>,
    sizes: &[SystemSize],
    before: usize,
    decl: &Decl,
) -> Result<(), AllocError>
    ensures { IfOk result (λ _. widths.new.items
        ≡ widths.old.items ++ declaration_widths sizes.now before (decl_view decl.now)) }
{
    if let Decl::Node(_) = decl {
        widths.push(size_at(sizes, before).variables)?;
    }
    Ok(())
}

/// How many variables the systems of nodes and functions have, by the sizes of all systems in text order.
pub(crate) fn node_widths(
    alloc: Global,
    sizes: &[SystemSize],
    decls: &[Decl],
) -> Result<Vec<usize>, AllocError>
    ensures { IfOk result (λ v. v.items ≡ widths_by sizes.now 0 (map decl_view decls.now)) }
{
    let mut widths = Vec::new(alloc);
    let mut before = 0;
    for decl in decls {
        push_width(&mut widths, sizes, before, decl)?;
        before = parts_after(before, decl);
    }
    Ok(widths)
}

/// Whether a declaration is a node or function of that name.
fn is_node_named(decl: &Decl, name: &str) -> bool
    ensures { result ≡ not (is_none (number_of name.now (decl_view decl.now ∷ []))) }
{
    match decl {
        Decl::Node(node) => name == node.name.text.as_str(),
        Decl::Constant(_) | Decl::Contract(_) => false,
    }
}

/// Whether no node and no function has that name.
fn is_unknown(program: &Program, name: &str) -> bool
    ensures { result ≡ is_none (number_of name.now (program_view program.now)) }
{
    for decl in &program.decls {
        if is_node_named(decl, name) {
            return false;
        }
    }
    true
}

/// Notes a named main node that is no node and no function.
pub(crate) fn note_main(least: &mut Least, program: &Program, main: Option<&str>)
    ensures { least_view least.new
        ≡ noted_all (least_view least.old) (main_faults (program_view program.now) (name_seen main.entry)) }
{
    if let Some(name) = main {
        let start = Pos { line: 1, column: 1 };
        least.note_if(is_unknown(program, name), What::MainUnknown, start);
    }
}
