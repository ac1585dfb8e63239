//! Rules of a whole program, and the words of its declarations.

ghost use Rattle.std.specs.Prelude.{◌≡◌, ◌==◌, ◌∷◌, ◌++◌, [], IfOk, List, length, map, not};
ghost use Rattle.lus_tree.specs.Lookup.{nodes_of};
ghost use Rattle.lus_tree.specs.Reason.{Refused, name_twice, no_node};
ghost use Rattle.lus_tree.specs.View.{decl_view, program_view, word_view};
ghost use Rattle.lus_meaning.specs.Faults.{if_so, words_twice};
ghost use Rattle.lus_meaning.specs.NameFaults.{constant_words, declaration_word, start_of_text};
ghost use Rattle.lus_scopes.specs.Least.{least_view, noted_all};
ghost use Rattle.lus_scopes.specs.Notes.{Notes};
ghost use Rattle.lus_types.specs.Words.{Adds, words_view};

use crate::repeated::words_twice;
use lus_scopes::least::Least;
use lus_tree::{Decl, PlacedName, Pos, Program, What};
use std::alloc::{AllocError, Global};

/// Whether a program has a node or function.
fn has_node(program: &Program) -> bool
    ensures { result ≡ not (length (nodes_of (program_view program.now)) == 0) }
{
    for decl in &program.decls {
        if let Decl::Node(_) = decl {
            return true;
        }
    }
    false
}

/// Notes a program without node and function.
pub(crate) fn note_no_node(least: &mut Least, program: &Program)
    ensures { least_view least.new ≡ noted_all (least_view least.old)
        (if_so (length (nodes_of (program_view program.now)) == 0) no_node start_of_text) }
{
    least.note_if(!has_node(program), What::NoNode, Pos { line: 1, column: 1 });
}

/// The name of a declaration.
fn declaration_word(decl: &Decl) -> &PlacedName
    ensures { word_view result.now ≡ declaration_word (decl_view decl.now) }
{
    match decl {
        Decl::Constant(definition) => &definition.name,
        Decl::Node(node) => &node.name,
        Decl::Contract(contract) => &contract.name,
    }
}

/// The names of all declarations.
pub(crate) fn declaration_words(
    alloc: Global,
    program: &Program,
) -> Result<Vec<&PlacedName>, AllocError>
    ensures { IfOk result (λ v. words_view v.items ≡ map declaration_word (program_view program.now)) }
{
    let mut words = Vec::new(alloc);
    for decl in &program.decls {
        words.push(declaration_word(decl))?;
    }
    Ok(words)
}

/// The words, and behind them the name of a constant.
fn push_constant_word<'a>(words: &mut Vec<&'a PlacedName>, decl: &'a Decl) -> Result<(), AllocError>
    ensures { IfOk result (λ _. Adds words.old.items words.new.items (constant_words (decl_view decl.now ∷ []))) }
{
    if let Decl::Constant(definition) = decl {
        words.push(&definition.name)?;
    }
    Ok(())
}

/// The names of a program's constants.
pub(crate) fn constant_words(
    alloc: Global,
    program: &Program,
) -> Result<Vec<&PlacedName>, AllocError>
    ensures { IfOk result (λ v. words_view v.items ≡ constant_words (program_view program.now)) }
{
    let mut words = Vec::new(alloc);
    for decl in &program.decls {
        push_constant_word(&mut words, decl)?;
    }
    Ok(words)
}

/// Notes the declarations of which two have one name, each two at the later place.
///
/// # Errors
///
/// Want of memory.
pub(crate) fn declarations_twice(
    alloc: Global,
    least: &mut Least,
    program: &Program,
) -> Result<(), AllocError>
    ensures { IfOk result (λ _. Notes (least_view least.old) (least_view least.new)
        (words_twice name_twice (map declaration_word (program_view program.now)))) }
{
    let words = declaration_words(alloc, program)?;
    words_twice(alloc, least, &words)
}
