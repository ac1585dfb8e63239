//! Which node of a program is analysed.

ghost use Rattle.std.specs.Prelude.{◌≡◌, length};
ghost use Rattle.lus_tree.specs.Lookup.{nodes_of, number_of};
ghost use Rattle.lus_tree.specs.View.{item_view, node_view, program_view};
ghost use Rattle.lus_bounds.specs.Passed.{name_seen};
ghost use Rattle.lus_checked.specs.Main.{first_marked, is_marked, last_number, main_node};

use lus_tree::{Decl, Item, Node, Program};

/// The number of the first node or function of that name, none exactly where there is none.
fn named(program: &Program, name: &str) -> Option<usize>
    ensures { result ≡ number_of name.now (program_view program.now) }
{
    let mut number = 0;
    for decl in &program.decls {
        if let Decl::Node(node) = decl {
            if name == node.name.text.as_str() {
                return Some(number);
            }
            number += 1;
        }
    }
    None
}

/// Whether a body has the mark of a main node.
fn is_marked_main(node: &Node) -> bool
    ensures { result ≡ is_marked (node_view node.now) }
{
    for item in &node.items {
        if let Item::Main(_) = item {
            return true;
        }
    }
    false
}

/// The number of the first node or function with the mark of a main node.
fn marked(program: &Program) -> Option<usize>
    ensures { result ≡ first_marked (nodes_of (program_view program.now)) }
{
    let mut number = 0;
    for decl in &program.decls {
        if let Decl::Node(node) = decl {
            if is_marked_main(node) {
                return Some(number);
            }
            number += 1;
        }
    }
    None
}

/// How many nodes and functions there are.
fn node_count(program: &Program) -> usize
    ensures { result ≡ length (nodes_of (program_view program.now)) }
{
    let mut count = 0;
    for decl in &program.decls {
        if let Decl::Node(_) = decl {
            count += 1;
        }
    }
    count
}

/// The number of the last node or function.
fn last(program: &Program) -> Option<usize>
    ensures { result ≡ last_number (nodes_of (program_view program.now)) }
{
    node_count(program).checked_sub(1)
}

/// The number of the main node among nodes and functions: the first of the given name; where none is given the first
/// with the mark of a main node, else the last. None exactly where there is no such node.
pub(crate) fn main_number(program: &Program, main: Option<&str>) -> Option<usize>
    ensures { result ≡ main_node (program_view program.now) (name_seen main.entry) }
{
    match main {
        Some(name) => named(program, name),
        None => match marked(program) {
            Some(number) => Some(number),
            None => last(program),
        },
    }
}
