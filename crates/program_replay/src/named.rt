//! The node that a trace names.

ghost use Rattle.std.specs.Prelude.{◌≡◌, option_map};
ghost use Rattle.lus_tree.specs.View.{program_view};
ghost use Rattle.program_replay.specs.Named.{numbers_from};
ghost use Rattle.program_replay.specs.NamedView.{named_view};

use lus_tree::{Decl, Node, Program};

/// A node or function, with its number among these, and its number among all declarations with parts.
#[derive(Clone, Copy)]
pub(crate) struct Named<'a> {
    pub(crate) node: &'a Node,
    pub(crate) number: usize,
    pub(crate) place: usize,
}

/// The first node or function of that name.
pub(crate) fn find_named<'a>(program: &'a Program, name: &str) -> Option<Named<'a>>
    ensures { option_map named_view result ≡ numbers_from 0 0 name.now (program_view program.now) }
{
    let mut number = 0;
    let mut place = 0;
    for decl in &program.decls {
        match decl {
            Decl::Constant(_) => {}
            Decl::Contract(_) => place += 1,
            Decl::Node(node) => {
                if name == node.name.text.as_str() {
                    return Some(Named {
                        node,
                        number,
                        place,
                    });
                }
                number += 1;
                place += 1;
            }
        }
    }
    None
}
