//! Nodes by number and by name.

ghost use Rattle.std.specs.Prelude.{◌≡◌, ◌<◌, ◌^◌, length, option_map};
ghost use Rattle.lus_tree.specs.Lookup.{node_at, number_of};
ghost use Rattle.lus_tree.specs.View.{node_view, program_view};

use crate::declaration::{Decl, Node, Program};

impl Program {
    /// The node or function with this number: they count from 0 in text order. None exactly where
    /// there are no more than `number` of them.
    pub fn node(&self, number: u32) -> Option<&Node>
        ensures { option_map (λ n. node_view n.now) result ≡ node_at number (program_view self.now) }
    {
        let mut before = number;
        for decl in &self.decls {
            if let Decl::Node(node) = decl {
                if before == 0 {
                    return Some(node);
                }
                before -= 1;
            }
        }
        None
    }

    /// The number of the first node or function of this name. None exactly where there is none.
    pub fn named(&self, name: &str) -> Option<u32>
        requires { length (program_view self.now) < 2 ^ 32 }
        ensures { result ≡ number_of name.now (program_view self.now) }
    {
        let mut number = 0;
        for decl in &self.decls {
            if let Decl::Node(node) = decl {
                if name == node.name.text.as_str() {
                    return Some(number);
                }
                number += 1;
            }
        }
        None
    }
}
