//! A program that breaks no rule and passes no limit.

ghost use Rattle.std.specs.Prelude.{◌≡◌, ◌<◌, None, Some, length, map};
ghost use Rattle.lus_tree.specs.Lookup.{nodes_of};
ghost use Rattle.lus_tree.specs.View.{program_view};
ghost use Rattle.lus_meaning.specs.ClockFaults.{components};
ghost use Rattle.lus_meaning.specs.Refusals.{IsChecked, IsWithinLimits};
ghost use Rattle.lus_checked.specs.Program.{IsCheckedWith, IsOrderOf, main_of, tree_of, width_of};
ghost use Rattle.lus_checked.specs.Properties.{listed_of, property_seen};
ghost use Rattle.lus_checked.specs.Reads.{AreReadNow, AreReadsOf, outputs_of};

use crate::kept::Kept;
use crate::property::Property;
use lus_clocks::Clocked;
use lus_tree::Program;
use std::marker::Model;

/// A program that breaks no rule and passes no limit, as `checked` makes it, with its main node, the orders of its
/// equations, the widths and properties of its systems, and what its outputs depend on. Contracts see the program
/// and the number of the main node.
#[derive(Drop)]
pub struct Checked {
    clocked: Clocked,
    kept: Kept,
}

impl Model for Checked {
    ghost use Rattle.lus_tree.specs.contracts.declaration.Program as e;
    ghost use Rattle.std.specs.Coded.{codes};
    ghost use Rattle.lus_tree.specs.View.{program_view};
    ghost use Rattle.lus_checked.specs.Program.{IsCheckedWith, Marked};

    ghost Value = { Marked };

    ghost coded = { Prim.hlevel (codes, e.the_row.coded) };

    ghost view = { λ c. (c.clocked, c.kept.main) };

    ghost invariant = { λ c. IsCheckedWith (program_view c.clocked) c.kept };
}

impl Checked {
    /// The program, of which the caller knows that it breaks no rule and passes no limit.
    pub(crate) fn of(clocked: Clocked, kept: Kept) -> Self
        requires { IsCheckedWith (program_view clocked) kept }
        ensures tree { tree_of result ≡ program_view clocked }
        ensures main { main_of result ≡ kept.main }
    {
        Checked { clocked, kept }
    }

    /// The program. It breaks no rule and passes no limit.
    pub fn program(&self) -> &Program
        ensures same { program_view result.now ≡ tree_of self.now }
        ensures rules { IsChecked (tree_of self.now) }
        ensures within { IsWithinLimits (tree_of self.now) None }
    {
        self.clocked.program()
    }

    /// The same program.
    pub fn into_program(self) -> Program
        ensures same { program_view result ≡ tree_of self }
        ensures rules { IsChecked (program_view result) }
        ensures within { IsWithinLimits (program_view result) None }
    {
        self.clocked.into_program()
    }

    /// The program with what is known of its names, types and clocks.
    pub fn clocked(&self) -> &Clocked
        ensures { program_view result.now ≡ tree_of self.now }
    {
        &self.clocked
    }

    /// The number of the main node among nodes and functions, which count from 0 in text order.
    pub fn main(&self) -> u32
        ensures same { result ≡ main_of self.now }
        ensures node { result < length (nodes_of (tree_of self.now)) }
    {
        self.kept.main
    }

    /// How many declarations with parts there are: nodes, functions and contract nodes.
    pub fn parts(&self) -> usize
        ensures { result ≡ length (components (tree_of self.now)) }
    {
        self.kept.orders.len()
    }

    /// The equations of a declaration with parts by its number, constants left out, counted from 0 in text order:
    /// the numbers of its equations, ghost ones first, in the least order in which each stands behind all that it
    /// needs at its own instant.
    pub fn order(&self, number: usize) -> &[u32]
        requires { number < length (components (tree_of self.now)) }
        ensures { IsOrderOf (tree_of self.now) number result.now }
    {
        self.kept.orders[number].as_slice()
    }

    /// How many variables the system of the node or function with that number has.
    pub fn width(&self, node: u32) -> u32
        requires { node < length (nodes_of (tree_of self.now)) }
        ensures { width_of (tree_of self.now) node ≡ Some result }
    {
        self.kept.widths[node as usize]
    }

    /// The properties of the node or function with that number, in order: those of its body, its guarantees, the
    /// ensures of its modes, that one mode is active, where it has a mode, and for each call by number the
    /// assumptions of the callee.
    pub fn properties(&self, node: u32) -> &[Property]
        requires { node < length (nodes_of (tree_of self.now)) }
        ensures { listed_of (tree_of self.now) node ≡ Some (map property_seen result.now) }
    {
        self.kept.properties[node as usize].as_slice()
    }

    /// For each output of the node or function with that number, in text order, on which inputs it depends at the same
    /// instant, as `reads_now` has them one by one.
    pub fn reads(&self, node: u32) -> &[Vec<u32>]
        requires { node < length (nodes_of (tree_of self.now)) }
        ensures { AreReadsOf (tree_of self.now) node (map (λ r. r.items) result.now) }
    {
        self.kept.reads[node as usize].as_slice()
    }

    /// On which inputs an output of the node or function with that number depends at the same instant, by the rule
    /// that no equation depends on itself there: the numbers of these inputs, ascending. Inputs and outputs count
    /// from 0 in text order.
    pub fn reads_now(&self, node: u32, output: u32) -> &[u32]
        requires node { node < length (nodes_of (tree_of self.now)) }
        requires output { output < length (outputs_of (tree_of self.now) node) }
        ensures { AreReadNow (tree_of self.now) node output result.now }
    {
        self.reads(node)[output as usize].as_slice()
    }
}
