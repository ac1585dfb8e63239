//! Finite directed graphs of numbers.

ghost use Rattle.std.specs.Prelude.{◌≡◌, ◌∷◌, ◌++◌, [], OnErr, OnOk, length};
ghost use Rattle.number_graphs.specs.Graphs.{graph_view, row_at};

use std::alloc::{AllocError, Global};

/// A finite directed graph: for each number, counted from 0, those that it leads to.
#[derive(Drop)]
pub struct Graph {
    pub rows: Vec<Vec<usize>>,
}

impl Graph {
    /// A graph without numbers.
    pub fn new(alloc: Global) -> Self
        ensures { graph_view result ≡ [] }
    {
        Graph {
            rows: Vec::new(alloc),
        }
    }

    /// One more number, which leads to these.
    ///
    /// # Errors
    ///
    /// Want of memory; the graph is then as it was.
    pub fn push(&mut self, row: Vec<usize>) -> Result<(), AllocError>
        ensures pushed { OnOk result (graph_view self.new ≡ graph_view self.old ++ row.items ∷ []) }
        ensures kept { OnErr result (graph_view self.new ≡ graph_view self.old) }
    {
        self.rows.push(row)?;
        Ok(())
    }

    /// How many numbers there are.
    pub fn len(&self) -> usize
        ensures { result ≡ length (graph_view self.now) }
    {
        self.rows.len()
    }

    /// The numbers that a number leads to by one step.
    pub fn row(&self, number: usize) -> &[usize]
        ensures { result.now ≡ row_at (graph_view self.now) number }
    {
        if number < self.rows.len() {
            &self.rows[number]
        } else {
            &[]
        }
    }
}
