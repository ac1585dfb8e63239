//! What a number of a graph leads to.

ghost use Rattle.std.specs.Prelude.{◌≡◌, IfOk};
ghost use Rattle.number_graphs.specs.Graphs.{AreReached, graph_view};
ghost use Rattle.number_graphs.specs.Visits.{once, state_view, visited, visited_all};

use crate::graph::Graph;
use std::alloc::{AllocError, Global};

/// The numbers that were met, as marks and in the order in which they were.
#[derive(Drop)]
struct Search {
    marks: Vec<bool>,
    queue: Vec<usize>,
}

impl Search {
    /// Meets a number.
    fn visit(&mut self, number: usize) -> Result<(), AllocError>
        ensures { IfOk result (λ _. state_view self.new ≡ visited (state_view self.old) number) }
    {
        if number < self.marks.len() && !self.marks[number] {
            self.marks[number] = true;
            self.queue.push(number)?;
        }
        Ok(())
    }

    /// Meets these numbers.
    fn visit_all(&mut self, numbers: &[usize]) -> Result<(), AllocError>
        ensures { IfOk result (λ _. state_view self.new ≡ visited_all (state_view self.old) numbers.now) }
    {
        for number in numbers {
            self.visit(*number)?;
        }
        Ok(())
    }
}

/// Marks the numbers that a number leads to by one step or several.
///
/// # Errors
///
/// Want of memory.
pub fn reached(alloc: Global, graph: &Graph, start: usize) -> Result<Vec<bool>, AllocError>
    ensures { IfOk result (λ v. AreReached (graph_view graph.now) start v.items) }
{
    let mut search = Search {
        marks: vec![in alloc; false; graph.len()]?,
        queue: Vec::new(alloc),
    };
    search.visit_all(graph.row(start))?;
    let mut turn = 0;
    while turn < search.queue.len() {
        let number = search.queue[turn];
        search.visit_all(graph.row(number))?;
        turn += 1;
    }
    Ok(search.marks)
}

/// Each of these numbers once, of those below a count.
///
/// # Errors
///
/// Want of memory.
pub fn once(alloc: Global, count: usize, numbers: &[usize]) -> Result<Vec<usize>, AllocError>
    ensures { IfOk result (λ v. v.items ≡ once count numbers.now) }
{
    let mut search = Search {
        marks: vec![in alloc; false; count]?,
        queue: Vec::new(alloc),
    };
    search.visit_all(numbers)?;
    Ok(search.queue)
}
