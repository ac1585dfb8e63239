//! What is made of a declaration: its streams, equations and modes, and the rows of its own graph.

ghost use Rattle.std.specs.Prelude.{◌≡◌, [], ℕ, IfOk, List, MatchOption, length};
ghost use Rattle.lus_tree.specs.Tree.{Component, Program as ProgramTree};
ghost use Rattle.lus_meaning.specs.Scene.{variables};
ghost use Rattle.lus_meaning.specs.WellMade.{AreDistinct};
ghost use Rattle.number_graphs.specs.Graphs.{HasCircle, graph_view};
ghost use Rattle.lus_order.specs.Own.{IsOwn};
ghost use Rattle.lus_order.specs.OwnOrders.{IsOrderOf};
ghost use Rattle.lus_streams.specs.Owner.{owner_view};
ghost use Rattle.lus_order.specs.Streams.{names_of};

use crate::library::Library;
use crate::modes::modes_of;
use crate::own_rows::own_rows;
use crate::rows::Mode;
use crate::setting::Clocks;
use crate::sides::{Side, sides_of};
use crate::streams::{params_of, table_of};
use lus_streams::owner::Owner;
use lus_tree::Param;
use number_graphs::graph::Graph;
use number_graphs::order_from::order_from;
use std::alloc::{AllocError, Global};

/// A declaration with its streams, its equations, its modes and its own graph.
#[derive(Drop)]
pub(crate) struct Own<'a> {
    pub(crate) params: Vec<&'a Param>,
    pub(crate) sides: Vec<Side<'a>>,
    pub(crate) clocks: Clocks<'a>,
    pub(crate) modes: Vec<Mode<'a>>,
    pub(crate) graph: Graph,
}

/// What is made of a declaration, of which no two streams have one name.
///
/// # Errors
///
/// Want of memory.
pub(crate) fn own_of<'a>(
    alloc: Global,
    library: &Library<'a>,
    owner: Owner<'a>,
) -> Result<Own<'a>, AllocError>
    requires { AreDistinct (names_of (variables (owner_view owner))) }
    ensures { IfOk result (λ o. IsOwn (owner_view owner.entry) library.now o) }
{
    let params = params_of(alloc, owner)?;
    let sides = sides_of(alloc, owner)?;
    let clocks = table_of(alloc, &params, &sides)?;
    let modes = modes_of(alloc, &clocks, library, owner.contract())?;
    let graph = own_rows(alloc, &clocks, &library.callees, &modes, &sides)?;
    Ok(Own {
        params,
        sides,
        clocks,
        modes,
        graph,
    })
}

impl Own<'_> {
    /// The equations, numbered from 0 in text order, again and again the least not yet listed of which all is listed
    /// that it depends on at its instant; none only where some node of the own graph leads to itself.
    ///
    /// # Errors
    ///
    /// Want of memory.
    pub(crate) fn order(&self, alloc: Global) -> Result<Option<Vec<usize>>, AllocError>
        ensures { IfOk result (λ o. MatchOption o (HasCircle (graph_view self.now.graph))
            (λ v. IsOrderOf (length self.now.clocks.names) (graph_view self.now.graph) v.items)) }
    {
        order_from(alloc, &self.graph, self.clocks.names.len())
    }
}
