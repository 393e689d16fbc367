ghost use Rattle.std.specs.Prelude.{IfOk};
ghost use Rattle.cep_log.specs.Legal.{IsLegal};
ghost use Rattle.cep_graph.specs.BySeed.{IsOrderOf, IsReorderedBy};

use crate::graph_of::graph;
use cep_cause::laws::orders_by_seeds_are_orders;
use cep_cause::{Reordered, again};
use cep_log::Log;
use cep_order::{Numbers, order_by};
use cep_rule::Program;
use std::alloc::{AllocError, Global};

// The order that a seed gives to the steps of a legal log by its graph, which is let go.
fn order_of(alloc: Global, program: &Program, log: &Log, seed: u64) -> Result<Numbers, AllocError>
    requires { IsLegal program.now log.now }
    ensures { IfOk result (IsOrderOf program.now log.now seed) }
{
    orders_by_seeds_are_orders();
    let causes = graph(alloc, program, log)?;
    let order = order_by(alloc, &causes, seed)?;
    Ok(order)
}

/// A legal log with its steps in the order that a seed gives by its graph: its text in version 2, or
/// the first step that leads to a state that does not fit, or that the text is too long. That a seed
/// gives the order is this profile's.
///
/// # Errors
///
/// Out of memory alone.
pub fn reorder(
    alloc: Global,
    program: &Program,
    log: &Log,
    seed: u64,
) -> Result<Reordered, AllocError>
    requires { IsLegal program.now log.now }
    ensures { IfOk result (IsReorderedBy program.now log.now seed) }
{
    orders_by_seeds_are_orders();
    let order = order_of(alloc, program, log, seed)?;
    again(alloc, program, log, &order)
}
