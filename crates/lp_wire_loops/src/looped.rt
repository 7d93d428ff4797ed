ghost use Rattle.std.specs.Prelude.{◌≡◌, ℕ, List, IfOk};
ghost use Rattle.lp_spec_design.specs.Netlists.{Structure};
ghost use Rattle.lp_spec_bridge.specs.Tables.{IsClosed, tables_of};
ghost use Rattle.lp_wire_loops.specs.Reads.{inner_node, HasWires, IsFirstLoop, IsWithin};

use crate::reads::wire_reads;
use lp_loops::first_looped;
use lp_model::{Graph, NodeId};
use lp_order::is_ordered;
use lp_text::NoMemory;
use std::alloc::Global;

/// The node of a number, where it is a net bit of an instance.
fn inner_node(key: Option<usize>, inner: u32) -> Option<NodeId>
    ensures { result ≡ inner_node key inner }
{
    match key {
        Some(key) if key < inner as usize => Some(NodeId(key as u32)),
        _ => None,
    }
}

/// The first net bit that reaches itself through ports and assigns alone. Takes time and memory in proportion to the
/// nodes: some 40 bytes a node where there is no loop.
///
/// # Errors
///
/// Only where memory is refused.
#[tactic(auto, using(crate::proofs::Places::closed_reads, crate::proofs::Places::told_none, crate::proofs::Places::told))]
pub fn first_wire_loop(alloc: Global, graph: &Graph) -> Result<Option<NodeId>, NoMemory>
    requires { IsClosed (tables_of graph.now) }
    ensures first { (texts : List (List ℕ)) (s : Structure) → HasWires texts s graph.now → IfOk result (IsFirstLoop s) }
    ensures within { IfOk result (IsWithin graph.now.inner) }
{
    let reads = wire_reads(alloc, graph.edges.as_slice(), graph.nodes.as_slice())?;
    if is_ordered(alloc, &reads)? {
        return Ok(None);
    }
    let first = first_looped(alloc, &reads)?;
    Ok(inner_node(first, graph.inner))
}
