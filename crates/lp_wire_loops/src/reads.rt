ghost use Rattle.std.specs.Prelude.{◌≡◌, IfOk};
ghost use Rattle.lp_wire_loops.specs.Reads.{source_reads, wire_reads};
ghost use Rattle.lp_wire_loops.specs.Reads.{read_or_none};

use lp_model::{Edge, EdgeFrom, Node, Source};
use lp_order::Graph;
use lp_text::NoMemory;
use std::alloc::Global;

/// The node that a source comes from by an edge.
fn read_of(edges: &[Edge], source: Source) -> Option<u32>
    ensures { read_or_none result ≡ source_reads edges.now source }
{
    let Source::Edge(edge) = source else {
        return None
    };
    match edges.get(edge.0 as usize) {
        Some(edge) => match edge.from {
            EdgeFrom::Node(node) => Some(node.0),
            EdgeFrom::Const(_) => None,
        },
        None => None,
    }
}

/// The node that each node reads by an edge.
pub(crate) fn wire_reads(alloc: Global, edges: &[Edge], nodes: &[Node]) -> Result<Graph, NoMemory>
    ensures { IfOk result (λ g. g ≡ wire_reads edges.now nodes.now) }
{
    let mut graph = Graph::new(alloc);
    for node in nodes {
        match read_of(edges, node.source) {
            Some(read) => graph.push_row(&[read])?,
            None => graph.push_row(&[])?,
        }
    }
    Ok(graph)
}
