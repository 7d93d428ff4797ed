ghost use Rattle.std.specs.Prelude.{◌≡◌, IfOk, true, slice_index_or};
ghost use Rattle.lp_domains.specs.Boundary.{is_other, meetings, from_node, inner_end, is_meeting_edge, meeting_edges};

use lp_model::{Edge, EdgeFrom, EdgeKind, Inst, InstId, Node, NodeId};
use lp_text::NoMemory;
use sqlite_items::{Items, at};
use std::alloc::Global;

/// The domain of an instance.
fn domain_at(domains: &[u32], place: usize) -> u32
    ensures { result ≡ slice_index_or domains.now place 0 }
{
    match at(domains, place) {
        Some(domain) => *domain,
        None => 0,
    }
}

/// Whether an instance is of another domain than the one in which it stands.
fn is_other(domains: &[u32], own: u32, parent: Option<InstId>) -> bool
    ensures { result ≡ is_other domains.now own parent }
{
    match parent {
        Some(parent) => own != domain_at(domains, parent.0 as usize),
        None => true,
    }
}

/// For each instance whether domains meet at it.
pub(crate) fn meetings(
    alloc: Global,
    domains: &[u32],
    instances: &[Inst],
) -> Result<Vec<bool>, NoMemory>
    ensures { IfOk result (λ told. told.items ≡ meetings domains.now instances.now) }
{
    let mut told = Vec::new(alloc);
    for (place, instance) in instances.iter().enumerate() {
        let own = domain_at(domains, place);
        told.push(is_other(domains, own, instance.parent))?;
    }
    Ok(told)
}

/// The node from which an edge comes.
fn from_node(from: EdgeFrom) -> Option<NodeId>
    ensures { result ≡ from_node from }
{
    match from {
        EdgeFrom::Node(node) => Some(node),
        EdgeFrom::Const(_) => None,
    }
}

/// The net bit inside of a port, where an edge is one of a port.
pub(crate) fn inner_end(edge: Edge) -> Option<NodeId>
    ensures { result ≡ inner_end edge }
{
    match edge.kind {
        EdgeKind::In => Some(edge.to),
        EdgeKind::Out => from_node(edge.from),
        EdgeKind::Assign => None,
    }
}

/// Whether an instance is told; one that is not there is.
fn told_at(told: &[bool], instance: InstId) -> bool
    ensures { result ≡ slice_index_or told.now instance.0 true }
{
    match at(told, instance.0 as usize) {
        Some(here) => *here,
        None => true,
    }
}

/// Whether an edge is one of a port of an instance that is told.
fn is_meeting_edge(told: &[bool], nodes: &[Node], edge: Edge) -> bool
    ensures { result ≡ is_meeting_edge told.now nodes.now edge }
{
    let Some(node) = inner_end(edge) else {
        return false
    };
    match at(nodes, node.0 as usize) {
        Some(row) => told_at(told, row.inst),
        None => false,
    }
}

/// For each edge whether it is one of a port of an instance that is told.
pub(crate) fn meeting_edges(
    alloc: Global,
    told: &[bool],
    nodes: &[Node],
    edges: &[Edge],
) -> Result<Items<bool>, NoMemory>
    ensures { IfOk result (λ flags. flags ≡ meeting_edges told.now nodes.now edges.now) }
{
    let mut flags = Items::new(alloc);
    for edge in edges {
        flags.push(is_meeting_edge(told, nodes, *edge))?;
    }
    Ok(flags)
}
