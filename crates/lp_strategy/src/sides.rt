ghost use Rattle.std.specs.Prelude.{◌≡◌, slice_index_or, slice_get, false};
ghost use Rattle.lp_strategy.specs.Sides.{has_side_in, has_side_at, has_side_around, is_register_of, has_state_in, names_side_by, names_register_by, is_placed_by};

use lp_model::{CellId, CellShape, Element, Graph, InstId, Leaf, LeafId, NodeId, StrategyKind};
use sqlite_items::at;

/// The domain of an instance.
fn domain_at(domains: &[u32], instance: InstId) -> u32
    ensures { result ≡ slice_index_or domains.now instance.0 0 }
{
    match at(domains, instance.0 as usize) {
        Some(domain) => *domain,
        None => 0,
    }
}

/// Whether a domain has a side of an instance at which domains meet, by the instance in which it stands.
fn has_side_in(domains: &[u32], domain: u32, instance: InstId, parent: Option<InstId>) -> bool
    ensures { result ≡ has_side_in domains.now domain instance.0 parent }
{
    let own = domain_at(domains, instance);
    match parent {
        Some(parent) => {
            let above = domain_at(domains, parent);
            own != above && (own == domain || above == domain)
        }
        None => own == domain,
    }
}

/// Whether domains meet at an instance, and a domain has one of its sides; a number of no instance means the top.
fn has_side_at(graph: &Graph, domains: &[u32], domain: u32, instance: InstId) -> bool
    ensures { result ≡ has_side_at graph.now.instances domains.now domain instance.0 }
{
    match at(graph.instances.as_slice(), instance.0 as usize) {
        Some(row) => has_side_in(domains, domain, instance, row.parent),
        None => domain_at(domains, InstId(0)) == domain,
    }
}

/// Whether that holds of the instance of a net bit.
fn has_side_around(graph: &Graph, domains: &[u32], domain: u32, node: NodeId) -> bool
    ensures { result ≡ has_side_around graph.now domains.now domain node.0 }
{
    match at(graph.nodes.as_slice(), node.0 as usize) {
        Some(row) => has_side_at(graph, domains, domain, row.inst),
        None => false,
    }
}

/// Whether a cell has a state group.
fn has_state(shapes: &[CellShape], cell: CellId) -> bool
    ensures { result ≡ has_state_in shapes.now cell.0 }
{
    match at(shapes, cell.0 as usize) {
        Some(shape) => shape.state,
        None => false,
    }
}

/// Whether a cell instance is a register of a domain (own rule: its cell has a state group), by the domain of each
/// instance.
pub fn is_register_of(graph: &Graph, domains: &[u32], domain: u32, leaf: LeafId) -> bool
    ensures { result ≡ is_register_of graph.now domains.now domain leaf.0 }
{
    match at(graph.leaves.as_slice(), leaf.0 as usize) {
        Some(row) => {
            domain_at(domains, row.inst) == domain && has_state(graph.shapes.as_slice(), row.cell)
        }
        None => false,
    }
}

/// Whether an element of an isolation or of a shifting names a side of a domain.
fn names_side(graph: &Graph, domains: &[u32], domain: u32, element: Element) -> bool
    ensures { result ≡ names_side_by graph.now domains.now domain element }
{
    match element {
        Element::Inst(instance) => has_side_at(graph, domains, domain, instance),
        Element::Leaf(_) => false,
        Element::Port(instance, _) => has_side_at(graph, domains, domain, instance),
        Element::Bit(node) => has_side_around(graph, domains, domain, node),
    }
}

/// Whether an element of a retention names a register or a module instance of a domain.
fn names_register(graph: &Graph, domains: &[u32], domain: u32, element: Element) -> bool
    ensures { result ≡ names_register_by graph.now domains.now domain element }
{
    match element {
        Element::Inst(instance) => domain_at(domains, instance) == domain,
        Element::Leaf(leaf) => is_register_of(graph, domains, domain, leaf),
        Element::Port(_, _) => false,
        Element::Bit(_) => false,
    }
}

/// Whether an element of a strategy names what a strategy of its kind and its domain acts on.
pub(crate) fn is_placed(
    graph: &Graph,
    domains: &[u32],
    kind: StrategyKind,
    domain: u32,
    element: Element,
) -> bool
    ensures { result ≡ is_placed_by graph.now domains.now kind domain element }
{
    match kind {
        StrategyKind::Retention => names_register(graph, domains, domain, element),
        _ => names_side(graph, domains, domain, element),
    }
}
