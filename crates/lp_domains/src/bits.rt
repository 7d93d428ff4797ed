ghost use Rattle.std.specs.Prelude.{◌≡◌, ◌≤◌, length, IfOk, false, slice_index_or};
ghost use Rattle.lp_domains.specs.Bits.{joined, joints, told_edge, bits_by};

use crate::boundary::inner_end;
use lp_model::{Edge, EdgeId, NodeId};
use lp_text::NoMemory;
use sqlite_items::{Items, at};
use std::alloc::Global;

/// Notes the edge of a net bit.
fn join(table: &mut Vec<Option<u32>>, node: Option<NodeId>, edge: u32)
    ensures { table.new.items ≡ joined table.old.items node edge }
{
    if let Some(node) = node {
        let place = node.0 as usize;
        if place < table.len() {
            table[place] = Some(edge);
        }
    }
}

/// For each of so many net bits the edge of the port that it is a bit of.
fn joints(alloc: Global, count: usize, edges: &[Edge]) -> Result<Vec<Option<u32>>, NoMemory>
    requires { length edges.now ≤ 4294967295 }
    ensures { IfOk result (λ table. table.items ≡ joints count edges.now) }
{
    let mut table = vec![in alloc; None; count]?;
    for (number, edge) in edges.iter().enumerate() {
        join(&mut table, inner_end(*edge), number as u32);
    }
    Ok(table)
}

/// Whether an edge is told.
fn is_told(told: &[bool], edge: u32) -> bool
    ensures { result ≡ slice_index_or told.now edge false }
{
    match at(told, edge as usize) {
        Some(here) => *here,
        None => false,
    }
}

/// An edge, where it is told.
fn told_edge(told: &[bool], edge: Option<u32>) -> Option<EdgeId>
    ensures { result ≡ told_edge told.now edge }
{
    match edge {
        Some(edge) if is_told(told, edge) => Some(EdgeId(edge)),
        _ => None,
    }
}

/// The edges that are told, in the order of the net bits at whose ports they are.
fn told_edges(
    alloc: Global,
    told: &[bool],
    table: &[Option<u32>],
) -> Result<Items<EdgeId>, NoMemory>
    ensures { IfOk result (λ bits. bits ≡ bits_by told.now table.now) }
{
    let mut bits = Items::new(alloc);
    for edge in table {
        if let Some(edge) = told_edge(told, *edge) {
            bits.push(edge)?;
        }
    }
    Ok(bits)
}

/// The edges that are told, in port order, where there are so many net bits.
pub(crate) fn port_order(
    alloc: Global,
    told: &[bool],
    count: usize,
    edges: &[Edge],
) -> Result<Items<EdgeId>, NoMemory>
    requires { length edges.now ≤ 4294967295 }
    ensures { IfOk result (λ bits. bits ≡ bits_by told.now (joints count edges.now)) }
{
    let table = joints(alloc, count, edges)?;
    told_edges(alloc, told, table.as_slice())
}
