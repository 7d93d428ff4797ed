ghost use Rattle.std.specs.Prelude.{◌≡◌, ◌+◌, ◌<◌, ℕ, List, None, min, length, slice_index_or, IfOk, IfErr};
ghost use Rattle.lp_spec_design.specs.Netlists.{Structure};
ghost use Rattle.lp_spec_faults.specs.Modules.{bits_in, cells_in};
ghost use Rattle.lp_targets.specs.Reports.{limit_told, limits_report, IsStop};
ghost use Rattle.lp_targets.specs.Sizes.{node_limit, instance_limit, OnRows, OnNetlist, AreTogether, AreCounts, AreSizes, AreSizesBelow, sizes_of, size_at, limit_at};

use crate::depth::{DEPTH_LIMIT, depths};
use crate::limits::{count_at, sums};
use crate::own::{own_bits, own_cells, own_instances};
use crate::size::{Counts, Size};
use crate::target::Target;
use lp_model::{Netlist, NetlistFault, NetlistLimit, Refusal};
use lp_text::NoMemory;
use sqlite_items::Items;
use std::alloc::Global;

/// The net bits of what the top contains: 4,000,000.
const NODE_LIMIT: u64 = 4_000_000;

/// The cell instances, or the module instances, of what the top contains: 1,000,000.
const INSTANCE_LIMIT: u64 = 1_000_000;

fn nodes(
    alloc: Global,
    netlist: &Netlist,
    rows: &[Items<Target>],
    order: &[usize],
) -> Result<Vec<u64>, NoMemory>
    ensures { (top : ℕ) → OnNetlist netlist.now rows.now order.now top (λ _ s. IfOk result (λ t. AreTogether s bits_in (node_limit + 1) t.items)) }
{
    let own = own_bits(alloc, netlist.modules.as_slice(), NODE_LIMIT + 1)?;
    sums(alloc, rows, order, own.as_slice(), NODE_LIMIT + 1)
}

fn cells(alloc: Global, rows: &[Items<Target>], order: &[usize]) -> Result<Vec<u64>, NoMemory>
    ensures { OnRows rows.now order.now (λ s. IfOk result (λ t. AreTogether s (cells_in s) (instance_limit + 1) t.items)) }
{
    let own = own_cells(alloc, rows)?;
    sums(alloc, rows, order, own.as_slice(), INSTANCE_LIMIT + 1)
}

fn instances(alloc: Global, rows: &[Items<Target>], order: &[usize]) -> Result<Vec<u64>, NoMemory>
    ensures { OnRows rows.now order.now (λ s. IfOk result (λ t. AreTogether s (λ m. 1) (instance_limit + 1) t.items)) }
{
    let own = own_instances(alloc, rows.len())?;
    sums(alloc, rows, order, own.as_slice(), INSTANCE_LIMIT + 1)
}

/// What each module has together with all below it.
fn counts_of(
    alloc: Global,
    netlist: &Netlist,
    rows: &[Items<Target>],
    order: &[usize],
) -> Result<Counts, NoMemory>
    ensures { (top : ℕ) → OnNetlist netlist.now rows.now order.now top (λ _ s. IfOk result (AreCounts s)) }
{
    Ok(Counts {
        nodes: nodes(alloc, netlist, rows, order)?,
        cells: cells(alloc, rows, order)?,
        instances: instances(alloc, rows, order)?,
        depths: depths(alloc, rows, order)?,
    })
}

/// The first limit that a module is over.
fn limit_at(counts: &Counts, place: usize) -> Option<NetlistLimit>
    ensures { result ≡ limit_at counts.now place }
{
    if count_at(counts.nodes.as_slice(), place) > NODE_LIMIT {
        return Some(NetlistLimit::Nodes);
    }
    if count_at(counts.cells.as_slice(), place) > INSTANCE_LIMIT {
        return Some(NetlistLimit::Instances);
    }
    if count_at(counts.instances.as_slice(), place) > INSTANCE_LIMIT {
        return Some(NetlistLimit::Instances);
    }
    if count_at(counts.depths.as_slice(), place) > DEPTH_LIMIT {
        return Some(NetlistLimit::Depth);
    }
    None
}

/// A count that is at most a limit.
fn within(table: &[u64], place: usize, limit: u64) -> u32
    requires { limit < 4294967296 }
    ensures { result ≡ min limit (slice_index_or table.now place 0) }
{
    count_at(table, place).min(limit) as u32
}

fn size_at(counts: &Counts, place: usize) -> Size
    ensures { result ≡ size_at counts.now place }
{
    Size {
        nodes: within(counts.nodes.as_slice(), place, NODE_LIMIT),
        cells: within(counts.cells.as_slice(), place, INSTANCE_LIMIT),
        instances: within(counts.instances.as_slice(), place, INSTANCE_LIMIT),
    }
}

/// The sizes of all modules, where no count is over its limit.
fn sizes(alloc: Global, counts: &Counts, count: usize) -> Result<Vec<Size>, NoMemory>
    ensures { (s : Structure) → count ≡ length s.modules → AreSizes s counts.now → IfOk result (λ v. v.items ≡ sizes_of s) }
{
    let mut sizes = Vec::new(alloc);
    for place in 0..count {
        sizes.push(size_at(counts, place))?;
    }
    Ok(sizes)
}

/// The sizes of all modules.
fn sizes_within(
    alloc: Global,
    counts: &Counts,
    count: usize,
    top: usize,
) -> Result<Vec<Size>, Refusal>
    ensures ok { IfOk result (λ _. limit_at counts.now top ≡ None) }
    ensures sizes { (s : Structure) → count ≡ length s.modules → AreSizesBelow s counts.now top → IfOk result (λ v. v.items ≡ sizes_of s) }
    ensures err { (texts : List (List ℕ)) → IfErr result (IsStop texts (limit_told (limit_at counts.now top))) }
{
    if let Some(limit) = limit_at(counts, top) {
        return Err(Refusal::from(NetlistFault::Limit { limit }));
    }
    let sizes = sizes(alloc, counts, count)?;
    Ok(sizes)
}

/// The sizes of all modules, where `top` is the place of the one that contains all others.
///
/// # Errors
///
/// The first limit that the top is over; and where memory is refused.
pub(crate) fn measured(
    alloc: Global,
    netlist: &Netlist,
    rows: &[Items<Target>],
    order: &[usize],
    top: usize,
) -> Result<Vec<Size>, Refusal>
    ensures ok { OnNetlist netlist.now rows.now order.now top (λ _ s. IfOk result (λ _. limits_report s ≡ None)) }
    ensures sizes { OnNetlist netlist.now rows.now order.now top (λ _ s. IfOk result (λ v. v.items ≡ sizes_of s)) }
    ensures err { OnNetlist netlist.now rows.now order.now top (λ texts s. IfErr result (IsStop texts (limits_report s))) }
{
    let counts = counts_of(alloc, netlist, rows, order)?;
    let sizes = sizes_within(alloc, &counts, rows.len(), top);
    drop(counts);
    sizes
}
