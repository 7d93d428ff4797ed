ghost use Rattle.std.specs.Prelude.{◌≡◌, ◌+◌, ◌<◌, [], ◌∷◌, length, vec_len, min, max, slice_index_or, slice_set, IfOk};
ghost use Rattle.lp_targets.specs.Children.{children_of, children};
ghost use Rattle.lp_targets.specs.Sizes.{depth_limit, depth_above, depth_at, OnRows, AreDepths};

use crate::limits::entry;
use crate::target::Target;
use lp_text::NoMemory;
use sqlite_items::Items;
use std::alloc::Global;

/// The module instances of a chain from the top down: 64.
pub(crate) const DEPTH_LIMIT: u64 = 64;

/// A depth, or one more than that of a module below where that is deeper.
fn deeper(depth: u64, below: u64) -> u64
    ensures { result ≡ max depth (min (depth_limit + 1) (below + 1)) }
{
    depth.max(below.saturating_add(1).min(DEPTH_LIMIT + 1))
}

/// A depth, or one more than that of a target where that is deeper.
fn with_target(depth: u64, target: &Target, table: &[u64]) -> u64
    requires { 0 < depth }
    ensures { result ≡ max depth (depth_above (λ b. slice_index_or table.now b 0) (children_of (target.now ∷ []))) }
{
    match target {
        Target::OfModule(place) => deeper(depth, entry(table, *place)),
        Target::OfCell(_) => depth,
    }
}

/// The depth of a module by those of the modules in it.
fn depth_of(row: &[Target], table: &[u64]) -> u64
    ensures { result ≡ depth_above (λ b. slice_index_or table.now b 0) (children_of row.now) }
{
    let mut depth = 1;
    for target in row {
        depth = with_target(depth, target, table);
    }
    depth
}

/// Notes the depth of the module at a place, where that of each module in it is noted.
fn note_depth(table: &mut Vec<u64>, rows: &[Items<Target>], place: usize)
    requires { vec_len table.old ≡ length rows.now }
    ensures { table.new.items ≡ slice_set table.old.items place (depth_at (children rows.now) table.old.items place) }
{
    if place < rows.len() {
        let depth = depth_of(rows[place].as_slice(), table.as_slice());
        table[place] = depth;
    }
}

/// How many module instances the longest chain down from each module has, up to one more than the limit. Takes time
/// and memory in proportion to the modules and their instances.
pub(crate) fn depths(
    alloc: Global,
    rows: &[Items<Target>],
    order: &[usize],
) -> Result<Vec<u64>, NoMemory>
    ensures { OnRows rows.now order.now (λ s. IfOk result (λ table. AreDepths s table.items)) }
{
    let mut table = vec![in alloc; 0; rows.len()]?;
    for place in order {
        note_depth(&mut table, rows, *place);
    }
    Ok(table)
}
