ghost use Rattle.std.specs.Prelude.{◌≡◌, ◌+◌, ℕ, [], ◌∷◌, length, vec_len, min, sum_by, slice_index_or, slice_set, IfOk};
ghost use Rattle.lp_model.specs.NetlistView.{ModuleView};
ghost use Rattle.lp_targets.specs.Children.{children_of, children};
ghost use Rattle.lp_targets.specs.Sizes.{sum_at, OnRows, AreOwn, AreTogether};

use crate::target::Target;
use lp_text::NoMemory;
use sqlite_items::Items;
use std::alloc::Global;

/// What a table has at a place; nothing at one that it does not have.
pub(crate) fn count_at(table: &[u64], place: usize) -> u64
    ensures { result ≡ slice_index_or table.now place 0 }
{
    match table.get(place) {
        Some(count) => *count,
        None => 0,
    }
}

/// What a table has at the place of a target.
pub(crate) fn entry(table: &[u64], place: u32) -> u64
    ensures { result ≡ slice_index_or table.now place 0 }
{
    count_at(table, place as usize)
}

/// A count and what a target adds to it by a table, up to a limit.
fn with_target(total: u64, target: &Target, table: &[u64], limit: u64) -> u64
    ensures { result ≡ min limit (total + sum_by (λ b. slice_index_or table.now b 0) (children_of (target.now ∷ []))) }
{
    match target {
        Target::OfModule(place) => total.saturating_add(entry(table, *place)).min(limit),
        Target::OfCell(_) => total.min(limit),
    }
}

/// What a module has of its own and the modules in it have by a table, up to a limit.
pub fn capped_row(row: &[Target], table: &[u64], own: u64, limit: u64) -> u64
    ensures { result ≡ min limit (own + sum_by (λ b. slice_index_or table.now b 0) (children_of row.now)) }
{
    let mut total = own.min(limit);
    for target in row {
        total = with_target(total, target, table, limit);
    }
    total
}

/// Notes what the module at a place has together, where that of each module in it is noted.
fn note_sum(table: &mut Vec<u64>, rows: &[Items<Target>], own: &[u64], limit: u64, place: usize)
    requires { vec_len table.old ≡ length rows.now }
    ensures { table.new.items ≡ slice_set table.old.items place (sum_at (children rows.now) own.now limit table.old.items place) }
{
    if place < rows.len() {
        let sum = capped_row(
            rows[place].as_slice(),
            table.as_slice(),
            count_at(own, place),
            limit,
        );
        table[place] = sum;
    }
}

/// What each module has together with all below it, up to a limit. Takes time and memory in proportion to the modules
/// and their instances.
pub(crate) fn sums(
    alloc: Global,
    rows: &[Items<Target>],
    order: &[usize],
    own: &[u64],
    limit: u64,
) -> Result<Vec<u64>, NoMemory>
    ensures { OnRows rows.now order.now (λ s. (each : ModuleView → ℕ) → AreOwn s each limit own.now → IfOk result (λ t. AreTogether s each limit t.items)) }
{
    let mut table = vec![in alloc; 0; rows.len()]?;
    for place in order {
        note_sum(&mut table, rows, own, limit, *place);
    }
    Ok(table)
}
