ghost use Rattle.std.specs.Prelude.{◌≡◌, length, reverse, IfOk, MatchOption};
ghost use Rattle.lp_order.specs.Order.{ReadsBelow, HasLoop, IsOrder};
ghost use Rattle.lp_targets.specs.Children.{children_of, children};

use crate::target::Target;
use lp_order::{Graph, order_of};
use lp_text::NoMemory;
use sqlite_items::Items;
use std::alloc::Global;

/// The modules in a row of targets.
fn children_of(alloc: Global, row: &[Target]) -> Result<Vec<u32>, NoMemory>
    ensures { IfOk result (λ places. places.items ≡ children_of row.now) }
{
    let mut places = Vec::new(alloc);
    for target in row {
        if let Target::OfModule(place) = target {
            places.push(*place)?;
        }
    }
    Ok(places)
}

/// The modules in each module.
pub(crate) fn children(alloc: Global, rows: &[Items<Target>]) -> Result<Graph, NoMemory>
    ensures { IfOk result (λ graph. graph ≡ children rows.now) }
{
    let mut graph = Graph::new(alloc);
    for row in rows {
        let places = children_of(alloc, row.as_slice())?;
        graph.push_row(places.as_slice())?;
    }
    Ok(graph)
}

/// The places of the modules, each behind those of all modules that it contains; none where a module contains itself.
/// Takes time and memory in proportion to the modules and their instances.
///
/// # Errors
///
/// Only where memory is refused.
pub fn modules_in_order(
    alloc: Global,
    rows: &[Items<Target>],
) -> Result<Option<Vec<usize>>, NoMemory>
    requires { ReadsBelow (length rows.now) (children rows.now) }
    ensures { IfOk result (λ o. MatchOption o (HasLoop (children rows.now)) (λ keys. IsOrder (children rows.now) (reverse keys.items))) }
{
    let graph = children(alloc, rows)?;
    let order = order_of(alloc, &graph)?;
    Ok(order)
}
