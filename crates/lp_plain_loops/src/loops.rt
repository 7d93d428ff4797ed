ghost use Rattle.std.specs.Prelude.{◌≡◌, ◌<◌, ◌+◌, true, length, flat_map, IfOk};
ghost use Rattle.std.specs.Bool.{OnTrue, OnFalse};
ghost use Rattle.lp_order.specs.Order as order;
ghost use Rattle.lp_model.specs.Agreement.{numbers_below};
ghost use Rattle.lp_model.specs.NetlistView.{module_view, module_numbers};
ghost use Rattle.lp_model.specs.LibraryView.{cell_numbers};
ghost use Rattle.lp_plain_index.specs.Cells.{cell_views};
ghost use Rattle.lp_plain_loops.specs.Numbered.{rows};
ghost use Rattle.lp_plain_loops.specs.Loops.{OrderedIfFit, LoopedIfFit};

use crate::drivers::drivers;
use crate::rows::graph_of;
use lp_model::Module;
use lp_order::{Graph, is_ordered};
use lp_plain_index::{CellIndex, NetIndex};
use lp_text::{Names, NoMemory};
use std::alloc::Global;

/// What each net of a module reads, by the numbers of the nets.
fn reads(
    alloc: Global,
    count: u32,
    index: &CellIndex<'_>,
    source: &Module,
) -> Result<Graph, NoMemory>
    requires { length source.now.ports + length source.now.nets < 4294967295 }
    ensures { IfOk result (λ graph. graph ≡ rows index.now source.now) }
{
    let nets = NetIndex::new(alloc, count, source)?;
    let found = drivers(alloc, index, &nets, source)?;
    graph_of(alloc, &nets, found.as_slice())
}

/// Whether a net of a module reads itself.
pub(crate) fn is_looped(
    alloc: Global,
    count: u32,
    index: &CellIndex<'_>,
    source: &Module,
) -> Result<bool, NoMemory>
    requires { length source.now.ports + length source.now.nets < 4294967295 }
    ensures ordered { IfOk result (λ b. OnFalse b (order.HasOrder (rows index.now source.now))) }
    ensures looped { IfOk result (λ b. OnTrue b (order.HasLoop (rows index.now source.now))) }
{
    let graph = reads(alloc, count, index, source)?;
    Ok(!is_ordered(alloc, &graph)?)
}

/// Whether a node of the flat design of a module depends on itself through the functions of its cells: where the module
/// is one of scalars that fits the cells. A register's next state is no part of its outputs' functions.
///
/// Takes time and memory in proportion to the names of the table, the nets, and the connections and pins of the
/// instances.
///
/// # Errors
///
/// Only where memory is refused.
pub fn has_loop(
    alloc: Global,
    index: &CellIndex<'_>,
    names: &Names,
    source: &Module,
) -> Result<bool, NoMemory>
    requires cells { numbers_below (length names.now) (flat_map cell_numbers index.now) ≡ true }
    requires source { numbers_below (length names.now) (module_numbers source.now) ≡ true }
    requires small { length source.now.ports + length source.now.nets < 4294967295 }
    // No node does: the keys of the design have an order.
    ensures ordered { IfOk result (λ b. OnFalse b (OrderedIfFit (cell_views names.now index.now) (module_view names.now source.now))) }
    // Some node does.
    ensures looped { IfOk result (λ b. OnTrue b (LoopedIfFit (cell_views names.now index.now) (module_view names.now source.now))) }
{
    let looped = is_looped(alloc, names.count(), index, source)?;
    Ok(looped)
}
