ghost use Rattle.std.specs.Prelude.{◌≡◌, ◌+◌, ◌-◌, ◌≤◌, true, length, map, flat_map, IfOk};
ghost use Rattle.lp_text.specs.Limits.{most_names};
ghost use Rattle.lp_text.specs.Texts.{Grown};
ghost use Rattle.lp_model.specs.Agreement.{numbers_below};
ghost use Rattle.lp_model.specs.LibraryView.{cell_numbers};
ghost use Rattle.lp_model.specs.NetlistView.{module_numbers, module_view};
ghost use Rattle.lp_plain_index.specs.Cells.{cell_views};
ghost use Rattle.lp_plain_joins.specs.Joins.{joined_instance, joined_module};
ghost use Rattle.lp_plain_joins.specs.Supplied.{IsPowered};

use crate::joins::{Supplies, joined_instance};
use crate::ports::{add_ports, supply_port};
use lp_model::{Instance, Module};
use lp_plain_index::CellIndex;
use lp_text::{Names, NoMemory};
use sqlite_items::Items;
use std::alloc::Global;

/// All instances with their joins. They come off the end, so the new list is turned round.
fn joined_instances(
    alloc: Global,
    index: &CellIndex<'_>,
    supplies: Supplies,
    mut instances: Items<Instance>,
) -> Result<Items<Instance>, NoMemory>
    ensures { IfOk result (λ is. is ≡ map (joined_instance index.now supplies) instances) }
{
    let mut last_first = Vec::new(alloc);
    while let Some(instance) = instances.pop() {
        last_first.push(joined_instance(index, supplies, instance)?)?;
    }
    last_first.reverse();
    Ok(Items::from_vec(last_first))
}

/// A module with the two ports, and each instance joined to them.
fn joined_module(
    alloc: Global,
    index: &CellIndex<'_>,
    supplies: Supplies,
    mut source: Module,
) -> Result<Module, NoMemory>
    ensures { IfOk result (λ m. m ≡ joined_module index.now supplies source) }
{
    add_ports(supplies, &mut source.ports)?;
    Ok(Module {
        name: source.name,
        ports: source.ports,
        nets: source.nets,
        instances: joined_instances(alloc, index, supplies, source.instances)?,
        assigns: source.assigns,
    })
}

/// The netlist of a source with its supplies: the ports that carry `power` and `gnd`, to which each power and ground
/// pin of a cell is joined. The names of the ports come into the table, which has room for two more. Takes time in
/// proportion to the instances and their connections.
///
/// # Errors
///
/// Only where memory is refused.
pub fn connect_all(
    alloc: Global,
    index: &CellIndex<'_>,
    names: &mut Names,
    source: Module,
    power: &str,
    gnd: &str,
) -> Result<Module, NoMemory>
    requires cells { numbers_below (length names.old) (flat_map cell_numbers index.now) ≡ true }
    requires source { numbers_below (length names.old) (module_numbers source) ≡ true }
    requires room { length names.old ≤ most_names - 2 }
    ensures supplied { IfOk result (λ w. IsPowered (cell_views names.old index.now) (module_view names.old source) power.now gnd.now (module_view names.new w)) }
    ensures numbers { IfOk result (λ w. numbers_below (length names.new) (module_numbers w) ≡ true) }
    ensures grown { Grown names.old names.new }
    ensures few { length names.new ≤ length names.old + 2 }
{
    let supplies = Supplies {
        power: supply_port(alloc, names, power)?,
        gnd: supply_port(alloc, names, gnd)?,
    };
    let _count = names.count();
    joined_module(alloc, index, supplies, source)
}
