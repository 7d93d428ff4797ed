ghost use Rattle.std.specs.Prelude.{◌≡◌, [], ◌∷◌, ◌++◌, map, flat_map, IfOk, OnOk, option_to_list};
ghost use Rattle.lp_plain_loops.specs.Rows.{row_of};
ghost use Rattle.lp_plain_loops.specs.Numbered.{name_number, name_row, function_row, output_row, driver_row, all_shown, shown, named};

use crate::driver::Driver;
use crate::pins::{input_at, named, net_at, pin_at};
use lp_model::{Connection, Pin};
use lp_order::Graph;
use lp_plain_index::NetIndex;
use lp_text::{NameId, NoMemory};
use std::alloc::Global;

/// The number of the net at the input pin of a name; none where the pin is open, or the name is no input pin's.
fn number_at(nets: &NetIndex, pins: &[Pin], connections: &[Connection], name: NameId) -> Option<u32>
    ensures { result ≡ name_number nets.now pins.now connections.now name.0 }
{
    let _pin = input_at(pins, name)?;
    let net = net_at(connections, name)?;
    nets.numbered(net)
}

/// Adds the nets at the pins that a function names.
fn add_names(
    nets: &NetIndex,
    row: &mut Vec<u32>,
    pins: &[Pin],
    connections: &[Connection],
    variables: &[NameId],
) -> Result<(), NoMemory>
    ensures { OnOk result (row.new.items ≡ row.old.items ++ flat_map (name_row nets.now pins.now connections.now) variables.now) }
{
    for variable in variables {
        if let Some(number) = number_at(nets, pins, connections, *variable) {
            row.push(number)?;
        }
    }
    Ok(())
}

/// Adds what the function of an output pin reads.
fn add_output(
    nets: &NetIndex,
    row: &mut Vec<u32>,
    pins: &[Pin],
    connections: &[Connection],
    output: NameId,
) -> Result<(), NoMemory>
    ensures { OnOk result (row.new.items ≡ row.old.items ++ output_row nets.now pins.now connections.now output.0) }
{
    let Some(pin) = pin_at(pins, output) else {
        return Ok(());
    };
    match &pin.function {
        Some(function) => add_names(nets, row, pins, connections, function.variables()),
        None => Ok(()),
    }
}

/// Adds what a driver reads.
fn add_driver(nets: &NetIndex, row: &mut Vec<u32>, driver: Driver<'_>) -> Result<(), NoMemory>
    ensures { OnOk result (row.new.items ≡ row.old.items ++ driver_row nets.now driver.entry) }
{
    match driver {
        Driver::Port => Ok(()),
        Driver::Pin(instance, cell, pin) => add_output(
            nets,
            row,
            cell.pins.as_slice(),
            named(&instance.connections),
            pin,
        ),
    }
}

/// Puts what a net reads into an empty row.
fn fill(nets: &NetIndex, row: &mut Vec<u32>, driver: Option<Driver<'_>>) -> Result<(), NoMemory>
    ensures { OnOk result (row.new.items ≡ row_of (shown nets.now driver.entry)) }
{
    row.clear();
    match driver {
        Some(driver) => add_driver(nets, row, driver),
        None => Ok(()),
    }
}

/// What each net reads.
pub(crate) fn graph_of(
    alloc: Global,
    nets: &NetIndex,
    found: &[Option<Driver<'_>>],
) -> Result<Graph, NoMemory>
    ensures { IfOk result (λ graph. graph ≡ map row_of (all_shown nets.now found.now)) }
{
    let mut graph = Graph::new(alloc);
    let mut row = Vec::new(alloc);
    for driver in found {
        fill(nets, &mut row, *driver)?;
        graph.push_row(row.as_slice())?;
    }
    Ok(graph)
}
