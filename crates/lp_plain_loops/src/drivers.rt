ghost use Rattle.std.specs.Prelude.{◌≡◌, None, length, flat_map, replicate, IfOk};
ghost use Rattle.lp_plain_loops.specs.Numbered.{named, driver_row, output_entries, pin_entries, instance_entries, port_entries, note, noted, all_shown, Notes};

use crate::driver::Driver;
use crate::pins::{named, net_at};
use lp_model::{Cell, Direction, Instance, Module, Pin, Port};
use lp_plain_index::{CellIndex, NetIndex};
use lp_text::{NameId, NoMemory};
use std::alloc::Global;

/// No driver, so many times.
fn no_drivers<'a>(alloc: Global, count: usize) -> Result<Vec<Option<Driver<'a>>>, NoMemory>
    ensures { IfOk result (λ found. found.items ≡ replicate count None) }
{
    Ok(vec![in alloc; None; count]?)
}

/// The first driver of each net, by the net's number; none where it has no driver.
pub(crate) fn drivers<'a>(
    alloc: Global,
    index: &CellIndex<'a>,
    nets: &NetIndex,
    source: &'a Module,
) -> Result<Vec<Option<Driver<'a>>>, NoMemory>
    ensures { IfOk result (λ found. all_shown nets.now found.items ≡ noted index.now nets.now source.now) }
{
    let mut found = no_drivers(alloc, nets.len())?;
    note_inputs(nets, &mut found, source.ports.as_slice());
    note_instances(index, nets, &mut found, source.instances.as_slice());
    Ok(found)
}

/// Notes that the inputs are driven from outside.
fn note_inputs(nets: &NetIndex, found: &mut [Option<Driver<'_>>], ports: &[Port])
    requires { length found.old ≡ length nets.now }
    ensures { Notes nets.now found.old found.new (flat_map port_entries ports.now) }
{
    for port in ports {
        if port.direction == Direction::Input {
            note(nets, found, port.name, Driver::Port);
        }
    }
}

/// Notes the drivers at the output pins of the instances.
fn note_instances<'a>(
    index: &CellIndex<'a>,
    nets: &NetIndex,
    found: &mut [Option<Driver<'a>>],
    instances: &'a [Instance],
)
    requires { length found.old ≡ length nets.now }
    ensures { Notes nets.now found.old found.new (flat_map (instance_entries index.now nets.now) instances.now) }
{
    for instance in instances {
        if let Some(cell) = index.numbered(instance.target) {
            note_pins(nets, found, instance, cell);
        }
    }
}

fn note_pins<'a>(
    nets: &NetIndex,
    found: &mut [Option<Driver<'a>>],
    instance: &'a Instance,
    cell: &'a Cell,
)
    requires { length found.old ≡ length nets.now }
    ensures { Notes nets.now found.old found.new (flat_map (pin_entries nets.now cell.now.pins (named instance.now.connections)) cell.now.pins) }
{
    for pin in cell.pins.as_slice() {
        if pin.direction == Direction::Output {
            note_pin(nets, found, instance, cell, pin.name);
        }
    }
}

/// Notes the driver of the net at an output pin.
fn note_pin<'a>(
    nets: &NetIndex,
    found: &mut [Option<Driver<'a>>],
    instance: &'a Instance,
    cell: &'a Cell,
    pin: NameId,
)
    requires { length found.old ≡ length nets.now }
    ensures { Notes nets.now found.old found.new (output_entries nets.now cell.now.pins (named instance.now.connections) pin.0) }
{
    if let Some(net) = net_at(named(&instance.connections), pin) {
        note(nets, found, net, Driver::Pin(instance, cell, pin));
    }
}

/// Notes the driver of a net, unless it has one.
fn note<'a>(nets: &NetIndex, found: &mut [Option<Driver<'a>>], net: NameId, driver: Driver<'a>)
    requires { length found.old ≡ length nets.now }
    ensures { all_shown nets.now found.new ≡ note nets.now (all_shown nets.now found.old) (net.0, driver_row nets.now driver.entry) }
{
    if let Some(place) = nets.numbered(net) {
        let place = place as usize;
        if found[place].is_none() {
            found[place] = Some(driver);
        }
    }
}
