ghost use Rattle.std.specs.Prelude.{◌≡◌, ◌++◌, flat_map, IfOk, OnOk};
ghost use Rattle.lp_plain_fits.specs.Numbered.{is_output_of, net_of, inputs, driven_at, driven, are_distinct};

use crate::distinct::are_distinct;
use crate::joined::named;
use lp_model::{Bit, Bits, Connection, Direction, Instance, Module, Pin, Port};
use lp_plain_index::CellIndex;
use lp_text::{NameId, Names, NoMemory};
use std::alloc::Global;

fn is_output_of(pins: &[Pin], name: NameId) -> bool
    ensures { result ≡ is_output_of pins.now name.0 }
{
    pins.iter().any(|pin| pin.direction == Direction::Output && pin.name.0 == name.0)
}

/// Adds the nets that are driven from outside.
fn add_inputs(nets: &mut Vec<u32>, ports: &[Port]) -> Result<(), NoMemory>
    ensures { OnOk result (nets.new.items ≡ nets.old.items ++ inputs ports.now) }
{
    for port in ports {
        if port.direction == Direction::Input {
            nets.push(port.name.0)?;
        }
    }
    Ok(())
}

/// Adds the net of a connection.
fn add_net(nets: &mut Vec<u32>, bits: &Bits) -> Result<(), NoMemory>
    ensures { OnOk result (nets.new.items ≡ nets.old.items ++ net_of bits.now) }
{
    if let Some(Bit::Net(net)) = bits.single() {
        nets.push(net.0)?;
    }
    Ok(())
}

/// Adds the net of a connection where it is at an output pin.
fn add_output(nets: &mut Vec<u32>, connection: &Connection, pins: &[Pin]) -> Result<(), NoMemory>
    ensures { OnOk result (nets.new.items ≡ nets.old.items ++ driven_at pins.now connection.now) }
{
    if is_output_of(pins, connection.port) {
        add_net(nets, &connection.bits)?;
    }
    Ok(())
}

/// Adds the nets at the output pins of an instance.
fn add_outputs(
    nets: &mut Vec<u32>,
    connections: &[Connection],
    pins: &[Pin],
) -> Result<(), NoMemory>
    ensures { OnOk result (nets.new.items ≡ nets.old.items ++ flat_map (driven_at pins.now) connections.now) }
{
    for connection in connections {
        add_output(nets, connection, pins)?;
    }
    Ok(())
}

/// Adds the nets at the output pins of all instances.
fn add_driven(
    nets: &mut Vec<u32>,
    index: &CellIndex<'_>,
    instances: &[Instance],
) -> Result<(), NoMemory>
    ensures { OnOk result (nets.new.items ≡ nets.old.items ++ driven index.now instances.now) }
{
    for instance in instances {
        if let Some(cell) = index.numbered(instance.target) {
            add_outputs(nets, named(&instance.connections), cell.pins.as_slice())?;
        }
    }
    Ok(())
}

/// Whether no net has two sources.
pub(crate) fn have_one_source(
    alloc: Global,
    index: &CellIndex<'_>,
    names: &Names,
    source: &Module,
) -> Result<bool, NoMemory>
    ensures { IfOk result (λ b. b ≡ are_distinct (inputs source.now.ports ++ driven index.now source.now.instances)) }
{
    let mut nets = Vec::new(alloc);
    add_inputs(&mut nets, source.ports.as_slice())?;
    add_driven(&mut nets, index, source.instances.as_slice())?;
    are_distinct(alloc, names.count(), nets.as_slice())
}
