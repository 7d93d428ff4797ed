ghost use Rattle.std.specs.Prelude.{◌≡◌, ◌<◌, [], IfOk};
ghost use Rattle.std.specs.Bool.{OnFalse};
ghost use Rattle.std.specs.Option.{option_copied};
ghost use Rattle.lp_targets.specs.declared.target.Target.TheVariants as targets;
ghost use Rattle.lp_connections.specs.Numbered.{refuses, refuses_named, refuses_placed, first_named, first_placed, refused_in, unknown_pin_of, pin_fault};

use crate::cell_names::is_outward;
use crate::connected::Connected;
use crate::design::Design;
use lp_model::{Bits, Connection, Connections, Instance, InstanceRef, NetlistFault, PinRef, Port};
use lp_targets::Target;
use lp_text::{NameId, NoMemory};

/// Whether a port does not take a connection: an output takes no constant.
fn refuses(port: Option<&Port>, second: bool, bits: &Bits) -> bool
    ensures { result ≡ refuses (option_copied port.entry) second bits.now }
{
    match port {
        Some(port) => second || (is_outward(port.direction) && bits.has_constant()),
        None => true,
    }
}

/// Whether a cell's pin does not take a connection.
fn pin_refuses(design: &Design, place: u32, second: bool, connection: &Connection) -> bool
    ensures { result ≡ refuses_named design.now (targets.OfCell place) second connection.now }
{
    let port = connection.port;
    if second || !design.has_pin(place, port) {
        return true;
    }
    design.has_output(place, port) && connection.bits.has_constant()
}

/// Whether a target does not take a named connection.
fn refuses_named(design: &Design, target: &Target, second: bool, connection: &Connection) -> bool
    ensures { result ≡ refuses_named design.now target.now second connection.now }
{
    match target {
        Target::OfModule(place) => {
            refuses(
                design.port(*place, connection.port),
                second,
                &connection.bits,
            )
        }
        Target::OfCell(place) => pin_refuses(design, *place, second, connection),
    }
}

/// Whether a target does not take what is connected to a position, from 0: a cell takes nothing by position.
fn refuses_placed(design: &Design, target: &Target, position: u32, bits: &Bits) -> bool
    ensures result { result ≡ refuses_placed design.now target.now position bits.now }
    ensures few { OnFalse result (position < 4294967294) }
{
    match target {
        Target::OfModule(place) => {
            let port = design.port_in(*place, position as usize);
            refuses(port, false, bits)
        }
        Target::OfCell(_) => true,
    }
}

/// The name of the first connection that is refused.
fn first_named(
    design: &Design,
    connected: &mut Connected,
    target: &Target,
    connections: &[Connection],
) -> Result<Option<NameId>, NoMemory>
    ensures { IfOk result (λ o. o ≡ first_named design.now target.now [] connections.now) }
{
    connected.clear();
    for connection in connections {
        let second = connected.has(connection.port.0);
        if refuses_named(design, target, second, connection) {
            return Ok(Some(connection.port));
        }
        connected.add(connection.port.0)?;
    }
    Ok(None)
}

/// The position, from 1, of the first value that is refused.
fn first_placed(design: &Design, target: &Target, values: &[Bits]) -> Option<u32>
    ensures { result ≡ first_placed design.now target.now 0 values.now }
{
    let mut position: u32 = 0;
    for bits in values {
        if refuses_placed(design, target, position, bits) {
            return Some(position + 1);
        }
        position += 1;
    }
    None
}

/// The first connection that is refused.
fn refused_in(
    design: &Design,
    connected: &mut Connected,
    target: &Target,
    connections: &Connections,
) -> Result<Option<PinRef>, NoMemory>
    ensures { IfOk result (λ o. o ≡ refused_in design.now target.now connections.now) }
{
    match connections {
        Connections::Named(named) => {
            match first_named(design, connected, target, named.as_slice())? {
                Some(name) => Ok(Some(PinRef::Named(name))),
                None => Ok(None),
            }
        }
        Connections::Ordered(values) => match first_placed(design, target, values.as_slice()) {
            Some(position) => Ok(Some(PinRef::Ordered(position))),
            None => Ok(None),
        },
    }
}

/// The first connection that no port or pin of the target takes.
fn unknown_pin(
    design: &Design,
    connected: &mut Connected,
    target: &Target,
    connections: &Connections,
) -> Result<Option<PinRef>, NoMemory>
    ensures { IfOk result (λ o. o ≡ unknown_pin_of design.now target.now connections.now) }
{
    if design.has(target) {
        refused_in(design, connected, target, connections)
    } else {
        Ok(None)
    }
}

/// An instance has a connection that no port or pin takes.
pub(crate) fn pin_fault(
    design: &Design,
    connected: &mut Connected,
    parent: NameId,
    target: &Target,
    instance: &Instance,
) -> Result<Option<NetlistFault>, NoMemory>
    ensures { IfOk result (λ f. f ≡ pin_fault design.now parent target.now instance.now) }
{
    match unknown_pin(design, connected, target, &instance.connections)? {
        Some(pin) => {
            let at = InstanceRef {
                parent,
                instance: instance.name,
            };
            Ok(Some(NetlistFault::UnknownPin { at, pin }))
        }
        None => Ok(None),
    }
}
