ghost use Rattle.std.specs.Prelude.{◌≡◌, Some};
ghost use Rattle.std.specs.Option.{option_copied};
ghost use Rattle.lp_spec_design.specs.Netlists.{first};
ghost use Rattle.lp_spec_faults.specs.Modules.{bit_count};
ghost use Rattle.lp_connections.specs.Numbered.{found_at, port_name, is_uneven, width_named, uneven_named, uneven_port, uneven_placed, uneven_pin_of, width_fault};

use crate::design::Design;
use lp_model::{BitRange, Bits, Connection, Connections, Instance, JoinRef, NetlistFault, Port};
use lp_targets::Target;
use lp_text::NameId;

/// How many bits a port has.
fn bit_count(range: Option<BitRange>) -> u64
    ensures { result ≡ bit_count range }
{
    match range {
        Some(range) => {
            let left = range.left as u64;
            let right = range.right as u64;
            if left <= right {
                right + 1 - left
            } else {
                left + 1 - right
            }
        }
        None => 1,
    }
}

/// Whether bits are of another number, an open connection having none to count.
fn is_uneven(width: u64, bits: &Bits) -> bool
    ensures { result ≡ is_uneven (Some width) bits.now }
{
    let count = bits.width();
    count != 0 && count != width as u128
}

/// How many bits what has the name takes.
fn width_named(design: &Design, target: &Target, name: NameId) -> Option<u64>
    ensures { result ≡ width_named design.now target.now name.0 }
{
    match target {
        Target::OfModule(place) => match design.port(*place, name) {
            Some(port) => Some(bit_count(port.range)),
            None => None,
        },
        Target::OfCell(place) => {
            if design.has_pin(*place, name) {
                Some(1)
            } else {
                None
            }
        }
    }
}

/// Whether a named connection has another number of bits than its port or pin.
fn uneven_named(design: &Design, target: &Target, connection: &Connection) -> bool
    ensures { result ≡ uneven_named design.now target.now connection.now }
{
    match width_named(design, target, connection.port) {
        Some(width) => is_uneven(width, &connection.bits),
        None => false,
    }
}

/// The name of the first connection that has another number of bits.
fn first_uneven(design: &Design, target: &Target, connections: &[Connection]) -> Option<NameId>
    ensures { result ≡ port_name (first (uneven_named design.now target.now) connections.now) }
{
    for connection in connections {
        if uneven_named(design, target, connection) {
            return Some(connection.port);
        }
    }
    None
}

/// The name of a port that has another number of bits.
fn uneven_port(port: Option<&Port>, bits: &Bits) -> Option<NameId>
    ensures { result ≡ uneven_port (option_copied port.entry) bits.now }
{
    match port {
        Some(port) => {
            if is_uneven(bit_count(port.range), bits) {
                Some(port.name)
            } else {
                None
            }
        }
        None => None,
    }
}

/// The port at a position, where it has another number of bits.
fn uneven_placed(design: &Design, target: &Target, position: usize, bits: &Bits) -> Option<NameId>
    ensures { result ≡ uneven_placed design.now target.now position bits.now }
{
    match target {
        Target::OfModule(place) => uneven_port(design.port_in(*place, position), bits),
        Target::OfCell(_) => None,
    }
}

/// The first port by position that has another number of bits.
fn first_uneven_placed(design: &Design, target: &Target, values: &[Bits]) -> Option<NameId>
    ensures { result ≡ found_at (uneven_placed design.now target.now) 0 values.now }
{
    for (at, bits) in values.iter().enumerate() {
        let port = uneven_placed(design, target, at, bits);
        if port.is_some() {
            return port;
        }
    }
    None
}

/// The first port or pin that has another number of bits than what is connected to it.
fn uneven_pin(design: &Design, target: &Target, connections: &Connections) -> Option<NameId>
    ensures { result ≡ uneven_pin_of design.now target.now connections.now }
{
    match connections {
        Connections::Named(named) => first_uneven(design, target, named.as_slice()),
        Connections::Ordered(values) => first_uneven_placed(design, target, values.as_slice()),
    }
}

/// A connection of an instance has another number of bits than its port or pin.
pub(crate) fn width_fault(
    design: &Design,
    parent: NameId,
    target: &Target,
    instance: &Instance,
) -> Option<NetlistFault>
    ensures { result ≡ width_fault design.now parent target.now instance.now }
{
    match uneven_pin(design, target, &instance.connections) {
        Some(port) => {
            let join = JoinRef::Connection(instance.name, port);
            Some(NetlistFault::Width { parent, join })
        }
        None => None,
    }
}
