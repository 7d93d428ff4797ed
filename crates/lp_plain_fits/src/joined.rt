ghost use Rattle.std.specs.Prelude.{◌≡◌};
ghost use Rattle.std.specs.List.{list_all};
ghost use Rattle.lp_plain_index.specs.Cells.{cell_numbered};
ghost use Rattle.lp_plain_fits.specs.Numbered.{named, has_pin, connects, connects_once, connects_each_once, is_joined, are_joined};

use crate::taken::is_taken;
use lp_model::{Connection, Connections, Instance, Pin};
use lp_plain_index::CellIndex;
use lp_text::NameId;

/// The connections by name.
pub(crate) fn named(connections: &Connections) -> &[Connection]
    ensures { result.now ≡ named connections.now }
{
    match connections {
        Connections::Named(connections) => connections.as_slice(),
        Connections::Ordered(_) => &[],
    }
}

fn has_pin(name: NameId, pins: &[Pin]) -> bool
    ensures { result ≡ has_pin name.0 pins.now }
{
    pins.iter().any(|pin| name.0 == pin.name.0)
}

fn connects(name: NameId, connections: &[Connection]) -> bool
    ensures { result ≡ connects name.0 connections.now }
{
    connections
        .iter()
        .any(|connection| name.0 == connection.port.0)
}

fn connects_pins_alone(connections: &[Connection], pins: &[Pin]) -> bool
    ensures { result ≡ list_all (λ c. has_pin c.port.0 pins.now) connections.now }
{
    connections
        .iter()
        .all(|connection| has_pin(connection.port, pins))
}

fn connects_all(connections: &[Connection], pins: &[Pin]) -> bool
    ensures { result ≡ list_all (λ q. connects q.name.0 connections.now) pins.now }
{
    pins.iter().all(|pin| connects(pin.name, connections))
}

/// Whether no pin is connected twice.
///
/// Stops at the first pin that stands behind too, so it is quick where the pins are those of one cell.
fn connects_once(connections: &[Connection]) -> bool
    ensures { result ≡ connects_once connections.now }
{
    for (place, connection) in connections.iter().enumerate() {
        if connects(connection.port, &connections[place + 1..]) {
            return false;
        }
    }
    true
}

/// Whether connections are of the pins of a cell and of no others, each once.
fn connects_each_once(connections: &[Connection], pins: &[Pin]) -> bool
    ensures { result ≡ connects_each_once connections.now pins.now }
{
    connects_pins_alone(connections, pins)
        && connects_once(connections)
        && connects_all(connections, pins)
}

/// Whether an instance has a cell that is taken, and connects its pins.
fn is_joined(index: &CellIndex<'_>, instance: &Instance) -> bool
    ensures { result ≡ is_joined instance.now (cell_numbered index.now instance.now.target.0) }
{
    match index.numbered(instance.target) {
        Some(cell) => {
            is_taken(cell) && connects_each_once(named(&instance.connections), cell.pins.as_slice())
        }
        None => false,
    }
}

/// Whether every instance fits its cell.
pub(crate) fn are_joined(index: &CellIndex<'_>, instances: &[Instance]) -> bool
    ensures { result ≡ are_joined index.now instances.now }
{
    instances.iter().all(|instance| is_joined(index, instance))
}
