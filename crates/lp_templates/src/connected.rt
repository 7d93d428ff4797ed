ghost use Rattle.std.specs.Prelude.{◌≡◌, [], ◌++◌, OnOk};
ghost use Rattle.std.specs.Option.{option_copied};
ghost use Rattle.lp_templates.specs.Connected.{bits_or_none, port_numbers, connected_numbers, bits_at_name, named_bits, port_bits};

use crate::index::Index;
use lp_model::{Bits, Connection, Connections};
use lp_text::{NameId, NoMemory};
use sqlite_items::at;

/// Puts the names of connections behind the others.
fn push_names(index: &mut Index, connections: &[Connection]) -> Result<(), NoMemory>
    ensures { OnOk result (index.new ≡ index.old ++ port_numbers connections.now) }
{
    for connection in connections {
        index.push(connection.port.0)?;
    }
    Ok(())
}

/// Takes the names that an instance connects in place of those before.
pub(crate) fn enter_names(index: &mut Index, connections: &Connections) -> Result<(), NoMemory>
    ensures { OnOk result (index.new ≡ connected_numbers connections.now) }
{
    index.clear();
    match connections {
        Connections::Named(named) => push_names(index, named.as_slice()),
        Connections::Ordered(_) => Ok(()),
    }
}

/// What the first connection of a name has.
fn bits_at_name<'a>(index: &Index, connections: &'a [Connection], name: NameId) -> Option<&'a Bits>
    requires { index.now ≡ port_numbers connections.now }
    ensures { bits_or_none (option_copied result) ≡ bits_at_name name.0 connections.now }
{
    let place = index.find(name.0)?;
    match at(connections, place) {
        Some(connection) => Some(&connection.bits),
        None => None,
    }
}

/// What is connected to a pin.
pub(crate) fn named_bits<'a>(
    index: &Index,
    connections: &'a Connections,
    name: NameId,
) -> Option<&'a Bits>
    requires { index.now ≡ connected_numbers connections.now }
    ensures { bits_or_none (option_copied result) ≡ named_bits connections.now name.0 }
{
    match connections {
        Connections::Named(named) => bits_at_name(index, named.as_slice(), name),
        Connections::Ordered(_) => None,
    }
}

/// What is connected to a port of a position and a name.
pub(crate) fn port_bits<'a>(
    index: &Index,
    connections: &'a Connections,
    position: usize,
    name: NameId,
) -> Option<&'a Bits>
    requires { index.now ≡ connected_numbers connections.now }
    ensures { bits_or_none (option_copied result) ≡ port_bits connections.now position name.0 }
{
    match connections {
        Connections::Named(named) => bits_at_name(index, named.as_slice(), name),
        Connections::Ordered(values) => at(values.as_slice(), position),
    }
}
