ghost use Rattle.std.specs.Prelude.{◌≡◌, ◌++◌, OnOk};
ghost use Rattle.std.specs.Option.{option_copied};
ghost use Rattle.lp_templates.specs.Connected.{bits_or_none, connected_numbers, pin_from, pin_of, signal_row, power_row, cell_row};

use crate::connected::named_bits;
use crate::index::Index;
use crate::place::place_of;
use crate::scope::Scope;
use lp_model::{Bits, Cell, Connections, EdgeFrom, PgPin, Pin, PinNet};
use lp_text::NoMemory;

/// What is at a pin, by the place of its bit.
fn pin_from(from: EdgeFrom) -> PinNet
    ensures { result ≡ pin_from from }
{
    match from {
        EdgeFrom::Node(place) => PinNet::Node(place),
        EdgeFrom::Const(value) => PinNet::Const(value),
    }
}

/// What is at a pin, by what is connected to it.
fn pin_of(scope: &Scope, bits: Option<&Bits>) -> PinNet
    ensures { result ≡ pin_of scope.now (bits_or_none (option_copied bits.entry)) }
{
    match bits {
        Some(bits) => match bits.walk().next() {
            Some(bit) => pin_from(place_of(scope, bit)),
            None => PinNet::Unconnected,
        },
        None => PinNet::Unconnected,
    }
}

/// Puts what is at signal pins behind the others.
fn push_signals(
    row: &mut Vec<PinNet>,
    index: &Index,
    scope: &Scope,
    connections: &Connections,
    pins: &[Pin],
) -> Result<(), NoMemory>
    requires { index.now ≡ connected_numbers connections.now }
    ensures { OnOk result (row.new.items ≡ row.old.items ++ signal_row scope.now connections.now pins.now) }
{
    for pin in pins {
        row.push(pin_of(scope, named_bits(index, connections, pin.name)))?;
    }
    Ok(())
}

/// Puts what is at power and ground pins behind the others.
fn push_powers(
    row: &mut Vec<PinNet>,
    index: &Index,
    scope: &Scope,
    connections: &Connections,
    pgs: &[PgPin],
) -> Result<(), NoMemory>
    requires { index.now ≡ connected_numbers connections.now }
    ensures { OnOk result (row.new.items ≡ row.old.items ++ power_row scope.now connections.now pgs.now) }
{
    for pg in pgs {
        row.push(pin_of(scope, named_bits(index, connections, pg.name)))?;
    }
    Ok(())
}

/// Takes what is at the pins of an instance of a cell in place of those before. Takes time in proportion to the pins and
/// the connections.
pub(crate) fn fill_row(
    row: &mut Vec<PinNet>,
    index: &Index,
    scope: &Scope,
    connections: &Connections,
    cell: &Cell,
) -> Result<(), NoMemory>
    requires { index.now ≡ connected_numbers connections.now }
    ensures { OnOk result (row.new.items ≡ cell_row scope.now connections.now cell.now) }
{
    row.clear();
    push_signals(row, index, scope, connections, cell.pins.as_slice())?;
    push_powers(row, index, scope, connections, cell.pgs.as_slice())
}
