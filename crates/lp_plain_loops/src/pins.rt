ghost use Rattle.std.specs.Prelude.{◌≡◌};
ghost use Rattle.std.specs.Option.{option_copied};
ghost use Rattle.lp_behaviour.specs.Signals.{is_input};
ghost use Rattle.lp_plain_loops.specs.Numbered.{input_at, named, net_in, net_at, pin_at};

use lp_model::{Bit, Bits, Connection, Connections, Direction, Pin};
use lp_text::NameId;

/// The connections by name.
pub(crate) fn named(connections: &Connections) -> &[Connection]
    ensures { result.now ≡ named connections.now }
{
    match connections {
        Connections::Named(connections) => connections.as_slice(),
        Connections::Ordered(_) => &[],
    }
}

fn net_in(bits: &Bits) -> Option<NameId>
    ensures { result ≡ net_in bits.now }
{
    let mut walk = bits.walk();
    match walk.next() {
        Some(Bit::Net(name)) => Some(name),
        _ => None,
    }
}

/// The net at a pin.
pub(crate) fn net_at(connections: &[Connection], pin: NameId) -> Option<NameId>
    ensures { result ≡ net_at connections.now pin.0 }
{
    for connection in connections {
        if connection.port.0 == pin.0 {
            return net_in(&connection.bits);
        }
    }
    None
}

/// The first pin of a name.
pub(crate) fn pin_at(pins: &[Pin], name: NameId) -> Option<&Pin>
    ensures { option_copied result ≡ pin_at pins.now name.0 }
{
    for pin in pins {
        if pin.name.0 == name.0 {
            return Some(pin);
        }
    }
    None
}

/// Whether a pin of a direction is an input.
fn is_input(direction: Direction) -> bool
    ensures { result ≡ is_input direction }
{
    matches!(direction, Direction::Input)
}

/// The first input pin of a name.
pub(crate) fn input_at(pins: &[Pin], name: NameId) -> Option<&Pin>
    ensures { option_copied result ≡ input_at pins.now name.0 }
{
    for pin in pins {
        if is_input(pin.direction) && pin.name.0 == name.0 {
            return Some(pin);
        }
    }
    None
}
