ghost use Rattle.std.specs.Prelude.{◌≡◌, ◌<◌, Some, map};
ghost use Rattle.lp_spec_faults.specs.Modules.{bit_count};
ghost use Rattle.lp_node_text.specs.Numbered.{port_declared, net_declared, index_in, bit_named, bit_from, own_bit};

use lp_model::{BitRange, Module, NetDecl, NodeName, Port};
use lp_text::NameId;

/// What is found at a place among bits.
#[derive(Clone, Copy)]
pub(crate) enum Own {
    /// The bit at the place.
    Bit(NodeName),
    /// The place is so far behind their end.
    Behind(usize),
}

/// The bits of a port or net.
fn bit_count(range: Option<BitRange>) -> usize
    ensures { result ≡ bit_count range }
{
    match range {
        None => 1,
        Some(range) => {
            let left = range.left as usize;
            let right = range.right as usize;
            if left <= right {
                right + 1 - left
            } else {
                left + 1 - right
            }
        }
    }
}

/// The index of a vector's bit at a place, the left one first.
fn index_in(range: BitRange, place: usize) -> u32
    requires { place < bit_count (Some range) }
    ensures { result ≡ index_in range place }
{
    if range.left <= range.right {
        range.left + place as u32
    } else {
        range.left - place as u32
    }
}

/// The bit of a port or net at a place.
fn bit_named(name: NameId, range: Option<BitRange>, place: usize) -> NodeName
    requires { place < bit_count range }
    ensures { result ≡ bit_named name range place }
{
    match range {
        None => NodeName::Scalar(name),
        Some(range) => NodeName::Bit(name, index_in(range, place)),
    }
}

/// The bit at a place among those of ports.
fn port_bit(ports: &[Port], place: usize) -> Own
    ensures { result ≡ bit_from (map port_declared ports.now) place }
{
    let mut rest = place;
    for port in ports {
        let count = bit_count(port.range);
        if rest < count {
            return Own::Bit(bit_named(port.name, port.range, rest));
        }
        rest -= count;
    }
    Own::Behind(rest)
}

/// The bit at a place among those of nets.
fn net_bit(nets: &[NetDecl], place: usize) -> Own
    ensures { result ≡ bit_from (map net_declared nets.now) place }
{
    let mut rest = place;
    for net in nets {
        let count = bit_count(net.range);
        if rest < count {
            return Own::Bit(bit_named(net.name, net.range, rest));
        }
        rest -= count;
    }
    Own::Behind(rest)
}

/// The bit at a place among those that a module declares, ports before nets.
pub(crate) fn own_bit(source: &Module, place: usize) -> Own
    ensures { result ≡ own_bit source.now place }
{
    match port_bit(source.ports.as_slice(), place) {
        Own::Bit(bit) => Own::Bit(bit),
        Own::Behind(rest) => net_bit(source.nets.as_slice(), rest),
    }
}
