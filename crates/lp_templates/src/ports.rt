ghost use Rattle.std.specs.Prelude.{◌≡◌, [], ◌++◌, ◌+◌, ◌<◌, sum_by, OnOk};
ghost use Rattle.std.specs.Option.{option_copied};
ghost use Rattle.lp_spec_faults.specs.Modules.{bit_count};
ghost use Rattle.lp_model.specs.declared.graph.EdgeFrom.TheVariants as froms;
ghost use Rattle.lp_templates.specs.Connected.{bits_or_none, connected_numbers, input_joints, output_joints, inputs_from, outputs_from};
ghost use Rattle.lp_templates.specs.Numbered.{port_width};
ghost use Rattle.lp_templates.specs.Pieces.{places_from, places_in, piece_places};
ghost use Rattle.lp_templates.specs.Values.{places_of};

use crate::connected::port_bits;
use crate::index::Index;
use crate::join::join;
use crate::piece::Piece;
use crate::run::Joints;
use crate::scope::{Scope, bit_count};
use crate::value::fill;
use lp_model::{BitRange, Bits, Connections, Direction, EdgeFrom, NodeId, Port};
use lp_text::NoMemory;

/// The places of a port inside its module.
fn inside(start: u32, range: Option<BitRange>) -> Piece
    requires { start + bit_count range < 4294967296 }
    ensures { piece_places result ≡ places_from (froms.Node (record { 0 = start })) (bit_count range) }
{
    Piece {
        count: bit_count(range) as u32,
        from: EdgeFrom::Node(NodeId(start)),
    }
}

/// Takes the places of what may be connected in place of those before.
fn fill_or_clear(
    pieces: &mut Vec<Piece>,
    scope: &Scope,
    bits: Option<&Bits>,
) -> Result<(), NoMemory>
    ensures { OnOk result (places_in pieces.new.items ≡ places_of scope.now (bits_or_none (option_copied bits.entry))) }
{
    match bits {
        Some(bits) => fill(pieces, scope, bits),
        None => {
            pieces.clear();
            Ok(())
        }
    }
}

/// Puts what a port joins behind the inputs or the outputs.
fn join_port(
    inputs: &mut Joints,
    outputs: &mut Joints,
    direction: Direction,
    inside: &[Piece],
    outside: &[Piece],
) -> Result<(), NoMemory>
    ensures inputs { OnOk result (inputs.new ≡ inputs.old ++ input_joints direction (places_in inside.now) (places_in outside.now)) }
    ensures outputs { OnOk result (outputs.new ≡ outputs.old ++ output_joints direction (places_in inside.now) (places_in outside.now)) }
{
    match direction {
        Direction::Input => join(inputs, inside, outside),
        Direction::Output => join(outputs, outside, inside),
    }
}

/// Puts what the ports of an instance of a module join behind the inputs and the outputs. Takes time in proportion to the
/// ports and the runs of what is connected.
pub(crate) fn join_ports(
    inputs: &mut Joints,
    outputs: &mut Joints,
    pieces: &mut Vec<Piece>,
    index: &Index,
    scope: &Scope,
    connections: &Connections,
    ports: &[Port],
) -> Result<(), NoMemory>
    requires index { index.now ≡ connected_numbers connections.now }
    requires few { sum_by port_width ports.now < 4294967296 }
    ensures inputs { OnOk result (inputs.new ≡ inputs.old ++ inputs_from scope.now connections.now 0 0 ports.now) }
    ensures outputs { OnOk result (outputs.new ≡ outputs.old ++ outputs_from scope.now connections.now 0 0 ports.now) }
{
    let mut start = 0;
    for (position, port) in ports.iter().enumerate() {
        let own = [inside(start, port.range)];
        let bits = port_bits(index, connections, position, port.name);
        fill_or_clear(pieces, scope, bits)?;
        join_port(inputs, outputs, port.direction, &own, pieces.as_slice())?;
        start += bit_count(port.range) as u32;
    }
    Ok(())
}
