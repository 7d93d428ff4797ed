ghost use Rattle.std.specs.Prelude.{◌≡◌, ◌+◌, ◌-◌, ◌≤◌, ◌<◌, ◌++◌, Some, map, flat_map, IfOk, OnOk};
ghost use Rattle.lp_spec_design.specs.Netlists.{upward, downward, indices};
ghost use Rattle.lp_layout.specs.Labels.{names_in, port_names, net_names, bit_names};
ghost use Rattle.lp_layout.specs.Nodes.{named_at, bits_named};

use lp_model::{BitRange, InstId, Module, NetDecl, Node, NodeName, Port, Source};
use lp_text::{NameId, NoMemory};
use sqlite_items::Items;

/// A node without a source.
fn named_at(inst: InstId, name: NodeName) -> Node
    ensures { result ≡ named_at inst name }
{
    let source = Source::Nothing;
    Node { inst, name, source }
}

/// Puts the bits of a vector whose indices go up behind the other nodes.
fn push_upward(
    nodes: &mut Items<Node>,
    inst: InstId,
    name: NameId,
    range: BitRange,
) -> Result<(), NoMemory>
    requires { range.left ≤ range.right }
    ensures { OnOk result (nodes.new ≡ nodes.old ++ bits_named inst name (upward (range.right + 1 - range.left) range.left)) }
{
    let count = range.right as u64 + 1 - range.left as u64;
    for k in 0..count {
        let index = (range.left as u64 + k) as u32;
        nodes.push(named_at(inst, NodeName::Bit(name, index)))?;
    }
    Ok(())
}

/// Puts the bits of a vector whose indices go down behind the other nodes.
fn push_downward(
    nodes: &mut Items<Node>,
    inst: InstId,
    name: NameId,
    range: BitRange,
) -> Result<(), NoMemory>
    requires { range.right < range.left }
    ensures { OnOk result (nodes.new ≡ nodes.old ++ bits_named inst name (downward (range.left + 1 - range.right) range.left)) }
{
    let count = range.left as u64 + 1 - range.right as u64;
    for k in 0..count {
        let index = (range.left as u64 - k) as u32;
        nodes.push(named_at(inst, NodeName::Bit(name, index)))?;
    }
    Ok(())
}

/// Puts the bits of a port or net behind the other nodes, from the left one to the right one.
fn push_bits(
    nodes: &mut Items<Node>,
    inst: InstId,
    name: NameId,
    range: Option<BitRange>,
) -> Result<(), NoMemory>
    ensures { OnOk result (nodes.new ≡ nodes.old ++ map (named_at inst) (names_in name range)) }
{
    match range {
        Some(range) => {
            if range.left <= range.right {
                push_upward(nodes, inst, name, range)
            } else {
                push_downward(nodes, inst, name, range)
            }
        }
        None => {
            nodes.push(named_at(inst, NodeName::Scalar(name)))?;
            Ok(())
        }
    }
}

/// Puts the bits of ports behind the other nodes.
pub(crate) fn push_ports(
    nodes: &mut Items<Node>,
    inst: InstId,
    ports: &[Port],
) -> Result<(), NoMemory>
    ensures { OnOk result (nodes.new ≡ nodes.old ++ map (named_at inst) (port_names ports.now)) }
{
    for port in ports {
        push_bits(nodes, inst, port.name, port.range)?;
    }
    Ok(())
}

/// Puts the bits of nets behind the other nodes.
fn push_nets(nodes: &mut Items<Node>, inst: InstId, nets: &[NetDecl]) -> Result<(), NoMemory>
    ensures { OnOk result (nodes.new ≡ nodes.old ++ map (named_at inst) (net_names nets.now)) }
{
    for net in nets {
        push_bits(nodes, inst, net.name, net.range)?;
    }
    Ok(())
}

/// Puts the bits of a module's instance behind the other nodes: ports and then nets.
pub(crate) fn push_module(
    nodes: &mut Items<Node>,
    inst: InstId,
    source: &Module,
) -> Result<(), NoMemory>
    ensures { OnOk result (nodes.new ≡ nodes.old ++ map (named_at inst) (bit_names source.now)) }
{
    push_ports(nodes, inst, source.ports.as_slice())?;
    push_nets(nodes, inst, source.nets.as_slice())
}
