ghost use Rattle.std.specs.Prelude.{◌≡◌, OnOk};
ghost use Rattle.lp_spec_layout.specs.Feeds.{ByEdge, ByPin, ByOutside};
ghost use Rattle.lp_spec_layout.specs.OnePass.{or_next};
ghost use Rattle.lp_layout.specs.Wires.{noted, taken};

use crate::number::word;
use lp_model::{Edge, EdgeFrom, EdgeId, EdgeKind, LeafId, Node, NodeId, Source};
use lp_text::NoMemory;
use sqlite_items::{Items, at};

/// The nodes of a netlist and the edges that lead to them.
#[derive(Drop)]
pub(crate) struct Wires {
    pub nodes: Items<Node>,
    pub edges: Items<Edge>,
}

/// What is noted stays.
fn or_next(source: Source, next: Source) -> Source
    ensures { result ≡ or_next source next }
{
    match source {
        Source::Nothing => next,
        _ => source,
    }
}

/// Notes what drives a node, where nothing is noted so far.
fn note(nodes: &mut Items<Node>, place: u32, source: Source)
    ensures { nodes.new ≡ noted nodes.old place source }
{
    let place = place as usize;
    match at(nodes.as_slice(), place) {
        Some(node) => {
            let inst = node.inst;
            let name = node.name;
            let source = or_next(node.source, source);
            nodes.set(place, Node { inst, name, source });
        }
        None => {}
    }
}

impl Wires {
    /// An edge to a node.
    pub fn lead(&mut self, to: u32, from: EdgeFrom, kind: EdgeKind) -> Result<(), NoMemory>
        ensures { OnOk result (self.new ≡ taken self.old to (ByEdge from kind)) }
    {
        let edge = EdgeId(word(self.edges.len()));
        let to_node = NodeId(to);
        self.edges.push(Edge {
            from,
            to: to_node,
            kind,
        })?;
        note(&mut self.nodes, to, Source::Edge(edge));
        Ok(())
    }

    /// A cell instance's pin that drives a node.
    pub fn drive(&mut self, to: u32, pin: u8, leaf: u32)
        ensures { self.new ≡ taken self.old to (ByPin pin leaf) }
    {
        let leaf = LeafId(leaf);
        note(&mut self.nodes, to, Source::Leaf { pin, leaf });
    }

    /// A node that the environment drives.
    pub fn expose(&mut self, to: u32)
        ensures { self.new ≡ taken self.old to ByOutside }
    {
        note(&mut self.nodes, to, Source::Env);
    }
}
