use crate::ids::{CellId, EdgeId, InstId, LeafId, NodeId};
use crate::netlist::{Direction, Netlist};
use lp_text::NameId;
use sqlite_items::Items;

/// What an added net or port is for (own names: lp_v, lp_w, lp_n and lp_c).
#[derive(Clone, Copy)]
pub enum WireKind {
    /// The supply port of this name (lp_v).
    Supply(NameId),
    /// The output of the switch of this number, counted in command order from 0 (lp_w).
    SwitchOutput(u32),
    /// A net of a chain of operators (lp_n).
    Chain,
    /// A part of a control's route (lp_c).
    Control,
}

/// The name of a node in its instance. It takes 12 bytes.
#[derive(Clone, Copy)]
pub enum NodeName {
    /// A scalar net of the source.
    Scalar(NameId),
    /// A bit of a vector net of the source, by its index.
    Bit(NameId, u32),
    /// A node that was added to the source.
    Added(WireKind),
}

/// What drives a node. It takes 8 bytes.
#[derive(Clone, Copy)]
pub enum Source {
    /// Nothing: its value is unknown.
    Nothing,
    /// The environment, for the outer side of a top input.
    Env,
    /// An output of a cell instance. The pin counts the cell's signal pins and after them its pg_pins, for
    /// one that the cell drives itself.
    Leaf {
        /// The pin.
        pin: u8,
        /// The cell instance.
        leaf: LeafId,
    },
    /// A port connection or an assign.
    Edge(EdgeId),
}

/// A net bit of a module instance. It takes 24 bytes.
#[derive(Clone, Copy)]
pub struct Node {
    /// The instance.
    pub inst: InstId,
    /// The net, and the index of a vector's bit.
    pub name: NodeName,
    /// What drives it.
    pub source: Source,
}

/// What an edge comes from. It takes 8 bytes.
#[derive(Clone, Copy)]
pub enum EdgeFrom {
    /// A node.
    Node(NodeId),
    /// 0 or 1.
    Const(bool),
}

/// What makes an edge. Of a port of the top the direction decides, as of a port of any instance.
#[derive(Clone, Copy)]
pub enum EdgeKind {
    /// An input port: the edge leads into its instance.
    In,
    /// An output port: the edge leads out of its instance.
    Out,
    /// An assign.
    Assign,
}

/// A way for a value from one place to a node. It takes 16 bytes.
#[derive(Clone, Copy)]
pub struct Edge {
    /// Where it begins.
    pub from: EdgeFrom,
    /// The node that it drives.
    pub to: NodeId,
    /// What makes it.
    pub kind: EdgeKind,
}

/// What a pin of a cell instance is connected to. It takes 8 bytes.
#[derive(Clone, Copy)]
pub enum PinNet {
    /// Nothing.
    Unconnected,
    /// 0 or 1.
    Const(bool),
    /// A node of the same module instance.
    Node(NodeId),
}

/// A cell instance. It takes 16 bytes.
#[derive(Clone, Copy)]
pub struct Leaf {
    /// The module instance in which it stands.
    pub inst: InstId,
    /// The instance's name.
    pub name: NameId,
    /// Its cell.
    pub cell: CellId,
    /// Where its row begins in the graph's list of pins: first the cell's signal pins, then its pg_pins.
    pub start: u32,
}

/// A module instance. It takes 20 bytes.
#[derive(Clone, Copy)]
pub struct Inst {
    /// The instance's name; of the top its module's name.
    pub name: NameId,
    /// Its module: counts the modules of the source from 0.
    pub module: u32,
    /// The instance in which it stands; the top has none.
    pub parent: Option<InstId>,
    /// Its first node: its net bits are the nodes from this number on.
    pub start: u32,
}

/// What is known of a library's cell where the library itself is not at hand. It takes 24 bytes, and one a pin.
#[derive(Drop)]
pub struct CellShape {
    /// The directions of its signal pins, in the cell's order.
    pub pins: Items<Direction>,
    /// The number of its pg_pins; in a row they come after the signal pins.
    pub pgs: u8,
    /// Whether it has a state group, so that its instances are registers.
    pub state: bool,
}

/// The bits of an elaborated netlist with all that drives them (own rule). Each table goes by number.
#[derive(Drop)]
pub struct Graph {
    /// The netlist that was elaborated.
    pub source: Netlist,
    /// The shapes of the library's cells, by the cells' numbers.
    pub shapes: Items<CellShape>,
    /// The module instances, in preorder by the order of statements: at most 1,000,000.
    pub instances: Items<Inst>,
    /// The cell instances, in preorder by the order of statements: at most 1,000,000.
    pub leaves: Items<Leaf>,
    /// The rows of the leaves' pins, one after another.
    pub pins: Items<PinNet>,
    /// The net bits: by instance, then ports before nets, then bits from the left index to the right one, at
    /// most 4,000,000. After them come the outer sides of the top's port bits, in port order.
    pub nodes: Items<Node>,
    /// The edges, at most one to a node.
    pub edges: Items<Edge>,
    /// The number of net bits; nodes from this number on belong to the environment.
    pub inner: u32,
    /// The top module: counts the modules of the source from 0.
    pub top: u32,
}
