use crate::ids::{EdgeId, InstId, LeafId, NodeId, OriginId, StrategyId};

/// Where a strategy acts.
#[derive(Clone, Copy)]
pub enum Site {
    /// A boundary bit, by its edge.
    Bit(EdgeId),
    /// A register.
    Register(LeafId),
}

/// What drives a reader.
#[derive(Clone, Copy)]
pub enum DriverRef {
    /// A pin of a cell instance, by its place among the cell's pins.
    Pin(LeafId, u8),
    /// A top input bit, by its outer node.
    Port(NodeId),
    /// A constant or nothing.
    Nothing,
}

/// What reads a driver.
#[derive(Clone, Copy)]
pub enum ReaderRef {
    /// The data of a clamp, by the edge of its boundary bit.
    Clamp(EdgeId),
    /// A pin of a cell instance, by its place among the cell's pins.
    Pin(LeafId, u8),
    /// A top output bit, by its outer node.
    Port(NodeId),
}

/// What a control is for.
#[derive(Clone, Copy)]
pub enum ControlRef {
    /// A strategy.
    Strategy(StrategyId),
    /// A switch, by its number in command order from 0.
    Switch(u32),
}

/// What a cell is inserted for.
#[derive(Clone, Copy)]
pub enum EntryRef {
    /// A boundary bit, by its edge, and the strategy.
    Bit(EdgeId, StrategyId),
    /// A register and the strategy.
    Register(LeafId, StrategyId),
    /// A switch, by its number in command order from 0: it has no strategy.
    Switch(u32),
}

/// A part in which a source and a powered netlist differ.
#[derive(Clone, Copy)]
pub enum PartRef {
    /// A module instance of the source.
    Inst(InstId),
    /// A cell instance of the source.
    Leaf(LeafId),
    /// A top port of the source, from 0.
    Port(u32),
    /// A module instance of the powered netlist.
    Added(InstId),
}

/// A supply that a powered netlist has otherwise or lacks.
#[derive(Clone, Copy)]
pub enum PoweredRef {
    /// A pg_pin of a cell instance of the powered netlist, by its place in the cell's list.
    Pin(LeafId, u8),
    /// The port of an origin, at the top.
    Port(OriginId),
}
