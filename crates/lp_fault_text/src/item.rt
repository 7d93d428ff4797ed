use lp_model::{EdgeId, InstId, LeafId, NodeId, OriginId, ScopedName, SetId, StrategyId};

/// Which of two netlists is meant.
#[derive(Clone, Copy)]
pub enum Which {
    /// The netlist to which the power intent belongs.
    Source,
    /// The powered netlist that is compared with it.
    Powered,
}

/// A part of a netlist, by its numbers in the netlist's graph.
#[derive(Clone, Copy)]
pub enum Part {
    /// An instance, the top by the name of its module.
    Inst(InstId),
    /// A cell instance.
    Leaf(LeafId),
    /// A signal pin of a cell instance, by its place among the cell's signal pins.
    Pin(LeafId, u8),
    /// The name of a pg_pin alone, by its place among the pg_pins of the instance's cell.
    PgName(LeafId, u8),
    /// A net bit, or the outer side of a top port's bit.
    Node(NodeId),
    /// A port bit, by its edge.
    Bit(EdgeId),
    /// A port of an instance, by its place in the header of the instance's module.
    Port(InstId, u32),
}

/// A field of a line.
#[derive(Clone, Copy)]
pub enum Item {
    /// A number.
    Number(u32),
    /// The word `none`.
    Nothing,
    /// A part of a netlist.
    Part(Which, Part),
    /// A supply port or a supply net.
    Supply(ScopedName),
    /// A domain, by its number in command order from 0.
    Domain(u32),
    /// A supply set.
    Set(SetId),
    /// A switch, by its number in command order from 0.
    Switch(u32),
    /// A strategy, behind its domain.
    Strategy(StrategyId),
    /// A supply origin, by its port or switch.
    Origin(OriginId),
}
