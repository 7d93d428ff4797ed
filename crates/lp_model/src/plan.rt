use crate::ids::{CellId, EdgeId, LeafId, NodeId, SetId, StrategyId};
use crate::side::{Location, Side};
use sqlite_items::Items;

/// A cell that is inserted, or that takes another one's place.
#[derive(Clone, Copy)]
pub enum Insertion {
    /// A clamp (IEEE 1801-2015 set_isolation).
    Iso {
        /// The edge of its boundary bit.
        edge: EdgeId,
        /// The side whose part it belongs to.
        side: Side,
        /// Where it stands.
        location: Location,
        /// Its strategy.
        strategy: StrategyId,
        /// Its cell.
        cell: CellId,
        /// Its supply.
        supply: SetId,
        /// Its control.
        control: NodeId,
    },
    /// A level shifter (IEEE 1801-2015 set_level_shifter).
    Shift {
        /// The edge of its boundary bit.
        edge: EdgeId,
        /// The side whose part it belongs to.
        side: Side,
        /// Where it stands.
        location: Location,
        /// Its strategy.
        strategy: StrategyId,
        /// Its cell.
        cell: CellId,
        /// The supply of its data.
        input: SetId,
        /// The supply of its output.
        output: SetId,
    },
    /// A retention register in the place of a register (IEEE 1801-2015 set_retention).
    Ret {
        /// The register.
        leaf: LeafId,
        /// Its strategy.
        strategy: StrategyId,
        /// Its new cell.
        cell: CellId,
        /// The primary supply of its domain.
        primary: SetId,
        /// The supply of its copy.
        retention: SetId,
        /// The control that saves.
        save: NodeId,
        /// The control that restores.
        restore: NodeId,
    },
    /// A power switch (IEEE 1801-2015 create_power_switch).
    Switch {
        /// The switch: counts the switches in command order from 0.
        switch: u32,
        /// Its cell.
        cell: CellId,
        /// Its control.
        control: NodeId,
    },
}

/// All insertions: chains in port order, each in the flow of data, then registers in instance order, then switches
/// in command order.
#[derive(Drop)]
pub struct Plan {
    /// The entries, which are counted from 0.
    pub entries: Items<Insertion>,
}

/// What an added cell is for.
#[derive(Clone, Copy)]
pub enum AddedKind {
    /// The clamp of a plan entry, by its number.
    Clamp(u32),
    /// The shifter of a plan entry, by its number.
    Shifter(u32),
    /// The switch of a plan entry, by its number.
    Switch(u32),
    /// The enabled level shifter of a pair, by its number.
    Merged(u32),
}

/// A clamp and a shifter that one cell stands for (own rule).
#[derive(Clone, Copy)]
pub struct Pair {
    /// The plan entry that comes first in the flow of data.
    pub first: u32,
    /// The plan entry after it.
    pub second: u32,
    /// The cell.
    pub cell: CellId,
}

/// All pairs, in plan order.
#[derive(Drop)]
pub struct Merge {
    /// The pairs, which are counted from 0.
    pub pairs: Items<Pair>,
}
