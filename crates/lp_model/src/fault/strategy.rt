ghost use Rattle.std.specs.Prelude.{◌≡◌};
ghost use Rattle.lp_model.specs.FaultWords.{strategy_fault_word};

use crate::fault::refs::{ControlRef, DriverRef, EntryRef, ReaderRef, Site};
use crate::ids::{EdgeId, LeafId, NodeId, StrategyId};
use crate::intent::Element;

/// A fault of strategies: what they ask for cannot be done, or is not enough.
#[derive(Clone, Copy)]
pub enum StrategyFault {
    /// F21: A node depends on itself.
    Loop {
        /// The node.
        node: NodeId,
    },
    /// F50: An element of a strategy is none of its domain's boundary.
    NotBoundary {
        /// The strategy.
        strategy: StrategyId,
        /// The element.
        element: Element,
    },
    /// F51: Two strategies of one kind share the greatest rank.
    Tied {
        /// The boundary bit or the register.
        site: Site,
        /// The first strategy.
        first: StrategyId,
        /// The other one.
        second: StrategyId,
    },
    /// F52: A strategy applies by some readers of a bit, and not by others.
    SplitSinks {
        /// The edge of the boundary bit.
        bit: EdgeId,
        /// The strategy.
        strategy: StrategyId,
    },
    /// F53: A reader that is on may read a driver that is off.
    UncoveredIsolation {
        /// The driver.
        driver: DriverRef,
        /// The reader.
        reader: ReaderRef,
        /// The first row that shows it.
        row: u32,
    },
    /// F54: A reader may read a driver at a lower voltage.
    UncoveredLevel {
        /// The driver.
        driver: DriverRef,
        /// The reader.
        reader: ReaderRef,
        /// The first row that shows it.
        row: u32,
    },
    /// F55: A reader may read a driver at a lower voltage, and a strategy forbids the shifter.
    ShiftForbidden {
        /// The driver.
        driver: DriverRef,
        /// The reader.
        reader: ReaderRef,
        /// The first row that shows it.
        row: u32,
    },
    /// F56: A clamp would need a shifter on both sides.
    TwoShifters {
        /// The edge of the boundary bit.
        bit: EdgeId,
        /// The strategy.
        strategy: StrategyId,
    },
    /// F57: The locations contradict the order of clamp and shifter.
    LocationOrder {
        /// The edge of the boundary bit.
        bit: EdgeId,
        /// The isolation strategy.
        isolation: StrategyId,
        /// The shifting strategy.
        shifting: StrategyId,
    },
    /// F58: There is no instance in which the operator could stand.
    NoPlace {
        /// The edge of the boundary bit.
        bit: EdgeId,
        /// The strategy.
        strategy: StrategyId,
    },
    /// F59: A control comes from a lower voltage than a supply that reads it.
    ControlLevel {
        /// What it controls.
        of: ControlRef,
        /// The control.
        node: NodeId,
        /// The first row that shows it.
        row: u32,
    },
    /// F60: No cell fits.
    NoCell {
        /// What it would be for.
        entry: EntryRef,
    },
    /// F62: A strategy that inserts has no supply.
    NoSupply {
        /// The boundary bit or the register.
        site: Site,
        /// The strategy.
        strategy: StrategyId,
    },
    /// F64: A shifter without output supply, and readers of different supplies.
    ShiftTarget {
        /// The edge of the boundary bit.
        bit: EdgeId,
        /// The strategy.
        strategy: StrategyId,
    },
    /// F65: A shifter would have another input supply than its strategy names.
    ShiftSupply {
        /// The edge of the boundary bit.
        bit: EdgeId,
        /// The strategy.
        strategy: StrategyId,
    },
    /// F66: The power-down of a source cell is not that its primary supply is down.
    UnfitPower {
        /// The cell instance.
        instance: LeafId,
    },
}

impl StrategyFault {
    /// The number and the name of the fault.
    pub fn word(&self) -> &'static str
        ensures { result.now ≡ strategy_fault_word self.now }
    {
        match self {
            StrategyFault::Loop { .. } => "F21 Loop",
            StrategyFault::NotBoundary { .. } => "F50 NotBoundary",
            StrategyFault::Tied { .. } => "F51 Tied",
            StrategyFault::SplitSinks { .. } => "F52 SplitSinks",
            StrategyFault::UncoveredIsolation { .. } => "F53 UncoveredIsolation",
            StrategyFault::UncoveredLevel { .. } => "F54 UncoveredLevel",
            StrategyFault::ShiftForbidden { .. } => "F55 ShiftForbidden",
            StrategyFault::TwoShifters { .. } => "F56 TwoShifters",
            StrategyFault::LocationOrder { .. } => "F57 LocationOrder",
            StrategyFault::NoPlace { .. } => "F58 NoPlace",
            StrategyFault::ControlLevel { .. } => "F59 ControlLevel",
            StrategyFault::NoCell { .. } => "F60 NoCell",
            StrategyFault::NoSupply { .. } => "F62 NoSupply",
            StrategyFault::ShiftTarget { .. } => "F64 ShiftTarget",
            StrategyFault::ShiftSupply { .. } => "F65 ShiftSupply",
            StrategyFault::UnfitPower { .. } => "F66 UnfitPower",
        }
    }
}
