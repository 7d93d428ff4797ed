ghost use Rattle.std.specs.Prelude.{◌≡◌};
ghost use Rattle.lp_model.specs.FaultWords.{event_fault_word, pin_fault_word, generator_fault_word};

use crate::ids::{LeafId, NodeId, OriginId};
use lp_text::NameId;

/// A fault of the text of events.
#[derive(Clone, Copy)]
pub enum EventFault {
    /// V1: A line leaves the form of events.
    Syntax {
        /// The line, from 1.
        line: u32,
    },
    /// V2: A register, input or supply that is not there.
    UnknownName {
        /// The line, from 1.
        line: u32,
        /// The name.
        name: NameId,
    },
    /// V3: The states of the supplies are in no row.
    NotInRows {
        /// The number of the event, from 1.
        event: u32,
    },
    /// V4: More than 1,000,000 events.
    Limit {
        /// The line, from 1.
        line: u32,
    },
    /// V5: The text leaves the form of a value change dump (IEEE 1364-2005, clause 18).
    VcdSyntax {
        /// The line, from 1.
        line: u32,
    },
    /// V6: A variable's width is not that of its port or supply.
    VcdWidth {
        /// The name of the port or supply.
        name: NameId,
    },
    /// V7: A supply's value stands for no state.
    VcdSupply {
        /// The line, from 1.
        line: u32,
    },
    /// V8: A name that a dump cannot have.
    VcdName {
        /// The name.
        name: NameId,
    },
}

impl EventFault {
    /// The number and the name of the fault.
    pub fn word(&self) -> &'static str
        ensures { result.now ≡ event_fault_word self.now }
    {
        match self {
            EventFault::Syntax { .. } => "V1 Syntax",
            EventFault::UnknownName { .. } => "V2 UnknownName",
            EventFault::NotInRows { .. } => "V3 NotInRows",
            EventFault::Limit { .. } => "V4 Limit",
            EventFault::VcdSyntax { .. } => "V5 VcdSyntax",
            EventFault::VcdWidth { .. } => "V6 VcdWidth",
            EventFault::VcdSupply { .. } => "V7 VcdSupply",
            EventFault::VcdName { .. } => "V8 VcdName",
        }
    }
}

/// A fault of a netlist that is simulated by its pins.
#[derive(Clone, Copy)]
pub enum PinFault {
    /// P1: A pg_pin has no supply.
    PinUnsupplied {
        /// The cell instance.
        leaf: LeafId,
        /// The pg_pin, by its place in the cell's list.
        pg: u8,
    },
    /// P2: A node depends on itself.
    Loop {
        /// The node.
        node: NodeId,
    },
    /// P3: The netlist lacks the node of an origin.
    NoOrigin {
        /// The origin.
        origin: OriginId,
    },
}

impl PinFault {
    /// The number and the name of the fault.
    pub fn word(&self) -> &'static str
        ensures { result.now ≡ pin_fault_word self.now }
    {
        match self {
            PinFault::PinUnsupplied { .. } => "P1 PinUnsupplied",
            PinFault::Loop { .. } => "P2 Loop",
            PinFault::NoOrigin { .. } => "P3 NoOrigin",
        }
    }
}

/// A fault of a generated design.
#[derive(Clone, Copy)]
pub enum GeneratorFault {
    /// G1: The number of blocks is not from 1 to 2,000.
    OutOfRange {
        /// The number.
        number: u32,
    },
}

impl GeneratorFault {
    /// The number and the name of the fault.
    pub fn word(&self) -> &'static str
        ensures { result.now ≡ generator_fault_word self.now }
    {
        match self {
            GeneratorFault::OutOfRange { .. } => "G1 OutOfRange",
        }
    }
}
