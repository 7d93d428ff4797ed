ghost use Rattle.std.specs.Prelude.{◌≡◌};
ghost use Rattle.lp_model.specs.FaultWords.{check_fault_word};

use crate::fault::refs::{EntryRef, PartRef, PoweredRef, ReaderRef};
use crate::ids::LeafId;

/// Why a powered netlist of another maker is not what the intent asks for.
#[derive(Clone, Copy)]
pub enum CheckFault {
    /// C1: An instance, a cell or a port of the source is missing or another, or a module instance is too many.
    Instance {
        /// What it is.
        part: PartRef,
    },
    /// C2: A reader is not reached as the intent asks.
    Edge {
        /// The reader.
        reader: ReaderRef,
    },
    /// C3: A control does not come from its node.
    Control {
        /// What it controls.
        entry: EntryRef,
    },
    /// C4: A pg_pin has another supply, or a supply port is missing.
    Supply {
        /// The pg_pin or the port.
        at: PoweredRef,
    },
    /// C5: A cell instance that nothing asks for.
    Extra {
        /// The cell instance, of the powered netlist.
        leaf: LeafId,
    },
    /// C6: A cell does not fit.
    Cell {
        /// The cell instance, of the powered netlist.
        leaf: LeafId,
    },
    /// C7: Nothing is supplied by a switch.
    UnusedSwitch {
        /// The switch, by its number in command order from 0.
        switch: u32,
    },
}

impl CheckFault {
    /// The number and the name of the fault.
    pub fn word(&self) -> &'static str
        ensures { result.now ≡ check_fault_word self.now }
    {
        match self {
            CheckFault::Instance { .. } => "C1 Instance",
            CheckFault::Edge { .. } => "C2 Edge",
            CheckFault::Control { .. } => "C3 Control",
            CheckFault::Supply { .. } => "C4 Supply",
            CheckFault::Extra { .. } => "C5 Extra",
            CheckFault::Cell { .. } => "C6 Cell",
            CheckFault::UnusedSwitch { .. } => "C7 UnusedSwitch",
        }
    }
}
