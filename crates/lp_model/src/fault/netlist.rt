ghost use Rattle.std.specs.Prelude.{◌≡◌};
ghost use Rattle.lp_model.specs.FaultWords.{netlist_fault_word, netlist_limit_number, unfit_word};

use crate::ids::NodeId;
use crate::reason::Reason;
use lp_text::{NameId, Place};

/// An instance of a module.
#[derive(Clone, Copy)]
pub struct InstanceRef {
    /// The name of the module in which it stands.
    pub parent: NameId,
    /// Its name.
    pub instance: NameId,
}

/// The connection of an unknown pin.
#[derive(Clone, Copy)]
pub enum PinRef {
    /// A named one.
    Named(NameId),
    /// An ordered one, by its position from 1.
    Ordered(u32),
}

/// What joins two values.
#[derive(Clone, Copy)]
pub enum JoinRef {
    /// A connection of an instance, and the port or pin.
    Connection(NameId, NameId),
    /// An assign, by its number in its module from 0.
    Assign(u32),
}

/// What a netlist has too much of.
#[derive(Clone, Copy)]
pub enum NetlistLimit {
    /// Bytes of the text: 67,108,864.
    Bytes,
    /// Net bits: 4,000,000.
    Nodes,
    /// Cell instances or module instances: 1,000,000 each.
    Instances,
    /// Depth of module instances, the top counted: 64.
    Depth,
    /// Names of the written netlist that begin with `lp_`: 1,000,000,000.
    Names,
}

impl NetlistLimit {
    /// The number that stands for it in a fault's line.
    pub fn number(self) -> u32
        ensures { result ≡ netlist_limit_number self }
    {
        match self {
            NetlistLimit::Bytes => 1,
            NetlistLimit::Nodes => 2,
            NetlistLimit::Instances => 3,
            NetlistLimit::Depth => 4,
            NetlistLimit::Names => 5,
        }
    }
}

/// Why a source may not instantiate a cell.
#[derive(Clone, Copy)]
pub enum UnfitReason {
    /// The cell is unusable.
    Unusable(Reason),
    /// It is a level shifter.
    Shifter,
    /// It is a retention cell.
    RetentionCell,
    /// It is a switch cell.
    SwitchCell,
    /// It has a backup power or ground pin.
    Backup,
    /// It has an internal power or ground pin.
    Internal,
}

impl UnfitReason {
    /// The word that stands for it in a fault's line.
    pub fn word(self) -> &'static str
        ensures { result.now ≡ unfit_word self }
    {
        match self {
            UnfitReason::Unusable(reason) => reason.word(),
            UnfitReason::Shifter => "shifter",
            UnfitReason::RetentionCell => "retention_cell",
            UnfitReason::SwitchCell => "switch_cell",
            UnfitReason::Backup => "backup",
            UnfitReason::Internal => "internal",
        }
    }
}

/// A fault of the netlist text and of its elaboration.
#[derive(Clone, Copy)]
pub enum NetlistFault {
    /// F10: The text leaves the form of a netlist.
    Syntax {
        /// The place of the first token that cannot stand there.
        place: Place,
    },
    /// F11: A word that belongs to the language, but not to what is read of it.
    Unsupported {
        /// Its place.
        place: Place,
        /// The word.
        word: NameId,
    },
    /// F12: A name that is declared twice in a module, or a module twice.
    DuplicateName {
        /// The place of the second declaration.
        place: Place,
        /// The name.
        name: NameId,
    },
    /// F13: The target of an instance is no module and no cell.
    UnknownModule {
        /// The instance.
        at: InstanceRef,
    },
    /// F14: A connection that no port or pin takes.
    UnknownPin {
        /// The instance.
        at: InstanceRef,
        /// The connection.
        pin: PinRef,
    },
    /// F15: Two joined values have different numbers of bits.
    Width {
        /// The module in which they stand.
        parent: NameId,
        /// What joins them.
        join: JoinRef,
    },
    /// F16: A node has two sources.
    TwoDrivers {
        /// The node.
        node: NodeId,
    },
    /// F17: A module contains itself through instances.
    Recursive {
        /// The module.
        target: NameId,
    },
    /// F18: Not exactly one module is instantiated by none.
    Top {
        /// How many are.
        count: u32,
    },
    /// F19: A name of the source begins with `lp_`, or a module's name is a cell's.
    ReservedName {
        /// The name.
        name: NameId,
    },
    /// F20: A source connects a pg_pin.
    AlreadyPowered {
        /// The instance.
        at: InstanceRef,
        /// The pg_pin.
        pin: NameId,
    },
    /// F22: More of something than the limit.
    Limit {
        /// Of what.
        limit: NetlistLimit,
    },
    /// F23: A node reaches itself through ports and assigns alone.
    WireLoop {
        /// The node.
        node: NodeId,
    },
    /// F61: A source instance of a cell that a source may not have.
    UnfitCell {
        /// The instance.
        at: InstanceRef,
        /// Why not.
        reason: UnfitReason,
    },
}

impl NetlistFault {
    /// The number and the name of the fault.
    pub fn word(&self) -> &'static str
        ensures { result.now ≡ netlist_fault_word self.now }
    {
        match self {
            NetlistFault::Syntax { .. } => "F10 Syntax",
            NetlistFault::Unsupported { .. } => "F11 Unsupported",
            NetlistFault::DuplicateName { .. } => "F12 DuplicateName",
            NetlistFault::UnknownModule { .. } => "F13 UnknownModule",
            NetlistFault::UnknownPin { .. } => "F14 UnknownPin",
            NetlistFault::Width { .. } => "F15 Width",
            NetlistFault::TwoDrivers { .. } => "F16 TwoDrivers",
            NetlistFault::Recursive { .. } => "F17 Recursive",
            NetlistFault::Top { .. } => "F18 Top",
            NetlistFault::ReservedName { .. } => "F19 ReservedName",
            NetlistFault::AlreadyPowered { .. } => "F20 AlreadyPowered",
            NetlistFault::Limit { .. } => "F22 Limit",
            NetlistFault::WireLoop { .. } => "F23 WireLoop",
            NetlistFault::UnfitCell { .. } => "F61 UnfitCell",
        }
    }
}
