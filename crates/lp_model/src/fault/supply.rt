ghost use Rattle.std.specs.Prelude.{◌≡◌};
ghost use Rattle.lp_model.specs.FaultWords.{supply_fault_word};

use crate::ids::{OriginId, SetId};
use crate::intent::ScopedName;
use lp_text::NameId;

/// A supply that lacks an origin.
#[derive(Clone, Copy)]
pub enum SupplyRef {
    /// A supply set.
    Set(SetId),
    /// A supply port.
    Port(ScopedName),
    /// A supply net.
    Net(ScopedName),
}

/// A row without combination, or a switch with a state that its root lacks.
#[derive(Clone, Copy)]
pub enum RowRef {
    /// The row, from 1.
    Row(u32),
    /// The origin of the switch.
    Origin(OriginId),
}

/// A fault of domains and supplies.
#[derive(Clone, Copy)]
pub enum SupplyFault {
    /// F35: The top instance is in no domain.
    NoDomain {
        /// The name of its module.
        top: NameId,
    },
    /// F36: A domain has no primary supply.
    NoPrimary {
        /// The domain, by its number in command order from 0.
        domain: u32,
    },
    /// F37: A used set lacks power or ground, or a used port or net has no origin.
    Undriven {
        /// The set, port or net.
        supply: SupplyRef,
    },
    /// F38: What a net is joined to has two origins.
    TwoSources {
        /// The net.
        net: ScopedName,
    },
    /// F39: A switch's input comes from its own output.
    SupplyLoop {
        /// The switch, by its number in command order from 0.
        switch: u32,
    },
    /// F40: A port without declared states feeds a power function of a used set or a switch.
    NoStates {
        /// The origin.
        origin: OriginId,
    },
    /// F41: A ground origin is on at another voltage than 0, serves as power too, or is a switch.
    GroundLevel {
        /// The origin.
        origin: OriginId,
    },
    /// F42: A row has no combination of states, or a switch's output a state that its root lacks.
    StateMismatch {
        /// The row or the switch.
        at: RowRef,
    },
    /// F63: Two used sets have different ground origins.
    GroundMismatch {
        /// The first set.
        first: SetId,
        /// The other one.
        second: SetId,
    },
}

impl SupplyFault {
    /// The number and the name of the fault.
    pub fn word(&self) -> &'static str
        ensures { result.now ≡ supply_fault_word self.now }
    {
        match self {
            SupplyFault::NoDomain { .. } => "F35 NoDomain",
            SupplyFault::NoPrimary { .. } => "F36 NoPrimary",
            SupplyFault::Undriven { .. } => "F37 Undriven",
            SupplyFault::TwoSources { .. } => "F38 TwoSources",
            SupplyFault::SupplyLoop { .. } => "F39 SupplyLoop",
            SupplyFault::NoStates { .. } => "F40 NoStates",
            SupplyFault::GroundLevel { .. } => "F41 GroundLevel",
            SupplyFault::StateMismatch { .. } => "F42 StateMismatch",
            SupplyFault::GroundMismatch { .. } => "F63 GroundMismatch",
        }
    }
}
