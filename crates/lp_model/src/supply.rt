use crate::ids::{EdgeId, NodeId, OriginId};
use crate::intent::{DeclaredState, RowState, ScopedName};
use sqlite_items::Items;

/// What feeds a supply.
#[derive(Drop)]
pub enum OriginKind {
    /// A supply port of the top, with its declared states.
    Port(Items<DeclaredState>),
    /// The output of a switch.
    Switch {
        /// The origin of its input.
        input: OriginId,
        /// The net bit that controls it.
        control: NodeId,
        /// Whether it is on where the control is 1, else where the control is 0.
        high: bool,
    },
}

/// A source of supply (IEEE 1801-2015, supply networks).
#[derive(Drop)]
pub struct Origin {
    /// The supply port's or the switch's name, with its scope.
    pub name: ScopedName,
    /// What it is.
    pub kind: OriginKind,
    /// The port origin that feeds it in the end; of a port itself.
    pub root: OriginId,
}

/// The origins of the functions of a supply set (IEEE 1801-2015 create_supply_set).
#[derive(Clone, Copy)]
pub struct SetOrigins {
    /// power
    pub power: OriginId,
    /// ground
    pub gnd: OriginId,
    /// nwell
    pub nwell: OriginId,
    /// pwell
    pub pwell: OriginId,
    /// deepnwell
    pub deepnwell: OriginId,
    /// deeppwell
    pub deeppwell: OriginId,
}

/// A row of the state table (IEEE 1801-2015 add_pst_state).
#[derive(Drop)]
pub struct Row {
    /// What it gives each origin.
    pub states: Items<RowState>,
}

/// The supply network of a design.
#[derive(Drop)]
pub struct Supplies {
    /// The origins, at most 1,024.
    pub origins: Items<Origin>,
    /// The rows, counted from 1. Where there is none, one row of number 0 leaves everything free.
    pub rows: Items<Row>,
    /// For each supply set that a domain handle, a strategy or a port attribute names its origins; none for any other,
    /// which is not used: it makes no origin a ground.
    pub sets: Items<Option<SetOrigins>>,
}

/// Which instance is of which domain (IEEE 1801-2015 create_power_domain).
#[derive(Drop)]
pub struct DomainMap {
    /// For each instance its domain: counts the domains in command order from 0.
    pub domain_of: Items<u32>,
    /// For each edge, whether it is a boundary bit's.
    pub boundary: Items<bool>,
    /// The edges of the boundary bits, in port order.
    pub bits: Items<EdgeId>,
}
