use crate::ids::{InstId, LeafId, NodeId, SetId, StrategyId};
use crate::library::Action;
use crate::side::Location;
use lp_text::NameId;
use sqlite_items::Items;

/// The name of what a command made, in the scope in which it was made.
#[derive(Clone, Copy)]
pub struct ScopedName {
    /// The instance that was the scope.
    pub scope: InstId,
    /// The name.
    pub name: NameId,
}

/// A power domain (IEEE 1801-2015 create_power_domain).
#[derive(Drop)]
pub struct Domain {
    /// Its name, with its scope.
    pub name: ScopedName,
    /// The instances that it lists.
    pub elements: Items<InstId>,
    /// The set of its handle `primary`.
    pub primary: Option<SetId>,
    /// The set of its handle `default_isolation`.
    pub isolation: Option<SetId>,
    /// The set of its handle `default_retention`.
    pub retention: Option<SetId>,
}

/// How a supply set is named.
#[derive(Clone, Copy)]
pub enum SetName {
    /// By create_supply_set.
    Made(ScopedName),
    /// The primary set that set_domain_supply_net makes of a domain, by the domain's number.
    Primary(u32),
}

/// A supply set (IEEE 1801-2015 create_supply_set and set_domain_supply_net). A function is a supply net, by
/// its place in the list of supply nets; none where it is not given.
#[derive(Clone, Copy)]
pub struct SupplySet {
    /// Its name.
    pub name: SetName,
    /// The function `power`.
    pub power: Option<u32>,
    /// The function `ground`.
    pub gnd: Option<u32>,
    /// The function `nwell`; where it is missing the power is taken.
    pub nwell: Option<u32>,
    /// The function `pwell`; where it is missing the ground is taken.
    pub pwell: Option<u32>,
    /// The function `deepnwell`; where it is missing the power is taken.
    pub deepnwell: Option<u32>,
    /// The function `deeppwell`; where it is missing the ground is taken.
    pub deeppwell: Option<u32>,
    /// The number of the command that made it, from 0.
    pub command: u32,
}

/// A declared state of a supply (IEEE 1801-2015 add_port_state).
#[derive(Clone, Copy, PartialEq)]
pub enum DeclaredState {
    /// On, at a voltage in microvolts, at most 10^12.
    On(u64),
    /// Off.
    Off,
}

/// A supply port (IEEE 1801-2015 create_supply_port).
#[derive(Drop)]
pub struct SupplyPort {
    /// Its name, with its scope.
    pub name: ScopedName,
    /// Its declared states, in command order.
    pub states: Items<DeclaredState>,
    /// The group of ports and nets that connect_supply_net joins, by number: at most one less than there are ports
    /// and nets.
    pub group: u32,
    /// The number of the command that made it, from 0.
    pub command: u32,
    /// Whether it is a source: a port of the top scope with direction in.
    pub is_source: bool,
}

/// A supply net (IEEE 1801-2015 create_supply_net).
#[derive(Clone, Copy)]
pub struct SupplyNet {
    /// Its name, with its scope.
    pub name: ScopedName,
    /// The group of ports and nets that connect_supply_net joins, by number.
    pub group: u32,
    /// The number of the command that made it, from 0.
    pub command: u32,
}

/// A power switch (IEEE 1801-2015 create_power_switch).
#[derive(Drop)]
pub struct PowerSwitch {
    /// Its name, with its scope.
    pub name: ScopedName,
    /// The declared states of its output, in command order.
    pub states: Items<DeclaredState>,
    /// The supply net of its input, by its place in the list of supply nets.
    pub input: u32,
    /// The supply net of its output.
    pub output: u32,
    /// The net bit that controls it.
    pub control: NodeId,
    /// The number of the command that made it, from 0.
    pub command: u32,
    /// Whether it is on where the control is 1, else where the control is 0.
    pub high: bool,
}

/// What a row of the state table gives a supply. It takes 16 bytes.
#[derive(Clone, Copy)]
pub enum RowState {
    /// Nothing: any declared state, as for `*`.
    Free,
    /// The state off.
    Off,
    /// The state on, at a voltage in microvolts, at most 10^12.
    On(u64),
}

/// A column of the state table: the supply that an add_pst_state gives a state to (IEEE 1801-2015 create_pst).
#[derive(Clone, Copy)]
pub enum ListedSupply {
    /// A supply port, by its place in the list of supply ports.
    Port(u32),
    /// A supply net, by its place in the list of supply nets.
    Net(u32),
}

/// A row of the state table (IEEE 1801-2015 add_pst_state).
#[derive(Drop)]
pub struct TableRow {
    /// The state of each column.
    pub states: Items<RowState>,
    /// The number of the command that made it, from 0.
    pub command: u32,
}

/// The supplies of a top port (IEEE 1801-2015 set_port_attributes).
#[derive(Clone, Copy)]
pub struct PortAttribute {
    /// The port: counts the ports of the top module from 0.
    pub port: u32,
    /// The set of `-driver_supply`, of an input.
    pub driver: Option<SetId>,
    /// The set of `-receiver_supply`, of an output.
    pub receiver: Option<SetId>,
}

/// The cells that may stand for strategies and switches (IEEE 1801-2015 use_interface_cell, map_retention_cell and
/// map_power_switch).
#[derive(Drop)]
pub struct CellList {
    /// The strategies.
    pub strategies: Items<StrategyId>,
    /// The switches, by number in command order.
    pub switches: Items<u32>,
    /// The names of the cells, which the library may lack.
    pub cells: Items<NameId>,
}

/// What a strategy is for.
#[derive(Clone, Copy)]
pub enum StrategyKind {
    /// IEEE 1801-2015 set_isolation.
    Isolation,
    /// IEEE 1801-2015 set_level_shifter.
    Shifting,
    /// IEEE 1801-2015 set_retention.
    Retention,
}

/// What `-elements` or `-exclude_elements` of a strategy names.
#[derive(Clone, Copy)]
pub enum Element {
    /// A module instance.
    Inst(InstId),
    /// A cell instance.
    Leaf(LeafId),
    /// A port of a module instance; it counts the ports of the instance's module from 0.
    Port(InstId, u32),
    /// A bit of a port of a module instance, by its inner node.
    Bit(NodeId),
}

/// Which ports a strategy is for (IEEE 1801-2015 `-applies_to`).
#[derive(Clone, Copy)]
pub enum Applies {
    /// inputs
    Inputs,
    /// outputs
    Outputs,
    /// both, also where it is not given
    Both,
}

/// What `-source` or `-sink` of a strategy names.
#[derive(Clone, Copy)]
pub enum SetOrDomain {
    /// A supply set.
    Set(SetId),
    /// A domain, by number, which stands for its primary supply.
    Domain(u32),
}

/// For which difference a level shifter is wanted (IEEE 1801-2015 set_level_shifter, `-rule`).
#[derive(Clone, Copy)]
pub enum Rule {
    /// low_to_high
    LowToHigh,
    /// high_to_low
    HighToLow,
    /// both, also where it is not given
    Both,
}

/// A control of retention (IEEE 1801-2015 `-save_signal` and `-restore_signal`).
#[derive(Clone, Copy)]
pub struct Signal {
    /// The net bit.
    pub node: NodeId,
    /// When it acts.
    pub action: Action,
}

/// A strategy with the value of each of its options, its default, or none (IEEE 1801-2015 set_isolation,
/// set_level_shifter and set_retention).
#[derive(Drop)]
pub struct Strategy {
    /// What it is for.
    pub kind: StrategyKind,
    /// Its name, within its domain.
    pub name: NameId,
    /// Its domain: counts the domains in command order from 0.
    pub domain: u32,
    /// The number of the command that made it, from 0.
    pub command: u32,
    /// The differences of voltage up to which no shifter is wanted (`-threshold`), in microvolts, at most 10^12.
    pub threshold: u64,
    /// What `-elements` names; none where the option is not given.
    pub elements: Option<Items<Element>>,
    /// What `-exclude_elements` names.
    pub excluded: Items<Element>,
    /// `-source`
    pub source: Option<SetOrDomain>,
    /// `-sink`
    pub sink: Option<SetOrDomain>,
    /// `-isolation_supply` or `-retention_supply`, else the domain's default handle for it.
    pub supply: Option<SetId>,
    /// `-input_supply`
    pub input: Option<SetId>,
    /// `-output_supply`
    pub output: Option<SetId>,
    /// `-isolation_signal`
    pub control: Option<NodeId>,
    /// `-save_signal`
    pub save: Option<Signal>,
    /// `-restore_signal`
    pub restore: Option<Signal>,
    /// `-applies_to`
    pub applies: Applies,
    /// `-location`
    pub location: Location,
    /// `-rule`
    pub rule: Rule,
    /// False exactly with `-no_isolation`, `-no_shift` or `-no_retention`.
    pub inserts: bool,
    /// `-diff_supply_only`
    pub diff: bool,
    /// `-clamp_value`: whether it is 1.
    pub clamp: bool,
    /// `-isolation_sense`: whether it is high.
    pub high: bool,
}

/// The power intent of a design, with all names but those of cells resolved (IEEE 1801-2015, the subset that is
/// read). Each list is in command order.
#[derive(Drop)]
pub struct Intent {
    /// The domains.
    pub domains: Items<Domain>,
    /// The supply sets.
    pub sets: Items<SupplySet>,
    /// The supply ports.
    pub ports: Items<SupplyPort>,
    /// The supply nets.
    pub nets: Items<SupplyNet>,
    /// The switches.
    pub switches: Items<PowerSwitch>,
    /// The strategies, at most 4,096.
    pub strategies: Items<Strategy>,
    /// The columns of the state table.
    pub columns: Items<ListedSupply>,
    /// The rows of the state table, at most 4,096.
    pub rows: Items<TableRow>,
    /// The supplies of top ports.
    pub attributes: Items<PortAttribute>,
    /// The cells that strategies and switches are limited to.
    pub lists: Items<CellList>,
    /// The difference up to which a reader takes the value of a lower driver, in microvolts, at most 10^12 (own
    /// rule).
    pub margin: u64,
}
