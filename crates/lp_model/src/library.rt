use crate::netlist::Direction;
use crate::reason::Reason;
use lp_expr::Expr;
use lp_text::NameId;
use sqlite_items::Items;

/// The type of a power or ground pin (Liberty `pg_type`).
#[derive(Clone, Copy)]
pub enum PgKind {
    /// primary_power
    PrimaryPower,
    /// primary_ground
    PrimaryGround,
    /// backup_power
    BackupPower,
    /// backup_ground
    BackupGround,
    /// internal_power
    InternalPower,
    /// internal_ground
    InternalGround,
    /// nwell, which counts as a power pin
    Nwell,
    /// pwell, which counts as a ground pin
    Pwell,
    /// deepnwell, which counts as a power pin
    Deepnwell,
    /// deeppwell, which counts as a ground pin
    Deeppwell,
}

/// How a cell drives an internal power pin (Liberty `switch_function` and `pg_function`).
#[derive(Drop)]
pub struct Switched {
    /// The pin is off where this is 1.
    pub off: Expr,
    /// Else it has the state of this pg_pin, by its place in the cell's list.
    pub passes: u8,
}

/// A power or ground pin of a cell (Liberty `pg_pin`).
#[derive(Drop)]
pub struct PgPin {
    /// The pin's name.
    pub name: NameId,
    /// Its type.
    pub kind: PgKind,
    /// How the cell drives it; none for a pin that is supplied from outside.
    pub switched: Option<Switched>,
}

/// What a retention pin does (Liberty `retention_pin`, its class).
#[derive(Clone, Copy)]
pub enum RetClass {
    /// It saves.
    Save,
    /// It restores.
    Restore,
    /// It saves and restores.
    Both,
}

/// When a control acts (Liberty `save_action` and `restore_action`; IEEE 1801-2015 set_retention, its senses).
#[derive(Clone, Copy)]
pub enum Action {
    /// While the control is 1 (H, high).
    High,
    /// While the control is 0 (L, low).
    Low,
    /// As the control rises (R, posedge).
    Rise,
    /// As the control falls (F, negedge).
    Fall,
}

/// What a signal pin is for.
#[derive(Clone, Copy)]
pub enum PinUse {
    /// Nothing special.
    Plain,
    /// The data of an isolation cell (Liberty `isolation_cell_data_pin`).
    IsoData,
    /// The enable of an isolation cell (Liberty `isolation_cell_enable_pin`).
    IsoEnable,
    /// The data of a level shifter (Liberty `level_shifter_data_pin`).
    ShiftData,
    /// The enable of a level shifter (Liberty `level_shifter_enable_pin`).
    ShiftEnable,
    /// The control of a switch cell (Liberty `switch_pin`).
    Switch,
    /// A retention pin, with its save and its restore action.
    Retain(RetClass, Option<Action>, Option<Action>),
}

/// A signal pin of a cell (Liberty `pin`).
#[derive(Drop)]
pub struct Pin {
    /// The function of an output over input pins and state variables; an input has none.
    pub function: Option<Expr>,
    /// The output is X where this function of the pg_pins is not 0 (Liberty `power_down_function`).
    pub power_down: Option<Expr>,
    /// The pin's name.
    pub name: NameId,
    /// Its direction. A cell with a pin of another direction is unusable, and the pin counts as an input.
    pub direction: Direction,
    /// What it is for.
    pub use_of: PinUse,
    /// The related power pin, by its place in the cell's list; of an unusable cell any number.
    pub power: u8,
    /// The related ground pin; none in a switch cell without a ground pin.
    pub gnd: Option<u8>,
}

/// The kind of a state group.
#[derive(Clone, Copy)]
pub enum StateKind {
    /// Liberty `ff`.
    Flop,
    /// Liberty `latch`.
    Latch,
}

/// The state of a cell (Liberty `ff` and `latch`).
#[derive(Drop)]
pub struct StateGroup {
    /// Flop or latch.
    pub kind: StateKind,
    /// The state variable.
    pub var: NameId,
    /// Its complement.
    pub inverse: NameId,
    /// Liberty `next_state`; of a latch `data_in`.
    pub next: Expr,
    /// Liberty `clocked_on`; of a latch `enable`.
    pub clock: Expr,
    /// Liberty `clear`; the constant 0 where it is missing.
    pub clear: Expr,
    /// Liberty `preset`; the constant 0 where it is missing.
    pub preset: Expr,
    /// The state is lost where this function of the pg_pins is not 0 (Liberty `power_down_function`).
    pub power_down: Expr,
}

/// Which way a level shifter passes data (Liberty `level_shifter_type`).
#[derive(Clone, Copy)]
pub enum ShifterKind {
    /// LH: from a lower to a higher voltage.
    LowToHigh,
    /// HL: from a higher to a lower voltage.
    HighToLow,
    /// HL_LH, and what a missing or unknown type counts as.
    Both,
}

/// Voltages in microvolts, both ends included, each at most 10^12.
#[derive(Clone, Copy)]
pub struct VoltageRange {
    /// The lowest.
    pub low: u64,
    /// The highest.
    pub high: u64,
}

/// A level shifter's type and ranges (Liberty `is_level_shifter`).
#[derive(Clone, Copy)]
pub struct Shifter {
    /// Liberty `input_voltage_range`; every voltage where it is missing.
    pub input: Option<VoltageRange>,
    /// Liberty `output_voltage_range`; every voltage where it is missing.
    pub output: Option<VoltageRange>,
    /// Liberty `level_shifter_type`.
    pub kind: ShifterKind,
}

/// What a cell is for.
#[derive(Drop)]
pub struct Roles {
    /// Liberty `retention_cell`: where this function of the pg_pins is not 0 the saved copy is lost
    /// (`power_down_function` of `retention_condition`).
    pub retention: Option<Expr>,
    /// Liberty `is_level_shifter`.
    pub shifter: Option<Shifter>,
    /// Liberty `is_isolation_cell`.
    pub iso: bool,
    /// Liberty `switch_cell_type` is coarse_grain.
    pub switch: bool,
}

/// A cell (Liberty `cell`).
#[derive(Drop)]
pub struct Cell {
    /// The cell's name.
    pub name: NameId,
    /// The area in millionths of the library's unit, at most 10^12; 0 where it is missing.
    pub area: u64,
    /// The power and ground pins, at most 8 in a usable cell, in the order of the text.
    pub pgs: Items<PgPin>,
    /// The signal pins, at most 240 in a usable cell, in the order of the text.
    pub pins: Items<Pin>,
    /// The state, if the cell has one.
    pub state: Option<StateGroup>,
    /// What the cell is for.
    pub roles: Roles,
    /// Why the cell cannot be used; none for a usable cell.
    pub unusable: Option<Reason>,
}

/// All cells, in the order of the files and of their texts (Liberty `library`).
#[derive(Drop)]
pub struct Library {
    /// The cells, whose names differ.
    pub cells: Items<Cell>,
}
