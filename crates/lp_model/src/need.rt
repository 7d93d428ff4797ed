use crate::ids::CellId;
use crate::library::Action;
use crate::supply::SetOrigins;
use lp_expr::Expr;
use lp_text::NameId;
use sqlite_items::Items;

/// What a clamp has to be.
#[derive(Drop)]
pub struct IsoNeed {
    /// The names of the cells that may be taken; none where each may be.
    pub list: Option<Items<NameId>>,
    /// Its supply.
    pub supply: SetOrigins,
    /// The primary supply of the domain in which it stands.
    pub place: SetOrigins,
    /// Whether it holds the value at 1, else at 0.
    pub clamp: bool,
    /// Whether its control is active where it is 1, else where it is 0.
    pub high: bool,
}

/// The voltages of a shifter's supplies in one choice of a row, in microvolts, each at most 10^12.
#[derive(Clone, Copy)]
pub struct VoltagePair {
    /// Of the supply of its data.
    pub input: u64,
    /// Of the supply of its output.
    pub output: u64,
}

/// What a level shifter has to be.
#[derive(Drop)]
pub struct ShiftNeed {
    /// The names of the cells that may be taken; none where each may be.
    pub list: Option<Items<NameId>>,
    /// The voltages of every choice of a row in which both roots are on, each pair once.
    pub pairs: Items<VoltagePair>,
    /// The difference up to which a reader takes the value of a lower driver, in microvolts, at most 10^12.
    pub margin: u64,
    /// The supply of its data.
    pub input: SetOrigins,
    /// The supply of its output.
    pub output: SetOrigins,
}

/// What a retention register has to be.
#[derive(Drop)]
pub struct RetNeed {
    /// The names of the cells that may be taken; none where each may be.
    pub list: Option<Items<NameId>>,
    /// The cell whose place it takes.
    pub source: CellId,
    /// The primary supply of its domain.
    pub primary: SetOrigins,
    /// The supply of its copy.
    pub retention: SetOrigins,
    /// When it saves.
    pub save: Action,
    /// When it restores.
    pub restore: Action,
    /// Whether one net bit saves and restores.
    pub one_signal: bool,
}

/// What a switch cell has to be.
#[derive(Drop)]
pub struct SwitchNeed {
    /// The names of the cells that may be taken; none where each may be.
    pub list: Option<Items<NameId>>,
    /// The switch is on where this is 1; it has exactly one variable, the control.
    pub on: Expr,
}
