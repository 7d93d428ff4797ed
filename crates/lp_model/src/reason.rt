ghost use Rattle.std.specs.Prelude.{◌≡◌};
ghost use Rattle.lp_model.specs.Reasons.{reason_word};

/// Why a cell of a library cannot be used (own rule). A cell keeps the first of these that holds.
#[derive(Clone, Copy)]
pub enum Reason {
    /// The cell's name or a pin's name is empty or not visible ASCII, or the cell's begins with `lp_`.
    Name,
    /// Two pins or pg_pins share a name.
    Twice,
    /// An unknown pg_type, more than 8 pg_pins, no primary_power, or no primary_ground outside a switch cell.
    Pg,
    /// A pin without direction, or with another than input and output.
    Direction,
    /// A related pin is missing, or names no pg_pin, a bias pin or a pg_pin of the other kind.
    Related,
    /// An output without a function, or an expression that does not read, has a name that it may not have or, of a
    /// switched pg_pin, is another than one pg_pin.
    Function,
    /// A voltage range that does not read.
    Range,
    /// Two state groups.
    Groups,
    /// A retention cell without a copy function, or a retention pin without the actions of its class.
    Retention,
    /// A construct that is not read (a state table, buses, bundles, three-state outputs, banks, conditions of
    /// retention), or more than 240 pins.
    Construct,
}

impl Reason {
    /// The word that stands for it in a fault's line.
    pub fn word(self) -> &'static str
        ensures { result.now ≡ reason_word self }
    {
        match self {
            Reason::Name => "name",
            Reason::Twice => "twice",
            Reason::Pg => "pg",
            Reason::Direction => "direction",
            Reason::Related => "related",
            Reason::Function => "function",
            Reason::Range => "range",
            Reason::Groups => "groups",
            Reason::Retention => "retention",
            Reason::Construct => "construct",
        }
    }
}
