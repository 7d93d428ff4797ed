//! The commands and options that are read, as tables (IEEE 1801-2015, clause 6; the subset is an own rule).
ghost use Rattle.std.specs.Prelude.{◌≡◌, map};
ghost use Rattle.lp_model.specs.declared.upf.CommandWord.TheVariants.{AddPstState};
ghost use Rattle.lp_spec_upf.specs.Commands.{row_rules};
ghost use Rattle.lp_spec_upf.specs.Shapes.{shape_of};
ghost use Rattle.lp_upf.specs.Tables.{name_rule_of, rule_view};

use lp_model::{CommandWord, OptionWord};

/// Some words, of which a value or an element is one.
#[derive(Clone, Copy)]
pub(crate) enum Choice {
    /// The handles of a domain.
    Handles,
    /// The functions of a supply set.
    Functions,
    /// The senses of a retention signal.
    Senses,
    /// The senses of an isolation signal.
    Levels,
    /// The directions of a supply port.
    Directions,
    /// The ports to which a strategy applies.
    Sides,
    /// The places of an inserted cell.
    Locations,
    /// Yes and no.
    Truth,
    /// The rules of a level shifter.
    Shifts,
}

/// What an element of a list is.
#[derive(Clone, Copy)]
pub(crate) enum Element {
    /// Any name.
    Any,
    /// Any text.
    Text,
    /// One of some words.
    Among(Choice),
    /// A voltage.
    Voltage,
}

/// Which elements a list has from here on.
#[derive(Clone, Copy)]
pub(crate) enum Form {
    /// None.
    Closed,
    /// Any number of names.
    Rest,
    /// One.
    One(Element),
    /// Two.
    Two(Element, Element),
    /// So many names.
    Names(usize),
    /// Two names and a text.
    Expression,
    /// A name, and the voltages of a port state.
    PortState,
    /// The word `off`, or a voltage or three.
    Voltages,
    /// None, or two voltages more.
    Greater,
}

/// What stands behind the word of an option.
#[derive(Clone, Copy)]
pub(crate) enum Value {
    /// Nothing.
    Flag,
    /// A name.
    Name,
    /// One of some words.
    OneOf(Choice),
    /// 0 or 1.
    Clamp,
    /// One voltage.
    Threshold,
    /// A list.
    Listed(Form),
}

/// Whether a command must have an option.
#[derive(Clone, Copy)]
pub(crate) enum Need {
    /// It need not.
    Free,
    /// It must.
    Always,
    /// It must where it does not have this one.
    Unless(OptionWord),
}

/// What stands behind the word of a command.
#[derive(Clone, Copy)]
pub(crate) enum NameRule {
    /// Options alone.
    NoName,
    /// A name or none.
    MayName,
    /// A name.
    OneName,
    /// A list of names.
    NameList,
}

/// An option that a command may have.
#[derive(Clone, Copy)]
pub(crate) struct Rule {
    /// Its value.
    pub value: Value,
    /// Whether the command must have it.
    pub need: Need,
    /// Its word.
    pub word: OptionWord,
    /// Whether its word may go with `_set` behind it.
    pub twin: bool,
    /// Whether it may stand more than once.
    pub repeats: bool,
}

/// An option that a command may have once.
macro_rules! rule {
    ($word:ident, $value:expr, $need:expr) => {
        Rule {
            value: $value,
            need: $need,
            word: OptionWord::$word,
            twin: false,
            repeats: false,
        }
    };
}

/// An option that a command may have once, or need not.
macro_rules! free {
    ($word:ident, $value:expr) => {
        rule!($word, $value, Need::Free)
    };
}

/// An option that a command must have once.
macro_rules! needed {
    ($word:ident, $value:expr) => {
        rule!($word, $value, Need::Always)
    };
}

/// An option that a command may have more than once.
macro_rules! repeated {
    ($word:ident, $value:expr, $need:expr) => {
        Rule {
            value: $value,
            need: $need,
            word: OptionWord::$word,
            twin: false,
            repeats: true,
        }
    };
}

/// A supply, whose word may go with `_set` behind it.
macro_rules! supply {
    ($word:ident) => {
        Rule {
            value: Value::Name,
            need: Need::Free,
            word: OptionWord::$word,
            twin: true,
            repeats: false,
        }
    };
}

static DOMAIN: [Rule; 3] = [
    free!(Elements, Value::Listed(Form::Rest)),
    free!(IncludeScope, Value::Flag),
    repeated!(
        Supply,
        Value::Listed(Form::Two(Element::Among(Choice::Handles), Element::Any)),
        Need::Free
    ),
];

static SUPPLY_PORT: [Rule; 2] = [
    free!(Domain, Value::Name),
    free!(Direction, Value::OneOf(Choice::Directions)),
];

static SUPPLY_NET: [Rule; 2] = [free!(Domain, Value::Name), free!(Reuse, Value::Flag)];

static CONNECTION: [Rule; 1] = [needed!(Ports, Value::Listed(Form::Rest))];

static SUPPLY_SET: [Rule; 1] = [repeated!(
    Function,
    Value::Listed(Form::Two(Element::Among(Choice::Functions), Element::Any)),
    Need::Free
)];

static ASSOCIATION: [Rule; 1] = [needed!(Handle, Value::Name)];

static DOMAIN_NET: [Rule; 2] = [
    needed!(PrimaryPowerNet, Value::Name),
    needed!(PrimaryGroundNet, Value::Name),
];

static PORT_STATE: [Rule; 1] = [repeated!(State, Value::Listed(Form::PortState), Need::Always)];

static STATE_TABLE: [Rule; 1] = [needed!(Supplies, Value::Listed(Form::Rest))];

static TABLE_ROW: [Rule; 2] = [
    needed!(Pst, Value::Name),
    needed!(State, Value::Listed(Form::Rest)),
];

static PORT_ATTRIBUTE: [Rule; 3] = [
    needed!(Ports, Value::Listed(Form::Rest)),
    free!(DriverSupply, Value::Name),
    free!(ReceiverSupply, Value::Name),
];

static SWITCH: [Rule; 6] = [
    free!(Domain, Value::Name),
    needed!(
        InputSupplyPort,
        Value::Listed(Form::Two(Element::Any, Element::Any))
    ),
    needed!(
        OutputSupplyPort,
        Value::Listed(Form::Two(Element::Any, Element::Any))
    ),
    needed!(
        ControlPort,
        Value::Listed(Form::Two(Element::Any, Element::Any))
    ),
    needed!(OnState, Value::Listed(Form::Expression)),
    free!(
        OffState,
        Value::Listed(Form::Two(Element::Any, Element::Text))
    ),
];

static ISOLATION: [Rule; 13] = [
    needed!(Domain, Value::Name),
    free!(Elements, Value::Listed(Form::Rest)),
    free!(ExcludeElements, Value::Listed(Form::Rest)),
    free!(Source, Value::Name),
    free!(Sink, Value::Name),
    free!(AppliesTo, Value::OneOf(Choice::Sides)),
    free!(Location, Value::OneOf(Choice::Locations)),
    free!(DiffSupplyOnly, Value::OneOf(Choice::Truth)),
    free!(NoIsolation, Value::Flag),
    free!(ClampValue, Value::Clamp),
    rule!(
        IsolationSignal,
        Value::Name,
        Need::Unless(OptionWord::NoIsolation)
    ),
    free!(IsolationSense, Value::OneOf(Choice::Levels)),
    supply!(IsolationSupply),
];

static SHIFTER: [Rule; 12] = [
    needed!(Domain, Value::Name),
    free!(Elements, Value::Listed(Form::Rest)),
    free!(ExcludeElements, Value::Listed(Form::Rest)),
    free!(Source, Value::Name),
    free!(Sink, Value::Name),
    free!(AppliesTo, Value::OneOf(Choice::Sides)),
    free!(Location, Value::OneOf(Choice::Locations)),
    free!(Rule, Value::OneOf(Choice::Shifts)),
    free!(Threshold, Value::Threshold),
    free!(NoShift, Value::Flag),
    supply!(InputSupply),
    supply!(OutputSupply),
];

static RETENTION: [Rule; 7] = [
    needed!(Domain, Value::Name),
    free!(Elements, Value::Listed(Form::Rest)),
    free!(ExcludeElements, Value::Listed(Form::Rest)),
    rule!(
        SaveSignal,
        Value::Listed(Form::Two(Element::Any, Element::Among(Choice::Senses))),
        Need::Unless(OptionWord::NoRetention)
    ),
    rule!(
        RestoreSignal,
        Value::Listed(Form::Two(Element::Any, Element::Among(Choice::Senses))),
        Need::Unless(OptionWord::NoRetention)
    ),
    supply!(RetentionSupply),
    free!(NoRetention, Value::Flag),
];

static INTERFACE_CELL: [Rule; 3] = [
    needed!(Strategy, Value::Listed(Form::Rest)),
    needed!(Domain, Value::Name),
    needed!(LibCells, Value::Listed(Form::Rest)),
];

static RETENTION_CELL: [Rule; 2] = [
    needed!(Domain, Value::Name),
    needed!(LibCells, Value::Listed(Form::Rest)),
];

static SWITCH_CELL: [Rule; 2] = [
    free!(Domain, Value::Name),
    needed!(LibCells, Value::Listed(Form::Rest)),
];

/// The options of a command, in the order of its table.
pub(crate) fn rules_of(word: CommandWord) -> &'static [Rule]
    ensures { map rule_view result.now ≡ (shape_of word).rules }
{
    match word {
        CommandWord::UpfVersion | CommandWord::SetDesignTop | CommandWord::SetScope => &[],
        CommandWord::CreatePowerDomain => &DOMAIN,
        CommandWord::CreateSupplyPort => &SUPPLY_PORT,
        CommandWord::CreateSupplyNet => &SUPPLY_NET,
        CommandWord::ConnectSupplyNet => &CONNECTION,
        CommandWord::CreateSupplySet => &SUPPLY_SET,
        CommandWord::AssociateSupplySet => &ASSOCIATION,
        CommandWord::SetDomainSupplyNet => &DOMAIN_NET,
        CommandWord::AddPortState => &PORT_STATE,
        CommandWord::CreatePst => &STATE_TABLE,
        CommandWord::AddPstState => &TABLE_ROW,
        CommandWord::SetPortAttributes => &PORT_ATTRIBUTE,
        CommandWord::CreatePowerSwitch => &SWITCH,
        CommandWord::SetIsolation => &ISOLATION,
        CommandWord::SetLevelShifter => &SHIFTER,
        CommandWord::SetRetention => &RETENTION,
        CommandWord::UseInterfaceCell => &INTERFACE_CELL,
        CommandWord::MapRetentionCell => &RETENTION_CELL,
        CommandWord::MapPowerSwitch => &SWITCH_CELL,
    }
}

/// The options of a row of a table with so many supplies.
pub(crate) fn row_rules(supplies: usize) -> [Rule; 2]
    ensures { map rule_view result ≡ row_rules (Some supplies) (shape_of AddPstState).rules }
{
    [
        needed!(Pst, Value::Name),
        needed!(State, Value::Listed(Form::Names(supplies))),
    ]
}

/// What stands behind the word of a command.
pub(crate) fn name_rule_of(word: CommandWord) -> NameRule
    ensures { name_rule_of result ≡ (shape_of word).name }
{
    match word {
        CommandWord::UpfVersion => NameRule::MayName,
        CommandWord::SetPortAttributes => NameRule::NoName,
        CommandWord::MapRetentionCell | CommandWord::MapPowerSwitch => NameRule::NameList,
        _ => NameRule::OneName,
    }
}
