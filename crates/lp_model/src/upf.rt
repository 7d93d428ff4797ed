use lp_text::{NameId, Place};
use sqlite_items::Items;

/// How a word is written (IEEE 1801-2015, Tcl words).
#[derive(Clone, Copy)]
pub enum WordForm {
    /// Without braces or quotes.
    Bare,
    /// In braces.
    Braces,
    /// In quotes.
    Quotes,
}

/// A word of a UPF text. It takes 16 bytes.
#[derive(Clone, Copy)]
pub struct UpfWord {
    /// What it says, without its braces or quotes.
    pub name: NameId,
    /// The place of its first byte.
    pub place: Place,
    /// How it is written.
    pub form: WordForm,
}

/// A UPF text as words (IEEE 1801-2015, Tcl syntax).
#[derive(Drop)]
pub struct WordList {
    /// The words of each command.
    pub commands: Items<Items<UpfWord>>,
}

/// The word of a command (IEEE 1801-2015, the commands that are read).
#[derive(Clone, Copy)]
pub enum CommandWord {
    /// upf_version
    UpfVersion,
    /// set_design_top
    SetDesignTop,
    /// set_scope
    SetScope,
    /// create_power_domain
    CreatePowerDomain,
    /// create_supply_port
    CreateSupplyPort,
    /// create_supply_net
    CreateSupplyNet,
    /// connect_supply_net
    ConnectSupplyNet,
    /// create_supply_set
    CreateSupplySet,
    /// associate_supply_set
    AssociateSupplySet,
    /// set_domain_supply_net
    SetDomainSupplyNet,
    /// add_port_state
    AddPortState,
    /// create_pst
    CreatePst,
    /// add_pst_state
    AddPstState,
    /// set_port_attributes
    SetPortAttributes,
    /// create_power_switch
    CreatePowerSwitch,
    /// set_isolation
    SetIsolation,
    /// set_level_shifter
    SetLevelShifter,
    /// set_retention
    SetRetention,
    /// use_interface_cell
    UseInterfaceCell,
    /// map_retention_cell
    MapRetentionCell,
    /// map_power_switch
    MapPowerSwitch,
}

/// The word of an option. An option whose word also goes with `_set` behind it is one option.
#[derive(Clone, Copy)]
pub enum OptionWord {
    /// -elements
    Elements,
    /// -include_scope
    IncludeScope,
    /// -supply
    Supply,
    /// -domain
    Domain,
    /// -direction
    Direction,
    /// -reuse
    Reuse,
    /// -ports
    Ports,
    /// -function
    Function,
    /// -handle
    Handle,
    /// -primary_power_net
    PrimaryPowerNet,
    /// -primary_ground_net
    PrimaryGroundNet,
    /// -state
    State,
    /// -supplies
    Supplies,
    /// -pst
    Pst,
    /// -driver_supply
    DriverSupply,
    /// -receiver_supply
    ReceiverSupply,
    /// -input_supply_port
    InputSupplyPort,
    /// -output_supply_port
    OutputSupplyPort,
    /// -control_port
    ControlPort,
    /// -on_state
    OnState,
    /// -off_state
    OffState,
    /// -exclude_elements
    ExcludeElements,
    /// -source
    Source,
    /// -sink
    Sink,
    /// -diff_supply_only
    DiffSupplyOnly,
    /// -applies_to
    AppliesTo,
    /// -no_isolation
    NoIsolation,
    /// -location
    Location,
    /// -clamp_value
    ClampValue,
    /// -isolation_signal
    IsolationSignal,
    /// -isolation_sense
    IsolationSense,
    /// -isolation_supply
    IsolationSupply,
    /// -rule
    Rule,
    /// -threshold
    Threshold,
    /// -no_shift
    NoShift,
    /// -input_supply
    InputSupply,
    /// -output_supply
    OutputSupply,
    /// -save_signal
    SaveSignal,
    /// -restore_signal
    RestoreSignal,
    /// -retention_supply
    RetentionSupply,
    /// -no_retention
    NoRetention,
    /// -strategy
    Strategy,
    /// -lib_cells
    LibCells,
}

/// An option of a command.
#[derive(Drop)]
pub struct CommandOption {
    /// The words of its value; a list is split into its words.
    pub values: Items<UpfWord>,
    /// The place of its word.
    pub place: Place,
    /// Its word.
    pub word: OptionWord,
    /// Of `-on_state`, whether the switch is on where the control is 1, else where it is 0; none of other options.
    pub high: Option<bool>,
}

/// A command of a UPF text.
#[derive(Drop)]
pub struct Command {
    /// The place of its first word.
    pub place: Place,
    /// Its first word.
    pub word: CommandWord,
    /// The name behind it, if any.
    pub name: Option<UpfWord>,
    /// Its options, in the order of the text.
    pub options: Items<CommandOption>,
}

/// A command, or an end of a file that is loaded (IEEE 1801-2015 load_upf).
#[derive(Drop)]
pub enum CommandItem {
    /// A command.
    Command(Command),
    /// A file begins. The k-th of these, from 1, begins the k-th loaded file.
    Enter {
        /// The place of the load's first word.
        place: Place,
        /// The scope that it sets; where there is none the scope stays.
        scope: Option<NameId>,
    },
    /// The file ends, and the scope is again what it was before.
    Leave,
}

/// The commands of a UPF text, with those of the files that it loads in their places.
#[derive(Drop)]
pub struct Commands {
    /// The commands, in the order in which they are done. Each end of a file has its own beginning before it.
    pub items: Items<CommandItem>,
}
