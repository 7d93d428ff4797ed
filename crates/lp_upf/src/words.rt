//! The words of commands and options.
ghost use Rattle.std.specs.Prelude.{◌≡◌, ◌++◌, codes, bytes_eq, map};
ghost use Rattle.std.specs.List.{list_all};
ghost use Rattle.std.specs.Option.{option_map};
ghost use Rattle.lp_model.specs.CommandsView.{command_text, option_text};
ghost use Rattle.lp_spec_upf.specs.Commands.{command_in, is_among, is_name, is_visible, is_word_of, rule_of};
ghost use Rattle.lp_spec_upf.specs.Shapes.{all_commands};
ghost use Rattle.lp_upf.specs.Tables.{rule_view, words_of};

use crate::tables::{Choice, Rule};
use lp_model::{CommandWord, OptionWord};

static COMMANDS: [CommandWord; 21] = [
    CommandWord::UpfVersion,
    CommandWord::SetDesignTop,
    CommandWord::SetScope,
    CommandWord::CreatePowerDomain,
    CommandWord::CreateSupplyPort,
    CommandWord::CreateSupplyNet,
    CommandWord::ConnectSupplyNet,
    CommandWord::CreateSupplySet,
    CommandWord::AssociateSupplySet,
    CommandWord::SetDomainSupplyNet,
    CommandWord::AddPortState,
    CommandWord::CreatePst,
    CommandWord::AddPstState,
    CommandWord::SetPortAttributes,
    CommandWord::CreatePowerSwitch,
    CommandWord::SetIsolation,
    CommandWord::SetLevelShifter,
    CommandWord::SetRetention,
    CommandWord::UseInterfaceCell,
    CommandWord::MapRetentionCell,
    CommandWord::MapPowerSwitch,
];

static HANDLES: [&[u8]; 3] = [b"primary", b"default_isolation", b"default_retention"];

static FUNCTIONS: [&[u8]; 6] = [
    b"power",
    b"ground",
    b"nwell",
    b"pwell",
    b"deepnwell",
    b"deeppwell",
];

static SENSES: [&[u8]; 4] = [b"high", b"low", b"posedge", b"negedge"];

static LEVELS: [&[u8]; 2] = [b"high", b"low"];

static DIRECTIONS: [&[u8]; 2] = [b"in", b"out"];

static SIDES: [&[u8]; 3] = [b"inputs", b"outputs", b"both"];

static LOCATIONS: [&[u8]; 3] = [b"self", b"parent", b"automatic"];

static TRUTH: [&[u8]; 2] = [b"TRUE", b"FALSE"];

static SHIFTS: [&[u8]; 3] = [b"low_to_high", b"high_to_low", b"both"];

/// The word of a command.
fn command_text(word: CommandWord) -> &'static [u8]
    ensures { result.now ≡ command_text word }
{
    match word {
        CommandWord::UpfVersion => b"upf_version",
        CommandWord::SetDesignTop => b"set_design_top",
        CommandWord::SetScope => b"set_scope",
        CommandWord::CreatePowerDomain => b"create_power_domain",
        CommandWord::CreateSupplyPort => b"create_supply_port",
        CommandWord::CreateSupplyNet => b"create_supply_net",
        CommandWord::ConnectSupplyNet => b"connect_supply_net",
        CommandWord::CreateSupplySet => b"create_supply_set",
        CommandWord::AssociateSupplySet => b"associate_supply_set",
        CommandWord::SetDomainSupplyNet => b"set_domain_supply_net",
        CommandWord::AddPortState => b"add_port_state",
        CommandWord::CreatePst => b"create_pst",
        CommandWord::AddPstState => b"add_pst_state",
        CommandWord::SetPortAttributes => b"set_port_attributes",
        CommandWord::CreatePowerSwitch => b"create_power_switch",
        CommandWord::SetIsolation => b"set_isolation",
        CommandWord::SetLevelShifter => b"set_level_shifter",
        CommandWord::SetRetention => b"set_retention",
        CommandWord::UseInterfaceCell => b"use_interface_cell",
        CommandWord::MapRetentionCell => b"map_retention_cell",
        CommandWord::MapPowerSwitch => b"map_power_switch",
    }
}

/// The word of an option, in its shortest spelling.
pub(crate) fn option_text(word: OptionWord) -> &'static [u8]
    ensures { result.now ≡ option_text word }
{
    match word {
        OptionWord::Elements => b"-elements",
        OptionWord::IncludeScope => b"-include_scope",
        OptionWord::Supply => b"-supply",
        OptionWord::Domain => b"-domain",
        OptionWord::Direction => b"-direction",
        OptionWord::Reuse => b"-reuse",
        OptionWord::Ports => b"-ports",
        OptionWord::Function => b"-function",
        OptionWord::Handle => b"-handle",
        OptionWord::PrimaryPowerNet => b"-primary_power_net",
        OptionWord::PrimaryGroundNet => b"-primary_ground_net",
        OptionWord::State => b"-state",
        OptionWord::Supplies => b"-supplies",
        OptionWord::Pst => b"-pst",
        OptionWord::DriverSupply => b"-driver_supply",
        OptionWord::ReceiverSupply => b"-receiver_supply",
        OptionWord::InputSupplyPort => b"-input_supply_port",
        OptionWord::OutputSupplyPort => b"-output_supply_port",
        OptionWord::ControlPort => b"-control_port",
        OptionWord::OnState => b"-on_state",
        OptionWord::OffState => b"-off_state",
        OptionWord::ExcludeElements => b"-exclude_elements",
        OptionWord::Source => b"-source",
        OptionWord::Sink => b"-sink",
        OptionWord::DiffSupplyOnly => b"-diff_supply_only",
        OptionWord::AppliesTo => b"-applies_to",
        OptionWord::NoIsolation => b"-no_isolation",
        OptionWord::Location => b"-location",
        OptionWord::ClampValue => b"-clamp_value",
        OptionWord::IsolationSignal => b"-isolation_signal",
        OptionWord::IsolationSense => b"-isolation_sense",
        OptionWord::IsolationSupply => b"-isolation_supply",
        OptionWord::Rule => b"-rule",
        OptionWord::Threshold => b"-threshold",
        OptionWord::NoShift => b"-no_shift",
        OptionWord::InputSupply => b"-input_supply",
        OptionWord::OutputSupply => b"-output_supply",
        OptionWord::SaveSignal => b"-save_signal",
        OptionWord::RestoreSignal => b"-restore_signal",
        OptionWord::RetentionSupply => b"-retention_supply",
        OptionWord::NoRetention => b"-no_retention",
        OptionWord::Strategy => b"-strategy",
        OptionWord::LibCells => b"-lib_cells",
    }
}

/// The command of these with this word.
fn command_in(words: &[CommandWord], text: &[u8]) -> Option<CommandWord>
    ensures { result ≡ command_in words.now text.now }
{
    for word in words {
        if command_text(*word) == text {
            return Some(*word);
        }
    }
    None
}

/// The command with this word.
pub(crate) fn command_of(text: &[u8]) -> Option<CommandWord>
    ensures { result ≡ command_in all_commands text.now }
{
    command_in(&COMMANDS, text)
}

/// These words.
fn words_of(choice: Choice) -> &'static [&'static [u8]]
    ensures { map (λ w. w.now) result.now ≡ words_of choice }
{
    match choice {
        Choice::Handles => &HANDLES,
        Choice::Functions => &FUNCTIONS,
        Choice::Senses => &SENSES,
        Choice::Levels => &LEVELS,
        Choice::Directions => &DIRECTIONS,
        Choice::Sides => &SIDES,
        Choice::Locations => &LOCATIONS,
        Choice::Truth => &TRUTH,
        Choice::Shifts => &SHIFTS,
    }
}

fn is_among(words: &[&[u8]], text: &[u8]) -> bool
    ensures { result ≡ is_among (map (λ w. w.now) words.now) text.now }
{
    for word in words {
        if *word == text {
            return true;
        }
    }
    false
}

/// Whether a text is one of these words.
pub(crate) fn is_one_of(choice: Choice, text: &[u8]) -> bool
    ensures { result ≡ is_among (words_of choice) text.now }
{
    is_among(words_of(choice), text)
}

/// Whether all bytes are ASCII that is printed.
fn are_visible(text: &[u8]) -> bool
    ensures { result ≡ list_all is_visible text.now }
{
    for byte in text {
        if *byte < 33 || *byte > 126 {
            return false;
        }
    }
    true
}

/// Whether a text is a name: not empty, and ASCII that is printed.
pub(crate) fn is_name(text: &[u8]) -> bool
    ensures { result ≡ is_name text.now }
{
    !text.is_empty() && are_visible(text)
}

/// Whether a text is this one with `_set` behind it.
fn is_twin(own: &[u8], text: &[u8]) -> bool
    ensures { result ≡ bytes_eq (own.now ++ codes "_set") text.now }
{
    text.starts_with(own) && b"_set".as_slice() == &text[own.len()..]
}

/// Whether a text is a word of this option.
fn is_word_of(rule: Rule, text: &[u8]) -> bool
    ensures { result ≡ is_word_of (rule_view rule) text.now }
{
    let own = option_text(rule.word);
    own == text || rule.twin && is_twin(own, text)
}

/// The option with this word.
pub(crate) fn rule_of(rules: &[Rule], text: &[u8]) -> Option<Rule>
    ensures { option_map rule_view result ≡ rule_of (map rule_view rules.now) text.now }
{
    for rule in rules {
        if is_word_of(*rule, text) {
            return Some(*rule);
        }
    }
    None
}
