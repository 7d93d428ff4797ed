//! The expressions of a switch: the on expression is the control or its complement, the off expression the other.
ghost use Rattle.std.specs.Prelude.{◌≡◌, ◌<◌, [], ◌∷◌, ℕ, List, length, map, true, IfOk, if◌then◌else◌};
ghost use Rattle.std.specs.List.{flat_map, list_all};
ghost use Rattle.lp_model.specs.Agreement.{numbers_below};
ghost use Rattle.lp_model.specs.CommandsView.{command_option_numbers, line_numbers, line_view, name_view, option_view};
ghost use Rattle.lp_spec_upf.specs.Commands.{Part, Sense, Unsupported, agrees, is_fit, judged_by, last_word, name_in, sensed_as};
ghost use Rattle.lp_spec_upf.specs.Commands as spec;
ghost use Rattle.lp_spec_upf.specs.Intent.{IsSense};
ghost use Rattle.lp_model.specs.CommandsView as view;
ghost use Rattle.lp_model.specs.declared.upf.OptionWord.TheVariants as words;
ghost use Rattle.lp_upf.specs.Controls.{IsOnSense, IsSenseAt, IsSensed, has_short, is_expression};
ghost use Rattle.lp_upf.specs.Faults.{faults_view, first_numbers, joined, judged};
ghost use Rattle.lp_upf.specs.Options.{options_numbers, options_view, read_of};

use crate::fault::{CommandFault, Faults};
use crate::named::name_in;
use crate::options::Options;
use crate::sense::sense_of;
use lp_model::{CommandOption, OptionWord, UpfWord};
use lp_text::{LIMIT, NameId, Names, NoMemory};
use sqlite_items::Items;
use std::alloc::Global;

/// An option with its sense.
#[derive(Drop)]
struct Sensed {
    /// The option.
    option: CommandOption,
    /// The fault of its expression, if it has one.
    faults: Faults,
}

/// Whether an option has an expression.
fn is_expression(word: OptionWord) -> bool
    ensures { result ≡ is_expression word }
{
    matches!(word, OptionWord::OnState | OptionWord::OffState)
}

/// The text of the last word of a value, empty where it has none.
fn last_text<'a>(names: &'a Names, values: &[UpfWord]) -> &'a str
    requires { numbers_below (length names.now) (line_numbers values.now) ≡ true }
    ensures { result.now ≡ last_word (line_view names.now values.now) }
{
    if values.is_empty() {
        return "";
    }
    names.text(values[values.len() - 1].name)
}

/// Which of the two the expression of an option is, the control or its complement; none where it is neither.
fn sense_at(
    alloc: Global,
    names: &Names,
    control: NameId,
    option: &CommandOption,
) -> Result<Option<bool>, NoMemory>
    requires control { control.0 < length names.now }
    requires below { numbers_below (length names.now) (command_option_numbers option.now) ≡ true }
    requires short { has_short (option_view names.now option.now) ≡ true }
    ensures { IfOk result (IsSenseAt (option_view names.now option.now) (name_view names.now control)) }
{
    if !is_expression(option.word) {
        return Ok(None);
    }
    let text = last_text(names, option.values.as_slice());
    if text.len() > LIMIT {
        return Ok(None);
    }
    sense_of(alloc, text, names.text(control).as_bytes())
}

/// Which of the two the first on expression is.
fn on_sense(
    alloc: Global,
    names: &Names,
    control: NameId,
    options: &[CommandOption],
) -> Result<Option<bool>, NoMemory>
    requires control { control.0 < length names.now }
    requires below { numbers_below (length names.now) (flat_map command_option_numbers options.now) ≡ true }
    requires short { list_all has_short (map (option_view names.now) options.now) ≡ true }
    ensures { IfOk result (IsOnSense (map (option_view names.now) options.now) (name_view names.now control)) }
{
    for option in options {
        if matches!(option.word, OptionWord::OnState) {
            return sense_at(alloc, names, control, option);
        }
    }
    Ok(None)
}

/// Whether an off expression is the complement of the on expression, if that has a sense.
fn agrees(on: Option<bool>, high: bool) -> bool
    ensures { result ≡ agrees on high }
{
    match on {
        None => true,
        Some(on) => on != high,
    }
}

/// Whether the sense of an option is right.
fn is_fit(word: OptionWord, on: Option<bool>, high: Option<bool>) -> bool
    ensures { result ≡ is_fit word on high }
{
    match (word, high) {
        (OptionWord::OnState | OptionWord::OffState, None) => false,
        (OptionWord::OffState, Some(high)) => agrees(on, high),
        _ => true,
    }
}

/// The fault of an option whose expression is not right.
fn expression_faults(option: &CommandOption, on: Option<bool>, high: Option<bool>) -> Faults
    ensures value { (names : List (List ℕ)) → faults_view names result ≡ judged (if is_fit option.now.word on high then [] else Unsupported option.now.place (view.option_text option.now.word) ∷ []) }
    ensures numbers { first_numbers result.first ≡ [] }
{
    if is_fit(option.word, on, high) {
        Faults::none()
    } else {
        Faults::of(CommandFault::Expression(option.place, option.word))
    }
}

/// The sense that an option keeps.
fn sensed_as(word: OptionWord, high: Option<bool>) -> Option<bool>
    ensures { result ≡ sensed_as word high }
{
    match word {
        OptionWord::OnState => high,
        _ => None,
    }
}

/// An option with its sense, and its fault.
fn with_sense(
    alloc: Global,
    names: &Names,
    control: NameId,
    on: Option<bool>,
    option: &CommandOption,
) -> Result<Sensed, NoMemory>
    requires control { control.0 < length names.now }
    requires below { numbers_below (length names.now) (command_option_numbers option.now) ≡ true }
    requires short { has_short (option_view names.now option.now) ≡ true }
    ensures value { IfOk result (IsSensed names.now on (name_view names.now control) (option_view names.now option.now)) }
    ensures values { IfOk result (λ r. r.option.values ≡ option.now.values) }
    ensures numbers { IfOk result (λ r. first_numbers r.faults.first ≡ []) }
{
    let high = sense_at(alloc, names, control, option)?;
    let values = Items::from_slice(alloc, option.values.as_slice())?;
    Ok(Sensed {
        option: CommandOption {
            values,
            place: option.place,
            word: option.word,
            high: sensed_as(option.word, high),
        },
        faults: expression_faults(option, on, high),
    })
}

/// The options of a switch with their senses, and its faults.
fn all_sensed(
    alloc: Global,
    names: &Names,
    control: NameId,
    on: Option<bool>,
    read: &Options,
) -> Result<Options, NoMemory>
    requires control { control.0 < length names.now }
    requires below { numbers_below (length names.now) (options_numbers read.now) ≡ true }
    requires short { list_all has_short (options_view names.now read.now).options ≡ true }
    ensures options { IfOk result (λ o. (s : Sense) → IsSense s → (options_view names.now o).options ≡ spec.sensed s.of (name_view names.now control) (options_view names.now read.now).options) }
    ensures faults { IfOk result (λ o. (s : Sense) → IsSense s → faults_view names.now o.faults ≡ joined (faults_view names.now read.now.faults) (judged (spec.expression_faults s.of (name_view names.now control) on (options_view names.now read.now).options))) }
    ensures whole { IfOk result (λ o. o.whole ≡ read.now.whole) }
    ensures below { IfOk result (λ o. numbers_below (length names.now) (options_numbers o) ≡ true) }
{
    let mut options = Items::new(alloc);
    let mut faults = read.faults;
    for option in read.options.as_slice() {
        let judged = with_sense(alloc, names, control, on, option)?;
        options.push(judged.option)?;
        faults = faults.joined(judged.faults);
    }
    Ok(Options {
        options,
        faults,
        whole: read.whole,
    })
}

/// The options of a command, where those of a switch have the senses of their expressions.
pub(crate) fn judged_by(alloc: Global, names: &Names, read: Options) -> Result<Options, NoMemory>
    requires below { numbers_below (length names.now) (options_numbers read) ≡ true }
    requires short { list_all has_short (options_view names.now read).options ≡ true }
    ensures value { IfOk result (λ o. (s : Sense) → IsSense s → (p : Part) → options_view names.now read ≡ read_of p → options_view names.now o ≡ read_of (judged_by s.of (name_in p.options words.ControlPort) p)) }
    ensures below { IfOk result (λ o. numbers_below (length names.now) (options_numbers o) ≡ true) }
{
    match name_in(read.options.as_slice(), OptionWord::ControlPort) {
        None => Ok(read),
        Some(control) => {
            let on = on_sense(alloc, names, control, read.options.as_slice())?;
            all_sensed(alloc, names, control, on, &read)
        }
    }
}
