//! The options of a command, which are read word by word.
ghost use Rattle.std.specs.Prelude.{not, ◌&&◌, ◌≡◌, ◌<◌, ◌≤◌, ◌+◌, ◌^◌, ◌++◌, ◌∷◌, [], ℕ, List, length, map, true, IfOk};
ghost use Rattle.std.specs.List.{list_all};
ghost use Rattle.lp_text.specs.Limits.{most_names};
ghost use Rattle.lp_text.specs.Texts.{Grown};
ghost use Rattle.lp_model.specs.Agreement.{numbers_below};
ghost use Rattle.lp_model.specs.CommandsView.{OptionView, line_numbers, line_view, word_view};
ghost use Rattle.lp_upf_words.specs.Elements.{content_of};
ghost use Rattle.lp_upf_words.specs.Sizes.{is_modest, sizes};
ghost use Rattle.lp_spec_upf.specs.Commands.{Fault, Option_, has_option, option_at, options_of, value_faults, values_of};
ghost use Rattle.lp_upf.specs.Faults.{fault_numbers, fault_view, faults_view, first_numbers, judged};
ghost use Rattle.lp_upf.specs.Options.{begun, ended, is_plain, listed, options_numbers, options_view, read_of, reading_numbers, reading_view, refused, step, unlisted, valued};
ghost use Rattle.lp_upf.specs.Tables.{rule_view, value_of};

use crate::fault::{CommandFault, Faults};
use crate::lists::{list_faults, name_faults};
use crate::tables::{Rule, Value};
use crate::words::{is_one_of, option_text, rule_of};
use lp_model::{CommandOption, OptionWord, UpfWord};
use lp_text::{Names, NoMemory, Place, micros_bytes};
use lp_upf_words::read_elements;
use sqlite_items::Items;
use std::alloc::Global;

/// What stands next.
#[derive(Clone, Copy)]
pub(crate) enum Next {
    /// An option.
    Option,
    /// The value of an option, whose word this is.
    ValueOf(Rule, UpfWord),
    /// What an option that is not listed may have as values.
    Skipped,
}

/// A command while its options are read.
#[derive(Drop)]
pub(crate) struct Reading {
    /// What stands next.
    pub next: Next,
    /// The options so far.
    pub options: Items<CommandOption>,
    /// Their faults.
    pub faults: Faults,
}

/// What was read of a command.
#[derive(Drop)]
pub(crate) struct Options {
    /// Its options.
    pub options: Items<CommandOption>,
    /// Their faults.
    pub faults: Faults,
    /// Whether it was read to its end.
    pub whole: bool,
}

/// The value of an option.
#[derive(Drop)]
struct Given {
    /// Its words.
    words: Items<UpfWord>,
    /// Its faults.
    faults: Faults,
}

/// Whether an option is among some.
pub(crate) fn has_option(options: &[CommandOption], word: OptionWord) -> bool
    ensures { result ≡ has_option (map (λ o. o.word) options.now) word }
{
    for option in options {
        if option_text(option.word) == option_text(word) {
            return true;
        }
    }
    false
}

/// The faults of a word as the value of an option, unless it is a list.
fn word_faults(names: &Names, value: Value, option: UpfWord, word: UpfWord) -> Faults
    requires word { word.name.0 < length names.now }
    requires option { option.name.0 < length names.now }
    requires plain { is_plain (value_of value) ≡ true }
    ensures value { faults_view names.now result ≡ judged (value_faults (value_of value) (word_view names.now option) (word_view names.now word)) }
    ensures numbers { numbers_below (length names.now) (first_numbers result.first) ≡ true }
{
    let text = names.text(word.name).as_bytes();
    match value {
        Value::Flag | Value::Listed(_) => Faults::none(),
        Value::Name => name_faults(names, word),
        Value::OneOf(choice) => {
            if is_one_of(choice, text) {
                Faults::none()
            } else {
                Faults::of(CommandFault::Unsupported(word.place, word.name))
            }
        }
        Value::Clamp => {
            if text == b"0".as_slice() || text == b"1".as_slice() {
                Faults::none()
            } else {
                Faults::of(CommandFault::ClampRefused(word.place))
            }
        }
        Value::Threshold => match micros_bytes(text) {
            Some(_) => Faults::none(),
            None => Faults::of(CommandFault::Unsupported(option.place, option.name)),
        },
    }
}

/// The value of an option that one word gives, by the table of names as it is then.
fn read_value(
    alloc: Global,
    names: &mut Names,
    value: Value,
    option: UpfWord,
    word: UpfWord,
) -> Result<Given, NoMemory>
    requires word { word.name.0 < length names.old }
    requires option { option.name.0 < length names.old }
    requires room { length names.old + length (content_of (word_view names.old word)) < most_names }
    requires modest { is_modest (word_view names.old word) ≡ true }
    ensures words { IfOk result (λ g. line_view names.new g.words ≡ values_of (value_of value) (word_view names.old word)) }
    ensures faults { IfOk result (λ g. faults_view names.new g.faults ≡ judged (value_faults (value_of value) (word_view names.old option) (word_view names.old word))) }
    ensures words_below { IfOk result (λ g. numbers_below (length names.new) (line_numbers g.words) ≡ true) }
    ensures faults_below { IfOk result (λ g. numbers_below (length names.new) (first_numbers g.faults.first) ≡ true) }
    ensures grown { Grown names.old names.new }
    ensures few { length names.new ≤ length names.old + length (content_of (word_view names.old word)) }
{
    match value {
        Value::Listed(form) => {
            let elements = read_elements(alloc, names, word)?;
            let faults = list_faults(names, form, &elements);
            Ok(Given {
                words: elements.words,
                faults,
            })
        }
        plain => {
            let mut words = Items::new(alloc);
            words.push(word)?;
            let faults = word_faults(names, plain, option, word);
            Ok(Given { words, faults })
        }
    }
}

/// A fault more.
fn refused(reading: Reading, fault: CommandFault) -> Reading
    ensures value { (names : List (List ℕ)) → reading_view names result ≡ refused (fault_view names fault) (reading_view names reading) }
    ensures below { (n : ℕ) → numbers_below n (reading_numbers reading) ≡ true → numbers_below n (fault_numbers fault) ≡ true → numbers_below n (reading_numbers result) ≡ true }
{
    Reading {
        next: reading.next,
        options: reading.options,
        faults: reading.faults.joined(Faults::of(fault)),
    }
}

/// An option begins.
fn begun(
    alloc: Global,
    mut reading: Reading,
    rule: Rule,
    word: UpfWord,
) -> Result<Reading, NoMemory>
    ensures value { (names : List (List ℕ)) → IfOk result (λ r. reading_view names r ≡ begun (rule_view rule) (value_of rule.value) (word_view names word) (reading_view names reading)) }
    ensures below { (n : ℕ) → numbers_below n (reading_numbers reading) ≡ true → word.name.0 < n → IfOk result (λ r. numbers_below n (reading_numbers r) ≡ true) }
{
    match rule.value {
        Value::Flag => {
            reading.options.push(CommandOption {
                values: Items::new(alloc),
                place: word.place,
                word: rule.word,
                high: None,
            })?;
            reading.next = Next::Option;
        }
        _ => reading.next = Next::ValueOf(rule, word),
    }
    Ok(reading)
}

/// Whether an option stands again that may stand once.
fn is_again(reading: &Reading, rule: Rule) -> bool
    ensures { result ≡ (not rule.repeats && has_option (map (λ o. o.word) reading.now.options) rule.word) }
{
    !rule.repeats && has_option(reading.options.as_slice(), rule.word)
}

/// An option that is listed.
fn listed(alloc: Global, reading: Reading, rule: Rule, word: UpfWord) -> Result<Reading, NoMemory>
    ensures value { (names : List (List ℕ)) → IfOk result (λ r. reading_view names r ≡ listed (rule_view rule) (word_view names word) (reading_view names reading)) }
    ensures below { (n : ℕ) → numbers_below n (reading_numbers reading) ≡ true → word.name.0 < n → IfOk result (λ r. numbers_below n (reading_numbers r) ≡ true) }
{
    if is_again(&reading, rule) {
        return Ok(refused(reading, CommandFault::Syntax(word.place)));
    }
    begun(alloc, reading, rule, word)
}

/// An option that is not listed.
fn unlisted(names: &Names, reading: Reading, word: UpfWord) -> Reading
    requires below { word.name.0 < length names.now }
    requires numbers { numbers_below (length names.now) (reading_numbers reading) ≡ true }
    ensures value { reading_view names.now result ≡ unlisted (word_view names.now word) (reading_view names.now reading) }
    ensures below { numbers_below (length names.now) (reading_numbers result) ≡ true }
{
    if !names.text(word.name).as_bytes().starts_with(b"-") {
        return refused(reading, CommandFault::Syntax(word.place));
    }
    let skipped = refused(reading, CommandFault::Unsupported(word.place, word.name));
    Reading {
        next: Next::Skipped,
        options: skipped.options,
        faults: skipped.faults,
    }
}

/// An option ends with its value, unless that is off the form.
fn valued(reading: Reading, rule: Rule, option: UpfWord, given: Given) -> Result<Reading, NoMemory>
    ensures value { (names : List (List ℕ)) (faults : List Fault) (o : OptionView) → faults_view names given.faults ≡ judged faults → o ≡ option_at (rule_view rule) (word_view names option) (line_view names given.words) → IfOk result (λ r. reading_view names r ≡ valued faults o (reading_view names reading)) }
    ensures below { (n : ℕ) → numbers_below n (reading_numbers reading) ≡ true → numbers_below n (line_numbers given.words) ≡ true → numbers_below n (first_numbers given.faults.first) ≡ true → IfOk result (λ r. numbers_below n (reading_numbers r) ≡ true) }
{
    let faults = reading.faults.joined(given.faults);
    if given.faults.cut {
        return Ok(Reading {
            next: reading.next,
            options: reading.options,
            faults,
        });
    }
    let mut options = reading.options;
    options.push(CommandOption {
        values: given.words,
        place: option.place,
        word: rule.word,
        high: None,
    })?;
    Ok(Reading {
        next: Next::Option,
        options,
        faults,
    })
}

/// One word.
fn step(
    alloc: Global,
    names: &mut Names,
    rules: &[Rule],
    reading: Reading,
    word: UpfWord,
) -> Result<Reading, NoMemory>
    requires word { word.name.0 < length names.old }
    requires numbers { numbers_below (length names.old) (reading_numbers reading) ≡ true }
    requires room { length names.old + length (content_of (word_view names.old word)) < most_names }
    requires modest { is_modest (word_view names.old word) ≡ true }
    ensures value { IfOk result (λ r. reading_view names.new r ≡ step (map rule_view rules.now) (word_view names.old word) (reading_view names.old reading)) }
    ensures below { IfOk result (λ r. numbers_below (length names.new) (reading_numbers r) ≡ true) }
    ensures grown { Grown names.old names.new }
    ensures few { length names.new ≤ length names.old + length (content_of (word_view names.old word)) }
{
    match reading.next {
        Next::ValueOf(rule, option) => {
            let given = read_value(alloc, names, rule.value, option, word)?;
            valued(reading, rule, option, given)
        }
        Next::Option => match rule_of(rules, names.text(word.name).as_bytes()) {
            Some(rule) => listed(alloc, reading, rule, word),
            None => Ok(unlisted(names, reading, word)),
        },
        Next::Skipped => match rule_of(rules, names.text(word.name).as_bytes()) {
            Some(rule) => listed(alloc, reading, rule, word),
            None => Ok(reading),
        },
    }
}

/// The end of a command, or of a text within it.
fn ended(reading: Reading, end: Option<Place>) -> Options
    ensures value { (names : List (List ℕ)) → options_view names result ≡ ended end (reading_view names reading) }
    ensures below { (n : ℕ) → numbers_below n (reading_numbers reading) ≡ true → numbers_below n (options_numbers result) ≡ true }
{
    match (end, reading.next) {
        (None, _) => Options {
            options: reading.options,
            faults: reading.faults,
            whole: false,
        },
        (Some(place), Next::ValueOf(_, _)) => Options {
            options: reading.options,
            faults: reading
                .faults
                .joined(Faults::of(CommandFault::Syntax(place))),
            whole: false,
        },
        (Some(_), _) => Options {
            options: reading.options,
            faults: reading.faults,
            whole: true,
        },
    }
}

/// The options that words are, up to the end of their command, or of the text within it.
pub(crate) fn options_of(
    alloc: Global,
    names: &mut Names,
    rules: &[Rule],
    end: Option<Place>,
    words: &[UpfWord],
) -> Result<Options, NoMemory>
    requires below { numbers_below (length names.old) (line_numbers words.now) ≡ true }
    requires room { length names.old + sizes (line_view names.old words.now) < most_names }
    requires modest { list_all is_modest (line_view names.old words.now) ≡ true }
    ensures value { IfOk result (λ o. options_view names.new o ≡ read_of (options_of (map rule_view rules.now) end Option_ [] (line_view names.old words.now))) }
    ensures below { IfOk result (λ o. numbers_below (length names.new) (options_numbers o) ≡ true) }
    ensures grown { Grown names.old names.new }
    ensures few { length names.new ≤ length names.old + sizes (line_view names.old words.now) }
{
    let mut reading = Reading {
        next: Next::Option,
        options: Items::new(alloc),
        faults: Faults::none(),
    };
    for word in words {
        reading = step(alloc, names, rules, reading, *word)?;
        if reading.faults.cut {
            return Ok(Options {
                options: reading.options,
                faults: reading.faults,
                whole: false,
            });
        }
    }
    Ok(ended(reading, end))
}
