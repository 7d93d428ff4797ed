//! One command: its word, the name behind it, and its options.
ghost use Rattle.std.specs.Prelude.{◌≡◌, ◌<◌, ◌≤◌, ◌+◌, ◌*◌, [], ℕ, List, length, map, true, false, IfOk};
ghost use Rattle.std.specs.List.{list_all};
ghost use Rattle.std.specs.Option.{option_map};
ghost use Rattle.lp_text.specs.Limits.{most_names};
ghost use Rattle.lp_text.specs.Texts.{Grown};
ghost use Rattle.lp_model.specs.Agreement.{numbers_below, option_numbers};
ghost use Rattle.lp_model.specs.CommandsView.{line_numbers, line_view, word_numbers, word_view};
ghost use Rattle.lp_upf_words.specs.Sizes.{is_modest, sizes};
ghost use Rattle.lp_spec_upf.specs.Commands.{Named, command_of, name_missing, options_from, said_of};
ghost use Rattle.lp_spec_upf.specs.Shapes.{shape_of};
ghost use Rattle.lp_upf.specs.Faults.{faults_view, first_numbers, joined, judged};
ghost use Rattle.lp_upf.specs.Named.{AreReady, IsReadBy, behind_word, faults_of_name, is_nameless, name_word, named_by};
ghost use Rattle.lp_upf.specs.Options.{options_numbers, options_view, read, read_of};
ghost use Rattle.lp_upf.specs.Said.{IsSaidBy, is_named, said_numbers, said_view};
ghost use Rattle.lp_upf.specs.States.{tables_view};
ghost use Rattle.lp_upf.specs.Tables.{name_rule_of};

use crate::expressions::judged_by;
use crate::fault::{CommandFault, Faults};
use crate::lists::{list_faults, name_faults};
use crate::named::exact;
use crate::needs::all_faults;
use crate::options::Options;
use crate::states::States;
use crate::tables::{Form, NameRule, name_rule_of, rules_of};
use crate::words::command_of as word_of;
use lp_model::{Command, CommandWord, UpfWord};
use lp_text::{Names, NoMemory, Place};
use lp_upf_words::read_elements;
use sqlite_items::Items;
use std::alloc::Global;

/// What the words of a command say.
#[derive(Drop)]
pub(crate) enum Said {
    /// A command.
    Does(Command),
    /// Its fault.
    Fails(CommandFault),
    /// Neither: the text ends within the command, and nothing in it is at fault.
    Breaks,
}

/// The word that stands where a name may.
fn name_of(rule: NameRule, words: &[UpfWord]) -> Option<UpfWord>
    ensures { result ≡ name_word (name_rule_of rule) words.now }
{
    match rule {
        NameRule::NoName => None,
        _ => words.first().copied(),
    }
}

/// The words behind it.
fn behind_name(rule: NameRule, words: &[UpfWord]) -> &[UpfWord]
    ensures { result.now ≡ behind_word (name_rule_of rule) words.now }
{
    if words.is_empty() || matches!(rule, NameRule::NoName) {
        return words;
    }
    &words[1..]
}

/// Whether a command has no name that must have one.
fn is_nameless(rule: NameRule, words: &[UpfWord]) -> bool
    ensures { result ≡ is_nameless (name_rule_of rule) words.now }
{
    words.is_empty() && matches!(rule, NameRule::OneName | NameRule::NameList)
}

/// A command that is not read on.
fn cut(alloc: Global, faults: Faults) -> Options
    ensures { result ≡ record { options = []; faults = faults; whole = false } }
{
    Options {
        options: Items::new(alloc),
        faults,
        whole: false,
    }
}

/// A command without its name.
fn missing(alloc: Global, end: Option<Place>) -> Options
    ensures value { (names : List (List ℕ)) → options_view names result ≡ read_of (name_missing end).rest }
    ensures numbers { options_numbers result ≡ [] }
{
    match end {
        None => cut(alloc, Faults::none()),
        Some(place) => cut(alloc, Faults::of(CommandFault::Syntax(place))),
    }
}

/// The faults of a name.
fn faults_of_name(
    alloc: Global,
    names: &mut Names,
    rule: NameRule,
    words: &[UpfWord],
) -> Result<Faults, NoMemory>
    requires below { numbers_below (length names.old) (line_numbers words.now) ≡ true }
    requires room { length names.old + 2 * sizes (line_view names.old words.now) < most_names }
    requires modest { list_all is_modest (line_view names.old words.now) ≡ true }
    ensures value { IfOk result (λ f. faults_view names.new f ≡ judged (faults_of_name (name_rule_of rule) (line_view names.old words.now))) }
    ensures numbers { IfOk result (λ f. numbers_below (length names.new) (first_numbers f.first) ≡ true) }
    ensures grown { Grown names.old names.new }
    ensures few { length names.new + 2 * sizes (behind_word (name_rule_of rule) (line_view names.old words.now)) ≤ length names.old + 2 * sizes (line_view names.old words.now) }
{
    if words.is_empty() {
        return Ok(Faults::none());
    }
    match rule {
        NameRule::NoName | NameRule::MayName => Ok(Faults::none()),
        NameRule::OneName => Ok(name_faults(names, words[0])),
        NameRule::NameList => {
            let elements = read_elements(alloc, names, words[0])?;
            Ok(list_faults(names, Form::Rest, &elements))
        }
    }
}

/// The options of a command, with the senses of a switch.
fn options_from(
    alloc: Global,
    names: &mut Names,
    states: &States,
    word: CommandWord,
    end: Option<Place>,
    words: &[UpfWord],
) -> Result<Options, NoMemory>
    requires { AreReady names.old states.now words.now }
    ensures value { IfOk result (IsReadBy names.new (λ s. options_from word s (tables_view names.old states.now) (shape_of word).rules end (line_view names.old words.now))) }
    ensures below { IfOk result (λ o. numbers_below (length names.new) (options_numbers o) ≡ true) }
    ensures grown { Grown names.old names.new }
    ensures few { length names.new ≤ length names.old + 2 * sizes (line_view names.old words.now) }
{
    let read = exact(alloc, names, states, word, end, words)?;
    judged_by(alloc, names, read)
}

/// What was read behind a name with these faults.
fn with_faults(faults: Faults, rest: Options) -> Options
    ensures value { (names : List (List ℕ)) → options_view names result ≡ read (options_view names rest).options (joined (faults_view names faults) (faults_view names rest.faults)) rest.whole }
    ensures below { (n : ℕ) → numbers_below n (first_numbers faults.first) ≡ true → numbers_below n (options_numbers rest) ≡ true → numbers_below n (options_numbers result) ≡ true }
{
    Options {
        options: rest.options,
        faults: faults.joined(rest.faults),
        whole: rest.whole,
    }
}

/// The name of a command and its options, as far as they go into its faults.
fn rest_of(
    alloc: Global,
    names: &mut Names,
    states: &States,
    word: CommandWord,
    end: Option<Place>,
    words: &[UpfWord],
) -> Result<Options, NoMemory>
    requires { AreReady names.old states.now words.now }
    ensures value { IfOk result (IsReadBy names.new (λ s. (named_by s (tables_view names.old states.now) word end (line_view names.old words.now)).rest)) }
    ensures below { IfOk result (λ o. numbers_below (length names.new) (options_numbers o) ≡ true) }
    ensures grown { Grown names.old names.new }
    ensures few { length names.new ≤ length names.old + 2 * sizes (line_view names.old words.now) }
{
    let rule = name_rule_of(word);
    if is_nameless(rule, words) {
        return Ok(missing(alloc, end));
    }
    let faults = faults_of_name(alloc, names, rule, words)?;
    if faults.cut {
        return Ok(cut(alloc, faults));
    }
    let rest = options_from(alloc, names, states, word, end, behind_name(rule, words))?;
    Ok(with_faults(faults, rest))
}

/// What a command says by what was read of it.
fn said_of(place: Place, word: CommandWord, name: Option<UpfWord>, rest: Options) -> Said
    ensures value { (names : List (List ℕ)) (n : Named) → option_map (word_view names) name ≡ n.name → options_view names rest ≡ read_of n.rest → said_view names result ≡ said_of word place (shape_of word).rules n }
    ensures below { (n : ℕ) → numbers_below n (option_numbers word_numbers name) ≡ true → numbers_below n (options_numbers rest) ≡ true → numbers_below n (said_numbers result) ≡ true }
{
    let faults = all_faults(place, rules_of(word), &rest);
    match faults.first {
        Some(fault) => Said::Fails(fault),
        None => {
            if rest.whole {
                Said::Does(Command {
                    place,
                    word,
                    name,
                    options: rest.options,
                })
            } else {
                Said::Breaks
            }
        }
    }
}

/// What the words of a command say, up to its end or to that of the text within it.
pub(crate) fn command_of(
    alloc: Global,
    names: &mut Names,
    states: &States,
    end: Option<Place>,
    words: &[UpfWord],
) -> Result<Said, NoMemory>
    requires { AreReady names.old states.now words.now }
    ensures value { IfOk result (IsSaidBy names.new (λ s. command_of s (tables_view names.old states.now) end (line_view names.old words.now))) }
    ensures below { IfOk result (λ r. numbers_below (length names.new) (said_numbers r) ≡ true) }
    ensures named { IfOk result (λ r. is_named r ≡ true) }
    ensures grown { Grown names.old names.new }
    ensures few { length names.new ≤ length names.old + 2 * sizes (line_view names.old words.now) }
{
    if words.is_empty() {
        return Ok(Said::Breaks);
    }
    let first = words[0];
    match word_of(names.text(first.name).as_bytes()) {
        None => Ok(Said::Fails(CommandFault::Unsupported(first.place, first.name))),
        Some(word) => {
            let rest = rest_of(alloc, names, states, word, end, &words[1..])?;
            let name = name_of(name_rule_of(word), &words[1..]);
            Ok(said_of(first.place, word, name, rest))
        }
    }
}
