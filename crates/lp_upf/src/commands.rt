//! The commands of a text, one after the other.
ghost use Rattle.std.specs.Prelude.{◌≡◌, ◌<◌, ◌≤◌, ◌+◌, ◌*◌, ◌++◌, [], ℕ, List, length, map, true, false, Option, Some, IfOk, OnOk};
ghost use Rattle.std.specs.List.{flat_map};
ghost use Rattle.lp_text.specs.Limits.{most_names};
ghost use Rattle.lp_text.specs.Texts.{Grown, text_at};
ghost use Rattle.lp_model.specs.Agreement.{numbers_below, option_numbers};
ghost use Rattle.lp_model.specs.CommandsView.{OptionView, command_numbers, command_view, item_numbers, line_view, option_view};
ghost use Rattle.lp_upf_words.specs.Answer.{IsFaultOf};
ghost use Rattle.lp_upf_words.specs.Answer as words_answer;
ghost use Rattle.lp_upf_words.specs.Sizes.{sizes};
ghost use Rattle.lp_upf_words.specs.declared.mode.Stop.{Stop};
ghost use Rattle.lp_spec_upf.specs.Commands.{count_values, option_in, tables_after};
ghost use Rattle.lp_upf.specs.Faults.{fault_numbers, fault_view};
ghost use Rattle.lp_upf.specs.Named.{AreReady};
ghost use Rattle.lp_upf.specs.Said.{done_numbers, intent_numbers, intent_view, is_unnamed};
ghost use Rattle.lp_upf.specs.Turns.{Answers, AreAllReady, IsLastOf, IsOn, IsTurn, sizes_of_words, turn_numbers};
ghost use Rattle.lp_upf.specs.States.{SameTables, tables_numbers, tables_view};

use crate::command::{Said, command_of};
use crate::fault::CommandFault;
use crate::states::States;
use crate::words::option_text;
use lp_model::{
    Command, CommandItem, CommandOption, CommandWord, IntentFault, OptionWord, UpfWord,
};
use lp_text::{NameId, Names, NamesFault, NoMemory, Place};
use lp_upf_words::WordsRead;
use lp_verilog_tokens::text_of;
use sqlite_items::Items;
use std::alloc::Global;

/// The commands so far.
#[derive(Drop)]
pub(crate) struct Done {
    /// The commands.
    pub commands: Items<CommandItem>,
    /// The tables of states that they make.
    pub states: States,
}

/// How the reading of a command ends.
#[derive(Clone, Copy)]
enum Turn {
    /// It goes on with the next.
    On,
    /// It ends, with a fault or without.
    Ends(Option<IntentFault>),
}

/// The number of a name, where the table has room for one more.
fn intern(names: &mut Names, name: &str) -> Result<NameId, NoMemory>
    requires { length names.old < most_names }
    ensures below { IfOk result (λ id. id.0 < length names.new) }
    ensures text { IfOk result (λ id. text_at names.new id.0 ≡ name.now) }
    ensures grown { Grown names.old names.new }
    ensures few { length names.new ≤ length names.old + 1 }
{
    match names.intern(name) {
        Ok(id) => Ok(id),
        Err(NamesFault::NoMemory) => Err(NoMemory),
        Err(NamesFault::Full) => unreachable!(),
    }
}

/// The fault of a command, by the number of its word.
fn intent_fault(names: &mut Names, fault: CommandFault) -> Result<IntentFault, NoMemory>
    requires room { length names.old < most_names }
    requires below { numbers_below (length names.old) (fault_numbers fault) ≡ true }
    ensures value { IfOk result (λ f. intent_view names.new f ≡ Some (fault_view names.old fault)) }
    ensures below { IfOk result (λ f. numbers_below (length names.new) (intent_numbers f) ≡ true) }
    ensures grown { Grown names.old names.new }
    ensures few { length names.new ≤ length names.old + 1 }
{
    match fault {
        CommandFault::Syntax(place) => Ok(IntentFault::Syntax { place }),
        CommandFault::ClampRefused(place) => Ok(IntentFault::ClampRefused { place }),
        CommandFault::Unsupported(place, word) => Ok(IntentFault::Unsupported { place, word }),
        CommandFault::Expression(place, word) => {
            let word = intern(names, text_of(option_text(word)))?;
            Ok(IntentFault::Unsupported { place, word })
        }
    }
}

/// The number of the words of an option's value; 0 without the option.
fn count_of(options: &[CommandOption], word: OptionWord) -> usize
    ensures { (names : List (List ℕ)) → result ≡ count_values (option_in (map (option_view names) options.now) word) }
{
    for option in options {
        if option_text(option.word) == option_text(word) {
            return option.values.len();
        }
    }
    0
}

/// Adds the table of states that a command makes, if it makes one.
fn add_table(names: &Names, states: &mut States, command: &Command) -> Result<(), NoMemory>
    requires named { is_unnamed command.now.word command.now.name ≡ false }
    requires below { numbers_below (length names.now) (command_numbers command.now) ≡ true }
    requires states { numbers_below (length names.now) (tables_numbers states.old) ≡ true }
    ensures same { OnOk result (SameTables (tables_view names.now states.new) (tables_after command.now.word (command_view names.now command.now) (tables_view names.now states.old))) }
    ensures below { OnOk result (numbers_below (length names.now) (tables_numbers states.new) ≡ true) }
{
    match (command.word, command.name) {
        (CommandWord::CreatePst, Some(name)) => {
            let supplies = count_of(command.options.as_slice(), OptionWord::Supplies);
            states.add(names, name.name, supplies)
        }
        _ => Ok(()),
    }
}

impl Done {
    /// No commands.
    pub(crate) fn new(alloc: Global) -> Done
        ensures { result ≡ record { commands = []; states = [] } }
    {
        Done {
            commands: Items::new(alloc),
            states: States::new(alloc),
        }
    }

    /// Reads one command more.
    fn take(
        &mut self,
        alloc: Global,
        names: &mut Names,
        end: Option<Place>,
        words: &[UpfWord],
    ) -> Result<Turn, NoMemory>
        requires ready { AreReady names.old self.old.states words.now }
        requires below { numbers_below (length names.old) (done_numbers self.old) ≡ true }
        ensures value { IfOk result (IsTurn names.old names.new self.old self.new end (line_view names.old words.now)) }
        ensures below { OnOk result (numbers_below (length names.new) (done_numbers self.new) ≡ true) }
        ensures fault { IfOk result (λ t. numbers_below (length names.new) (turn_numbers t) ≡ true) }
        ensures grown { Grown names.old names.new }
        ensures few { length names.new ≤ length names.old + 2 * sizes (line_view names.old words.now) + 1 }
        ensures on { IfOk result (λ t. IsOn t → length names.new ≤ length names.old + 2 * sizes (line_view names.old words.now)) }
    {
        match command_of(alloc, names, &self.states, end, words)? {
            Said::Does(command) => {
                add_table(names, &mut self.states, &command)?;
                self.commands.push(CommandItem::Command(command))?;
                Ok(Turn::On)
            }
            Said::Fails(fault) => {
                let fault = intent_fault(names, fault)?;
                Ok(Turn::Ends(Some(fault)))
            }
            Said::Breaks => Ok(Turn::Ends(None)),
        }
    }
}

/// How a text ends: without fault, or with that of its words or of the command before it.
fn last_of(
    alloc: Global,
    names: &mut Names,
    states: &States,
    words: &WordsRead,
) -> Result<Option<IntentFault>, NoMemory>
    requires ready { AreReady names.old states.now words.now.unfinished }
    requires fault { numbers_below (length names.old) (words_answer.fault_numbers words.now.fault) ≡ true }
    ensures value { (stop : Option Stop) → IsFaultOf names.old stop words.now.fault → IfOk result (IsLastOf names.old names.new states.now words.now stop) }
    ensures below { IfOk result (λ f. numbers_below (length names.new) (option_numbers intent_numbers f) ≡ true) }
    ensures grown { Grown names.old names.new }
    ensures few { length names.new ≤ length names.old + 2 * sizes (line_view names.old words.now.unfinished) + 1 }
{
    match words.fault {
        None => Ok(None),
        Some(stop) => match command_of(alloc, names, states, None, words.unfinished.as_slice())? {
            Said::Fails(fault) => {
                let fault = intent_fault(names, fault)?;
                Ok(Some(fault))
            }
            _ => Ok(Some(stop)),
        },
    }
}

/// Reads the commands that words are, and says the fault of the text, if it has one.
pub(crate) fn read_commands(
    alloc: Global,
    names: &mut Names,
    words: &WordsRead,
    done: &mut Done,
) -> Result<Option<IntentFault>, NoMemory>
    requires ready { AreAllReady names.old words.now }
    requires begun { done.old ≡ record { commands = []; states = [] } }
    ensures value { (stop : Option Stop) → IsFaultOf names.old stop words.now.fault → IfOk result (Answers names.old names.new words.now stop done.new) }
    ensures below { IfOk result (λ f. numbers_below (length names.new) (flat_map item_numbers done.new.commands ++ option_numbers intent_numbers f) ≡ true) }
    ensures grown { Grown names.old names.new }
    ensures few { length names.new ≤ length names.old + 2 * sizes_of_words names.old words.now + 1 }
{
    for at in 0..words.list.commands.len() {
        let end = words.ends.get(at).copied();
        match done.take(
            alloc,
            names,
            end,
            words.list.commands.as_slice()[at].as_slice(),
        )? {
            Turn::On => {}
            Turn::Ends(fault) => return Ok(fault),
        }
    }
    last_of(alloc, names, &done.states, words)
}
