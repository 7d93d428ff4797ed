//! The options of a command by the table of its word, and those of a row by its table of states.
ghost use Rattle.std.specs.Prelude.{◌≡◌, ◌<◌, ◌≤◌, ◌+◌, ◌*◌, [], ℕ, List, length, map, true, IfOk};
ghost use Rattle.std.specs.List.{flat_map, list_all};
ghost use Rattle.std.specs.Option.{option_map};
ghost use Rattle.lp_text.specs.Limits.{most_names};
ghost use Rattle.lp_text.specs.Texts.{Grown};
ghost use Rattle.lp_model.specs.Agreement.{numbers_below, option_numbers};
ghost use Rattle.lp_model.specs.CommandsView.{command_option_numbers, line_numbers, line_view, name_number, name_view, option_view};
ghost use Rattle.lp_upf_words.specs.Sizes.{is_modest, sizes};
ghost use Rattle.lp_spec_upf.specs.Commands.{first_word, name_in};
ghost use Rattle.lp_spec_upf.specs.Shapes.{shape_of};
ghost use Rattle.lp_upf.specs.Options.{options_numbers, options_view, read_of};
ghost use Rattle.lp_upf.specs.States.{exact_of, row_supplies, tables_numbers, tables_view};

use crate::options::{Options, options_of};
use crate::states::States;
use crate::tables::{row_rules, rules_of};
use crate::words::option_text;
use lp_model::{CommandOption, CommandWord, OptionWord, UpfWord};
use lp_text::{NameId, Names, NoMemory, Place};
use std::alloc::Global;

/// The first word of a value.
fn first_word(values: &[UpfWord]) -> Option<NameId>
    ensures value { (names : List (List ℕ)) → option_map (name_view names) result ≡ first_word (line_view names values.now) }
    ensures below { (n : ℕ) → numbers_below n (line_numbers values.now) ≡ true → numbers_below n (option_numbers name_number result) ≡ true }
{
    match values.first() {
        None => None,
        Some(word) => Some(word.name),
    }
}

/// The name that an option gives.
pub(crate) fn name_in(options: &[CommandOption], word: OptionWord) -> Option<NameId>
    ensures value { (names : List (List ℕ)) → option_map (name_view names) result ≡ name_in (map (option_view names) options.now) word }
    ensures below { (n : ℕ) → numbers_below n (flat_map command_option_numbers options.now) ≡ true → numbers_below n (option_numbers name_number result) ≡ true }
{
    for option in options {
        if option_text(option.word) == option_text(word) {
            return first_word(option.values.as_slice());
        }
    }
    None
}

/// The number of the supplies of the table that a row names; none for other commands.
fn row_supplies(
    names: &Names,
    states: &States,
    word: CommandWord,
    options: &[CommandOption],
) -> Option<usize>
    requires options { numbers_below (length names.now) (flat_map command_option_numbers options.now) ≡ true }
    requires states { numbers_below (length names.now) (tables_numbers states.now) ≡ true }
    ensures { result ≡ row_supplies word (tables_view names.now states.now) (map (option_view names.now) options.now) }
{
    match (word, name_in(options, OptionWord::Pst)) {
        (CommandWord::AddPstState, Some(name)) => states.supplies(names, name),
        _ => None,
    }
}

/// The options of a command by its own table; those of a row have as many states as its table of states has supplies.
pub(crate) fn exact(
    alloc: Global,
    names: &mut Names,
    states: &States,
    word: CommandWord,
    end: Option<Place>,
    words: &[UpfWord],
) -> Result<Options, NoMemory>
    requires below { numbers_below (length names.old) (line_numbers words.now) ≡ true }
    requires states { numbers_below (length names.old) (tables_numbers states.now) ≡ true }
    requires room { length names.old + 2 * sizes (line_view names.old words.now) < most_names }
    requires modest { list_all is_modest (line_view names.old words.now) ≡ true }
    ensures value { IfOk result (λ o. options_view names.new o ≡ read_of (exact_of (tables_view names.old states.now) word end (line_view names.old words.now))) }
    ensures below { IfOk result (λ o. numbers_below (length names.new) (options_numbers o) ≡ true) }
    ensures grown { Grown names.old names.new }
    ensures few { length names.new ≤ length names.old + 2 * sizes (line_view names.old words.now) }
{
    let loose = options_of(alloc, names, rules_of(word), end, words)?;
    match row_supplies(names, states, word, loose.options.as_slice()) {
        None => Ok(loose),
        Some(supplies) => options_of(alloc, names, &row_rules(supplies), end, words),
    }
}
