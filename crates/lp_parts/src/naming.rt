ghost use Rattle.std.specs.Prelude.{◌≡◌, [], IfOk, OnOk, ◌&&◌, not, codes, fold, map, slice_index_or, take};
ghost use Rattle.lp_text.specs.Texts.{with_text};
ghost use Rattle.lp_model.specs.Agreement.{name_texts};
ghost use Rattle.lp_model.specs.GroupsView.{group_view};
ghost use Rattle.lp_parts.specs.Source.{is_part};
ghost use Rattle.lp_parts.specs.Names.{is_output, is_state, pg_names, signal_names, with_inputs, with_pg, with_texts, with_variables};

use crate::source::{is_part, is_word, stands_in};
use lp_attributes::{says, text_of};
use lp_model::Group;
use lp_table::Table;
use lp_text::{NameId, Names, NoMemory};
use std::alloc::Global;

/// Whether a group is a flop or a latch of the cell of a number.
#[tactic(auto, unfolding(crate::specs::Names::is_state))]
pub fn is_state(names: &Names, place: usize, group: &Group) -> bool
    ensures { result ≡ is_state place (group_view names.now group.now) }
{
    stands_in(place, group) && (is_word(names, group, "ff") || is_word(names, group, "latch"))
}

/// Whether a pin group has the direction output.
pub fn is_output(alloc: Global, names: &Names, group: &Group) -> Result<bool, NoMemory>
    ensures { IfOk result (λ b. b ≡ is_output (group_view names.now group.now)) }
{
    says(alloc, names, group, "direction", "output")
}

/// Adds a text, once.
fn add_text(set: &mut Table, text: &str) -> Result<(), NoMemory>
    ensures { OnOk result (set.new ≡ with_text set.old text.now) }
{
    set.add(text.as_bytes())?;
    Ok(())
}

/// Adds texts, each once.
fn add_texts(names: &Names, set: &mut Table, args: &[NameId]) -> Result<(), NoMemory>
    ensures { OnOk result (set.new ≡ with_texts set.old (name_texts names.now args.now)) }
{
    for arg in args {
        add_text(set, text_of(names, *arg))?;
    }
    Ok(())
}

/// Whether a group makes input pins.
fn is_input(alloc: Global, names: &Names, place: usize, group: &Group) -> Result<bool, NoMemory>
    ensures { IfOk result (λ b. b ≡ (is_part place (codes "pin") (group_view names.now group.now) && not (is_output (group_view names.now group.now)))) }
{
    if !is_part(names, place, group, "pin") {
        return Ok(false);
    }
    Ok(!is_output(alloc, names, group)?)
}

/// Adds the names of a group's input pins.
fn add_inputs(
    alloc: Global,
    names: &Names,
    place: usize,
    set: &mut Table,
    group: &Group,
) -> Result<(), NoMemory>
    ensures { OnOk result (set.new ≡ with_inputs place set.old (group_view names.now group.now)) }
{
    if is_input(alloc, names, place, group)? {
        add_texts(names, set, group.args.as_slice())?;
    }
    Ok(())
}

/// The names of the input pins.
fn input_names(
    alloc: Global,
    names: &Names,
    place: usize,
    groups: &[Group],
) -> Result<Table, NoMemory>
    ensures { IfOk result (λ t. t ≡ fold (with_inputs place) [] (map (group_view names.now) groups.now)) }
{
    let mut set = Table::new(alloc);
    for group in groups {
        add_inputs(alloc, names, place, &mut set, group)?;
    }
    Ok(set)
}

/// At most the first two of some names.
fn first_two(args: &[NameId]) -> &[NameId]
    ensures { result.now ≡ take 2 args.now }
{
    &args[..args.len().min(2)]
}

/// Adds the variables of a state group.
fn add_state(names: &Names, place: usize, set: &mut Table, group: &Group) -> Result<(), NoMemory>
    ensures { OnOk result (set.new ≡ with_variables place set.old (group_view names.now group.now)) }
{
    if is_state(names, place, group) {
        add_texts(names, set, first_two(group.args.as_slice()))?;
    }
    Ok(())
}

/// Adds the variables of all state groups.
fn add_states(
    names: &Names,
    place: usize,
    set: &mut Table,
    groups: &[Group],
) -> Result<(), NoMemory>
    ensures { OnOk result (set.new ≡ fold (with_variables place) set.old (map (group_view names.now) groups.now)) }
{
    for group in groups {
        add_state(names, place, set, group)?;
    }
    Ok(())
}

/// The names that a function may have: those of input pins and of state variables.
pub fn signal_names(
    alloc: Global,
    names: &Names,
    place: usize,
    groups: &[Group],
) -> Result<Table, NoMemory>
    ensures { IfOk result (λ t. t ≡ signal_names place (map (group_view names.now) groups.now)) }
{
    let mut set = input_names(alloc, names, place, groups)?;
    add_states(names, place, &mut set, groups)?;
    Ok(set)
}

/// The first argument of a group, empty where it is missing.
fn first_text<'a>(names: &'a Names, args: &[NameId]) -> &'a str
    ensures { result.now ≡ slice_index_or (name_texts names.now args.now) 0 [] }
{
    match args {
        [] => "",
        [first, ..] => text_of(names, *first),
    }
}

/// Adds the name of a power or ground pin.
fn add_pg(names: &Names, place: usize, set: &mut Table, group: &Group) -> Result<(), NoMemory>
    ensures { OnOk result (set.new ≡ with_pg place set.old (group_view names.now group.now)) }
{
    if is_part(names, place, group, "pg_pin") {
        add_text(set, first_text(names, group.args.as_slice()))?;
    }
    Ok(())
}

/// The names of the power and ground pins.
pub fn pg_names(
    alloc: Global,
    names: &Names,
    place: usize,
    groups: &[Group],
) -> Result<Table, NoMemory>
    ensures { IfOk result (λ t. t ≡ pg_names place (map (group_view names.now) groups.now)) }
{
    let mut set = Table::new(alloc);
    for group in groups {
        add_pg(names, place, &mut set, group)?;
    }
    Ok(set)
}
