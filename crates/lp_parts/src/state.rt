ghost use Rattle.std.specs.Prelude.{◌≡◌, [], length, true, IfOk, IsTrue, map};
ghost use Rattle.std.specs.List.{find};
ghost use Rattle.std.specs.Option.{option_copied, option_map};
ghost use Rattle.lp_text.specs.Texts.{has_text};
ghost use Rattle.lp_model.specs.GroupsView.{group_view};
ghost use Rattle.lp_model.specs.Agreement.{numbers_below, option_numbers};
ghost use Rattle.lp_model.specs.LibraryView.{expr_numbers, expr_view, state_numbers, state_view};
ghost use Rattle.lp_attributes.specs.Attributes.{value_of};
ghost use Rattle.lp_parts.specs.Functions.{over_if_any};
ghost use Rattle.lp_parts.specs.Names.{is_state};
ghost use Rattle.lp_parts.specs.States.{clock_text, down_text, is_flop, is_output_pin, is_pin, kind_of, next_text, output_down, power_down_of, state_by, state_of};
ghost use Rattle.lp_parts.specs.Views.{Knows, by_frame, frame_view, group_views};

use crate::function::{down_of, over_if_any};
use crate::naming::{is_output, is_state};
use crate::scope::Frame;
use crate::source::{arg_of, is_part, is_word};
use lp_attributes::value;
use lp_expr::Expr;
use lp_model::{Group, StateGroup, StateKind};
use lp_text::{Names, NoMemory, Word};
use std::alloc::Global;

/// Whether a group makes pins of the cell.
#[tactic(auto, unfolding(crate::specs::States::is_pin))]
pub fn is_pin(names: &Names, place: usize, group: &Group) -> bool
    ensures { result ≡ is_pin place (group_view names.now group.now) }
{
    is_part(names, place, group, "pin") && group.args.len() > 0
}

/// Whether a group makes output pins of the cell.
#[tactic(auto, unfolding(crate::specs::States::is_output_pin))]
fn is_output_pin(
    alloc: Global,
    names: &Names,
    place: usize,
    group: &Group,
) -> Result<bool, NoMemory>
    ensures { IfOk result (λ b. b ≡ is_output_pin place (group_view names.now group.now)) }
{
    if !is_pin(names, place, group) {
        return Ok(false);
    }
    is_output(alloc, names, group)
}

/// The first group that makes output pins.
fn output_of<'a>(
    alloc: Global,
    names: &Names,
    place: usize,
    groups: &'a [Group],
) -> Result<Option<&'a Group>, NoMemory>
    ensures { IfOk result (λ o. option_map (group_view names.now) (option_copied o) ≡ find (is_output_pin place) (map (group_view names.now) groups.now)) }
{
    for group in groups {
        if is_output_pin(alloc, names, place, group)? {
            return Ok(Some(group));
        }
    }
    Ok(None)
}

/// The `power_down_function` of the first output, none where it or the output is missing.
fn output_down(
    alloc: Global,
    names: &Names,
    place: usize,
    groups: &[Group],
) -> Result<Option<Word>, NoMemory>
    ensures { IfOk result (λ o. o ≡ output_down place (map (group_view names.now) groups.now)) }
{
    match output_of(alloc, names, place, groups)? {
        None => Ok(None),
        Some(group) => value(alloc, names, group, "power_down_function"),
    }
}

/// Whether a state group is a flop.
fn is_flop(names: &Names, group: &Group) -> bool
    ensures { result ≡ is_flop (group_view names.now group.now) }
{
    is_word(names, group, "ff")
}

/// The kind of a state group.
fn kind_of(names: &Names, group: &Group) -> StateKind
    ensures { result ≡ kind_of (group_view names.now group.now) }
{
    if is_flop(names, group) {
        StateKind::Flop
    } else {
        StateKind::Latch
    }
}

/// The data of a state group.
pub fn next_text(alloc: Global, names: &Names, group: &Group) -> Result<Option<Word>, NoMemory>
    ensures { IfOk result (λ o. o ≡ next_text (group_view names.now group.now)) }
{
    if is_flop(names, group) {
        value(alloc, names, group, "next_state")
    } else {
        value(alloc, names, group, "data_in")
    }
}

/// The clock or the enable of a state group.
pub fn clock_text(alloc: Global, names: &Names, group: &Group) -> Result<Option<Word>, NoMemory>
    ensures { IfOk result (λ o. o ≡ clock_text (group_view names.now group.now)) }
{
    if is_flop(names, group) {
        value(alloc, names, group, "clocked_on")
    } else {
        value(alloc, names, group, "enable")
    }
}

/// The `power_down_function` of a state group, of the first output where it is missing.
fn down_text(
    alloc: Global,
    names: &Names,
    place: usize,
    groups: &[Group],
    group: &Group,
) -> Result<Option<Word>, NoMemory>
    ensures { IfOk result (λ o. o ≡ down_text place (map (group_view names.now) groups.now) (group_view names.now group.now)) }
{
    match value(alloc, names, group, "power_down_function")? {
        Some(text) => Ok(Some(text)),
        None => output_down(alloc, names, place, groups),
    }
}

/// A function of a state group.
fn part_of(
    alloc: Global,
    names: &Names,
    frame: &Frame,
    group: &Group,
    word: &str,
) -> Result<Expr, NoMemory>
    requires { Knows names.now frame.now }
    ensures same { IfOk result (λ e. expr_view names.now e ≡ over_if_any frame.now.signals (value_of word.now (group_view names.now group.now))) }
    ensures below { IfOk result (λ e. numbers_below (length names.now) (expr_numbers e) ≡ true) }
{
    let text = value(alloc, names, group, word)?;
    over_if_any(alloc, names, &frame.signals, &text)
}

/// The function of the data of a state group.
fn next_of(alloc: Global, names: &Names, frame: &Frame, group: &Group) -> Result<Expr, NoMemory>
    requires { Knows names.now frame.now }
    ensures same { IfOk result (λ e. expr_view names.now e ≡ over_if_any frame.now.signals (next_text (group_view names.now group.now))) }
    ensures below { IfOk result (λ e. numbers_below (length names.now) (expr_numbers e) ≡ true) }
{
    let text = next_text(alloc, names, group)?;
    over_if_any(alloc, names, &frame.signals, &text)
}

/// The function of the clock or the enable of a state group.
fn clock_of(alloc: Global, names: &Names, frame: &Frame, group: &Group) -> Result<Expr, NoMemory>
    requires { Knows names.now frame.now }
    ensures same { IfOk result (λ e. expr_view names.now e ≡ over_if_any frame.now.signals (clock_text (group_view names.now group.now))) }
    ensures below { IfOk result (λ e. numbers_below (length names.now) (expr_numbers e) ≡ true) }
{
    let text = clock_text(alloc, names, group)?;
    over_if_any(alloc, names, &frame.signals, &text)
}

/// The function of the power and ground pins under which a state group is lost.
fn power_down_of(
    alloc: Global,
    names: &Names,
    place: usize,
    frame: &Frame,
    groups: &[Group],
    group: &Group,
) -> Result<Expr, NoMemory>
    requires { Knows names.now frame.now }
    ensures same { IfOk result (λ e. expr_view names.now e ≡ by_frame (power_down_of place) names.now frame.now group.now groups.now) }
    ensures below { IfOk result (λ e. numbers_below (length names.now) (expr_numbers e) ≡ true) }
{
    let text = down_text(alloc, names, place, groups, group)?;
    down_of(alloc, names, &frame.names, frame.pgs.as_slice(), &text)
}

/// The state of a state group.
#[tactic(auto, using(crate::proofs::Below::below_state))]
fn state_by(
    alloc: Global,
    names: &Names,
    place: usize,
    frame: &Frame,
    groups: &[Group],
    group: &Group,
) -> Result<StateGroup, NoMemory>
    requires empty { IsTrue (has_text [] names.now) }
    requires knows { Knows names.now frame.now }
    ensures same { IfOk result (λ s. state_view names.now s ≡ by_frame (state_by place) names.now frame.now group.now groups.now) }
    ensures below { IfOk result (λ s. numbers_below (length names.now) (state_numbers s) ≡ true) }
{
    Ok(StateGroup {
        kind: kind_of(names, group),
        var: arg_of(names, group, 0),
        inverse: arg_of(names, group, 1),
        next: next_of(alloc, names, frame, group)?,
        clock: clock_of(alloc, names, frame, group)?,
        clear: part_of(alloc, names, frame, group, "clear")?,
        preset: part_of(alloc, names, frame, group, "preset")?,
        power_down: power_down_of(alloc, names, place, frame, groups, group)?,
    })
}

/// The first state group of a cell.
fn first_state<'a>(names: &Names, place: usize, groups: &'a [Group]) -> Option<&'a Group>
    ensures { option_map (group_view names.now) (option_copied result) ≡ find (is_state place) (map (group_view names.now) groups.now) }
{
    for group in groups {
        if is_state(names, place, group) {
            return Some(group);
        }
    }
    None
}

/// The state of a cell, if it has one.
pub fn state_of(
    alloc: Global,
    names: &Names,
    place: usize,
    frame: &Frame,
    groups: &[Group],
) -> Result<Option<StateGroup>, NoMemory>
    requires empty { IsTrue (has_text [] names.now) }
    requires knows { Knows names.now frame.now }
    ensures same { IfOk result (λ o. option_map (state_view names.now) o ≡ state_of place (frame_view names.now frame.now) (group_views names.now groups.now)) }
    ensures below { IfOk result (λ o. numbers_below (length names.now) (option_numbers state_numbers o) ≡ true) }
{
    match first_state(names, place, groups) {
        None => Ok(None),
        Some(group) => Ok(Some(state_by(alloc, names, place, frame, groups, group)?)),
    }
}
