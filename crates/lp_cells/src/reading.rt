ghost use Rattle.std.specs.Prelude.{◌≡◌, true, IfOk, IsTrue, map};
ghost use Rattle.std.specs.List.{list_all};
ghost use Rattle.lp_model.specs.GroupsView.{group_view};
ghost use Rattle.lp_attributes.specs.Expressions.{are_known};
ghost use Rattle.lp_cells.specs.Reasons.{reads_all, reads_controls, reads_data, reads_down, reads_if_any, reads_pg, reads_pin, reads_state, reads_switched};
ghost use Rattle.lp_parts.specs.Views.{Knows, frame_view};

use lp_attributes::{expression_over, value};
use lp_model::Group;
use lp_parts::{
    Frame, clock_text, is_internal_power, is_output, is_part, is_pin, is_state, kind_of, next_text,
    passed,
};
use lp_table::Table;
use lp_text::{Names, NoMemory, Word};
use std::alloc::Global;

/// Whether a function reads, or is missing where it may be.
fn reads_if_any(
    alloc: Global,
    names: &Names,
    stand: &Table,
    complete: bool,
    value: &Option<Word>,
) -> Result<bool, NoMemory>
    requires known { IsTrue (are_known names.now stand.now) }
    ensures { IfOk result (λ b. b ≡ reads_if_any stand.now complete value.now) }
{
    match value {
        None => Ok(complete),
        Some(text) => Ok(expression_over(alloc, names, stand, text.text())?.is_some()),
    }
}

/// Whether the `power_down_function` of a group reads, if it has one.
fn reads_down(alloc: Global, names: &Names, frame: &Frame, group: &Group) -> Result<bool, NoMemory>
    requires { Knows names.now frame.now }
    ensures { IfOk result (λ b. b ≡ reads_down (frame_view names.now frame.now) (group_view names.now group.now)) }
{
    let text = value(alloc, names, group, "power_down_function")?;
    reads_if_any(alloc, names, &frame.names, true, &text)
}

/// Whether the functions of a pin read.
fn reads_pin(alloc: Global, names: &Names, frame: &Frame, group: &Group) -> Result<bool, NoMemory>
    requires { Knows names.now frame.now }
    ensures { IfOk result (λ b. b ≡ reads_pin (frame_view names.now frame.now) (group_view names.now group.now)) }
{
    let complete = !is_output(alloc, names, group)?;
    let text = value(alloc, names, group, "function")?;
    if !reads_if_any(alloc, names, &frame.signals, complete, &text)? {
        return Ok(false);
    }
    reads_down(alloc, names, frame, group)
}

/// Whether both functions of an internal power pin read.
fn reads_switched(
    alloc: Global,
    names: &Names,
    frame: &Frame,
    off: &Option<Word>,
    passes: &Option<Word>,
) -> Result<bool, NoMemory>
    requires { Knows names.now frame.now }
    ensures { IfOk result (λ b. b ≡ reads_switched (frame_view names.now frame.now) off.now passes.now) }
{
    match (off, passes) {
        (Some(off), Some(passes)) => {
            if expression_over(alloc, names, &frame.signals, off.text())?.is_none() {
                return Ok(false);
            }
            Ok(passed(alloc, names, &frame.names, passes.text())?.is_some())
        }
        _ => Ok(true),
    }
}

/// Whether the functions of a power or ground pin read.
fn reads_pg(alloc: Global, names: &Names, frame: &Frame, group: &Group) -> Result<bool, NoMemory>
    requires { Knows names.now frame.now }
    ensures { IfOk result (λ b. b ≡ reads_pg (frame_view names.now frame.now) (group_view names.now group.now)) }
{
    if !is_internal_power(kind_of(alloc, names, group)?) {
        return Ok(true);
    }
    let off = value(alloc, names, group, "switch_function")?;
    let passes = value(alloc, names, group, "pg_function")?;
    reads_switched(alloc, names, frame, &off, &passes)
}

/// Whether the data and the clock of a state group are there and read.
fn reads_data(alloc: Global, names: &Names, frame: &Frame, group: &Group) -> Result<bool, NoMemory>
    requires { Knows names.now frame.now }
    ensures { IfOk result (λ b. b ≡ reads_data (frame_view names.now frame.now) (group_view names.now group.now)) }
{
    let next = next_text(alloc, names, group)?;
    if !reads_if_any(alloc, names, &frame.signals, false, &next)? {
        return Ok(false);
    }
    let clock = clock_text(alloc, names, group)?;
    reads_if_any(alloc, names, &frame.signals, false, &clock)
}

/// Whether clear and preset of a state group read, if it has them.
fn reads_controls(
    alloc: Global,
    names: &Names,
    frame: &Frame,
    group: &Group,
) -> Result<bool, NoMemory>
    requires { Knows names.now frame.now }
    ensures { IfOk result (λ b. b ≡ reads_controls (frame_view names.now frame.now) (group_view names.now group.now)) }
{
    let clear = value(alloc, names, group, "clear")?;
    if !reads_if_any(alloc, names, &frame.signals, true, &clear)? {
        return Ok(false);
    }
    let preset = value(alloc, names, group, "preset")?;
    reads_if_any(alloc, names, &frame.signals, true, &preset)
}

/// Whether the functions of a state group read.
fn reads_state(alloc: Global, names: &Names, frame: &Frame, group: &Group) -> Result<bool, NoMemory>
    requires { Knows names.now frame.now }
    ensures { IfOk result (λ b. b ≡ reads_state (frame_view names.now frame.now) (group_view names.now group.now)) }
{
    if !reads_data(alloc, names, frame, group)? {
        return Ok(false);
    }
    if !reads_controls(alloc, names, frame, group)? {
        return Ok(false);
    }
    reads_down(alloc, names, frame, group)
}

/// Whether all functions of a group read.
fn reads_all(
    alloc: Global,
    names: &Names,
    place: usize,
    frame: &Frame,
    group: &Group,
) -> Result<bool, NoMemory>
    requires { Knows names.now frame.now }
    ensures { IfOk result (λ b. b ≡ reads_all place (frame_view names.now frame.now) (group_view names.now group.now)) }
{
    if is_pin(names, place, group) {
        return reads_pin(alloc, names, frame, group);
    }
    if is_part(names, place, group, "pg_pin") {
        return reads_pg(alloc, names, frame, group);
    }
    if is_state(names, place, group) {
        return reads_state(alloc, names, frame, group);
    }
    if is_part(names, place, group, "retention_condition") {
        return reads_down(alloc, names, frame, group);
    }
    Ok(true)
}

/// Whether all functions of all groups of a cell read.
pub(crate) fn all_read(
    alloc: Global,
    names: &Names,
    place: usize,
    frame: &Frame,
    groups: &[Group],
) -> Result<bool, NoMemory>
    requires { Knows names.now frame.now }
    ensures { IfOk result (λ b. b ≡ list_all (reads_all place (frame_view names.now frame.now)) (map (group_view names.now) groups.now)) }
{
    for group in groups {
        if !reads_all(alloc, names, place, frame, group)? {
            return Ok(false);
        }
    }
    Ok(true)
}
