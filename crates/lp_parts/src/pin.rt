ghost use Rattle.std.specs.Prelude.{◌≡◌, [], length, true, Some, IfOk, IsTrue, OnOk, map};
ghost use Rattle.std.specs.List.{flat_map};
ghost use Rattle.std.specs.Option.{option_map};
ghost use Rattle.lp_text.specs.Texts.{has_text, text_at};
ghost use Rattle.lp_model.specs.Agreement.{name_texts, numbers_below, option_numbers};
ghost use Rattle.lp_model.specs.GroupsView.{group_view};
ghost use Rattle.lp_model.specs.LibraryView.{expr_numbers, expr_view, pin_numbers, pin_view};
ghost use Rattle.lp_parts.specs.Functions.{small};
ghost use Rattle.lp_parts.specs.Pins.{action_if, action_of, class_of, direction_of, function_of, ground_of, pin_of, pins_at, pins_by, pins_of, power_down_of, power_of, related_by, restores, retention_use, saves, shift_use, use_of};
ghost use Rattle.lp_parts.specs.Views.{Adds, Knows, frame_view};

use crate::function::{down_of, function_if_any, small};
use crate::naming::is_output;
use crate::scope::Frame;
use crate::source::is_part;
use lp_attributes::{action, class, known, says, text_of, value, values};
use lp_expr::Expr;
use lp_model::{Action, Direction, Group, Pin, PinUse, RetClass};
use lp_text::{NameId, Names, NoMemory, Word};
use sqlite_items::Items;
use std::alloc::Global;

/// When a retention pin acts, none where the attribute is missing or unknown.
pub fn action_of(
    alloc: Global,
    names: &Names,
    group: &Group,
    word: &str,
) -> Result<Option<Action>, NoMemory>
    ensures { IfOk result (λ a. a ≡ action_of word.now (group_view names.now group.now)) }
{
    match value(alloc, names, group, word)? {
        None => Ok(None),
        Some(text) => Ok(action(text.text())),
    }
}

/// The class of a retention pin, none where it is missing or unknown.
pub fn class_of(names: &Names, values: &[NameId]) -> Option<RetClass>
    ensures { result ≡ class_of (name_texts names.now values.now) }
{
    match values {
        [] => None,
        [first, ..] => class(text_of(names, *first)),
    }
}

/// Whether a class saves.
pub fn saves(class: RetClass) -> bool
    ensures { result ≡ saves class }
{
    matches!(class, RetClass::Save | RetClass::Both)
}

/// Whether a class restores.
pub fn restores(class: RetClass) -> bool
    ensures { result ≡ restores class }
{
    matches!(class, RetClass::Restore | RetClass::Both)
}

/// An action of a retention pin, none where its class does not have it.
fn action_if(
    alloc: Global,
    names: &Names,
    has: bool,
    group: &Group,
    word: &str,
) -> Result<Option<Action>, NoMemory>
    ensures { IfOk result (λ a. a ≡ action_if has word.now (group_view names.now group.now)) }
{
    if !has {
        return Ok(None);
    }
    action_of(alloc, names, group, word)
}

/// What a pin with these retention values is for.
fn retention_use(
    alloc: Global,
    names: &Names,
    group: &Group,
    values: &[NameId],
) -> Result<PinUse, NoMemory>
    ensures { IfOk result (λ u. u ≡ retention_use (group_view names.now group.now) (Some (name_texts names.now values.now))) }
{
    match class_of(names, values) {
        None => Ok(PinUse::Plain),
        Some(class) => {
            let save = action_if(alloc, names, saves(class), group, "save_action")?;
            let restore = action_if(alloc, names, restores(class), group, "restore_action")?;
            Ok(PinUse::Retain(class, save, restore))
        }
    }
}

/// What a pin that is no pin of an isolation cell is for.
fn shift_use(alloc: Global, names: &Names, group: &Group) -> Result<PinUse, NoMemory>
    ensures { IfOk result (λ u. u ≡ shift_use (group_view names.now group.now)) }
{
    if says(alloc, names, group, "level_shifter_data_pin", "true")? {
        return Ok(PinUse::ShiftData);
    }
    if says(alloc, names, group, "level_shifter_enable_pin", "true")? {
        return Ok(PinUse::ShiftEnable);
    }
    if says(alloc, names, group, "switch_pin", "true")? {
        return Ok(PinUse::Switch);
    }
    match values(names, group, "retention_pin") {
        None => Ok(PinUse::Plain),
        Some(values) => retention_use(alloc, names, group, values),
    }
}

/// What a pin is for.
fn use_of(alloc: Global, names: &Names, group: &Group) -> Result<PinUse, NoMemory>
    ensures { IfOk result (λ u. u ≡ use_of (group_view names.now group.now)) }
{
    if says(alloc, names, group, "isolation_cell_data_pin", "true")? {
        return Ok(PinUse::IsoData);
    }
    if says(alloc, names, group, "isolation_cell_enable_pin", "true")? {
        return Ok(PinUse::IsoEnable);
    }
    shift_use(alloc, names, group)
}

/// The place of a related pin: of the one that is named, else the only one of its kind.
fn related_by(frame: &Frame, sole: Option<usize>, value: &Option<Word>) -> Option<usize>
    ensures { result ≡ related_by frame.now.names sole value.now }
{
    match value {
        None => sole,
        Some(name) => frame.names.find(name.text().as_bytes()),
    }
}

/// The place of the related power pin.
fn power_of(alloc: Global, names: &Names, frame: &Frame, group: &Group) -> Result<u8, NoMemory>
    ensures { IfOk result (λ p. p ≡ small (power_of (frame_view names.now frame.now) (group_view names.now group.now))) }
{
    let named = value(alloc, names, group, "related_power_pin")?;
    Ok(small(related_by(frame, frame.power, &named)))
}

/// The place of the related ground pin, if pins of the cell have one.
fn ground_of(
    alloc: Global,
    names: &Names,
    frame: &Frame,
    group: &Group,
) -> Result<Option<u8>, NoMemory>
    ensures { IfOk result (λ p. p ≡ ground_of (frame_view names.now frame.now) (group_view names.now group.now)) }
{
    if frame.floating {
        return Ok(None);
    }
    let named = value(alloc, names, group, "related_ground_pin")?;
    Ok(Some(small(related_by(frame, frame.gnd, &named))))
}

/// The function of a pin, none of an input.
fn function_of(
    alloc: Global,
    names: &Names,
    frame: &Frame,
    output: bool,
    group: &Group,
) -> Result<Option<Expr>, NoMemory>
    requires { Knows names.now frame.now }
    ensures same { IfOk result (λ o. option_map (expr_view names.now) o ≡ function_of (frame_view names.now frame.now) output (group_view names.now group.now)) }
    ensures below { IfOk result (λ o. numbers_below (length names.now) (option_numbers expr_numbers o) ≡ true) }
{
    if !output {
        return Ok(None);
    }
    let text = value(alloc, names, group, "function")?;
    function_if_any(alloc, names, &frame.signals, &text)
}

/// The `power_down_function` of a pin, none of an input.
fn power_down_of(
    alloc: Global,
    names: &Names,
    frame: &Frame,
    output: bool,
    group: &Group,
) -> Result<Option<Expr>, NoMemory>
    requires { Knows names.now frame.now }
    ensures same { IfOk result (λ o. option_map (expr_view names.now) o ≡ power_down_of (frame_view names.now frame.now) output (group_view names.now group.now)) }
    ensures below { IfOk result (λ o. numbers_below (length names.now) (option_numbers expr_numbers o) ≡ true) }
{
    if !output {
        return Ok(None);
    }
    let text = value(alloc, names, group, "power_down_function")?;
    let pgs = frame.pgs.as_slice();
    Ok(Some(down_of(alloc, names, &frame.names, pgs, &text)?))
}

/// The direction of a pin that is an output or not.
fn direction_of(output: bool) -> Direction
    ensures { result ≡ direction_of output }
{
    if output {
        Direction::Output
    } else {
        Direction::Input
    }
}

/// A pin of a group.
#[tactic(auto, using(crate::proofs::Below::below_pin))]
fn pin_of(
    alloc: Global,
    names: &Names,
    frame: &Frame,
    group: &Group,
    name: NameId,
) -> Result<Pin, NoMemory>
    requires empty { IsTrue (has_text [] names.now) }
    requires knows { Knows names.now frame.now }
    ensures same { IfOk result (λ p. pin_view names.now p ≡ pin_of (frame_view names.now frame.now) (group_view names.now group.now) (text_at names.now name.0)) }
    ensures below { IfOk result (λ p. numbers_below (length names.now) (pin_numbers p) ≡ true) }
{
    let output = is_output(alloc, names, group)?;
    Ok(Pin {
        name: known(names, name),
        direction: direction_of(output),
        use_of: use_of(alloc, names, group)?,
        power: power_of(alloc, names, frame, group)?,
        gnd: ground_of(alloc, names, frame, group)?,
        function: function_of(alloc, names, frame, output, group)?,
        power_down: power_down_of(alloc, names, frame, output, group)?,
    })
}

/// Adds the pins of a group, one for each argument.
#[tactic(auto, using(lp_attributes::proofs::Below::below_more))]
fn push_args(
    alloc: Global,
    names: &Names,
    frame: &Frame,
    out: &mut Items<Pin>,
    group: &Group,
) -> Result<(), NoMemory>
    requires empty { IsTrue (has_text [] names.now) }
    requires knows { Knows names.now frame.now }
    requires below { numbers_below (length names.now) (flat_map pin_numbers out.old) ≡ true }
    ensures below { OnOk result (numbers_below (length names.now) (flat_map pin_numbers out.new) ≡ true) }
    ensures same { OnOk result (Adds (pin_view names.now) out.old out.new (pins_by (frame_view names.now frame.now) (group_view names.now group.now))) }
{
    for name in group.args.as_slice() {
        out.push(pin_of(alloc, names, frame, group, *name)?)?;
    }
    Ok(())
}

/// Adds the pins of a group, if it is a pin group of the cell.
#[tactic(auto, unfolding(crate::specs::Pins::pins_at))]
fn push_pins(
    alloc: Global,
    names: &Names,
    place: usize,
    frame: &Frame,
    out: &mut Items<Pin>,
    group: &Group,
) -> Result<(), NoMemory>
    requires empty { IsTrue (has_text [] names.now) }
    requires knows { Knows names.now frame.now }
    requires below { numbers_below (length names.now) (flat_map pin_numbers out.old) ≡ true }
    ensures below { OnOk result (numbers_below (length names.now) (flat_map pin_numbers out.new) ≡ true) }
    ensures same { OnOk result (Adds (pin_view names.now) out.old out.new (pins_at place (frame_view names.now frame.now) (group_view names.now group.now))) }
{
    if is_part(names, place, group, "pin") {
        push_args(alloc, names, frame, out, group)?;
    }
    Ok(())
}

/// The signal pins of a cell, in the order of the text.
pub fn pins_of(
    alloc: Global,
    names: &Names,
    place: usize,
    frame: &Frame,
    groups: &[Group],
) -> Result<Items<Pin>, NoMemory>
    requires empty { IsTrue (has_text [] names.now) }
    requires knows { Knows names.now frame.now }
    ensures same { IfOk result (λ out. map (pin_view names.now) out ≡ pins_of place (frame_view names.now frame.now) (map (group_view names.now) groups.now)) }
    ensures below { IfOk result (λ out. numbers_below (length names.now) (flat_map pin_numbers out) ≡ true) }
{
    let mut out = Items::new(alloc);
    for group in groups {
        push_pins(alloc, names, place, frame, &mut out, group)?;
    }
    Ok(out)
}
