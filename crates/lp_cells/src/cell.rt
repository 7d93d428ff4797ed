ghost use Rattle.std.specs.Prelude.{◌≡◌, [], length, true, IfOk, IsTrue, map};
ghost use Rattle.std.specs.List.{flat_map};
ghost use Rattle.lp_text.specs.Texts.{has_text};
ghost use Rattle.lp_model.specs.GroupsView.{group_view};
ghost use Rattle.lp_model.specs.Agreement.{numbers_below};
ghost use Rattle.lp_model.specs.LibraryView.{cell_numbers, cell_view, pg_pin_view, pin_numbers, pin_view};
ghost use Rattle.lp_cells.specs.Cells.{cell_by, cell_of, scope_by, scope_of};
ghost use Rattle.lp_cells.specs.Reasons.{reason_of};
ghost use Rattle.lp_cells.specs.Whole.{whole};
ghost use Rattle.lp_parts.specs.Pins.{pins_of};
ghost use Rattle.lp_parts.specs.Views.{Knows, by_frame, frame_view};

use crate::judge::reason_of;
use lp_attributes::{area, value};
use lp_model::{Cell, Group, PgPin, Pin, Reason, Roles, StateGroup};
use lp_parts::{
    Frame, arg_of, has_ground, is_switch, only_ground, only_power, pg_names, pgs_of, pins_of,
    roles_of, signal_names, state_of,
};
use lp_table::Table;
use lp_text::{NameId, Names, NoMemory};
use sqlite_items::Items;
use std::alloc::Global;

/// The frame of these names and pins.
#[tactic(auto, using(lp_parts::proofs::Viewed::kinds_same))]
fn frame_by(names: &Names, signals: Table, own: Table, pgs: Items<PgPin>, switch: bool) -> Frame
    ensures signals { result.signals ≡ signals }
    ensures own { result.names ≡ own }
    ensures pgs { result.pgs ≡ pgs }
    ensures same { frame_view names.now result ≡ scope_by signals own (map (pg_pin_view names.now) pgs) switch }
{
    let _names = names;
    let power = only_power(pgs.as_slice());
    let gnd = only_ground(pgs.as_slice());
    let floating = switch && !has_ground(pgs.as_slice());
    Frame {
        signals,
        names: own,
        pgs,
        power,
        gnd,
        floating,
    }
}

/// What the pins of a cell are read by.
fn frame_of(
    alloc: Global,
    names: &Names,
    place: usize,
    head: &Group,
    groups: &[Group],
) -> Result<Frame, NoMemory>
    requires empty { IsTrue (has_text [] names.now) }
    ensures same { IfOk result (λ f. frame_view names.now f ≡ scope_of place (group_view names.now head.now) (map (group_view names.now) groups.now)) }
    ensures knows { IfOk result (Knows names.now) }
{
    let switch = is_switch(alloc, names, head)?;
    let signals = signal_names(alloc, names, place, groups)?;
    let own = pg_names(alloc, names, place, groups)?;
    let pgs = pgs_of(alloc, names, place, &signals, &own, groups)?;
    Ok(frame_by(names, signals, own, pgs, switch))
}

/// What a cell has besides its power and ground pins.
#[derive(Drop)]
struct Parts {
    name: NameId,
    area: u64,
    pins: Items<Pin>,
    state: Option<StateGroup>,
    roles: Roles,
    unusable: Option<Reason>,
}

/// The signal pins of a cell, and why it cannot be used, none where it can.
fn judged_pins(
    alloc: Global,
    names: &Names,
    place: usize,
    frame: &Frame,
    head: &Group,
    groups: &[Group],
) -> Result<(Items<Pin>, Option<Reason>), NoMemory>
    requires empty { IsTrue (has_text [] names.now) }
    requires knows { Knows names.now frame.now }
    ensures pins { IfOk result (λ r. map (pin_view names.now) r.0 ≡ pins_of place (frame_view names.now frame.now) (map (group_view names.now) groups.now)) }
    ensures below { IfOk result (λ r. numbers_below (length names.now) (flat_map pin_numbers r.0) ≡ true) }
    ensures reason { IfOk result (λ r. r.1 ≡ by_frame (reason_of place) names.now frame.now head.now groups.now (map (pin_view names.now) r.0)) }
{
    let pins = pins_of(alloc, names, place, frame, groups)?;
    let unusable = reason_of(alloc, names, place, frame, head, groups, pins.as_slice())?;
    Ok((pins, unusable))
}

/// What a cell that is read by a frame has besides its power and ground pins.
///
/// The frame is lent here and given up by the caller: where one function does both for each part, the check of borrows
/// is dear.
fn parts_of(
    alloc: Global,
    names: &Names,
    place: usize,
    frame: &Frame,
    head: &Group,
    groups: &[Group],
) -> Result<Parts, NoMemory>
    requires empty { IsTrue (has_text [] names.now) }
    requires knows { Knows names.now frame.now }
    ensures same { IfOk result (λ p. cell_view names.now (whole frame.now.pgs p) ≡ by_frame (cell_by place) names.now frame.now head.now groups.now) }
    ensures below { IfOk result (λ p. numbers_below (length names.now) (cell_numbers (whole frame.now.pgs p)) ≡ true) }
{
    let name = arg_of(names, head, 0);
    let area = area(&value(alloc, names, head, "area")?);
    let judged = judged_pins(alloc, names, place, frame, head, groups)?;
    let state = state_of(alloc, names, place, frame, groups)?;
    let roles = roles_of(alloc, names, place, &frame.names, head, groups)?;
    Ok(Parts {
        name,
        area,
        pins: judged.0,
        state,
        roles,
        unusable: judged.1,
    })
}

/// The cell of the power and ground pins of a frame and of these other parts.
fn with_parts(frame: Frame, parts: Parts) -> Cell
    ensures { result ≡ whole frame.pgs parts }
{
    Cell {
        name: parts.name,
        area: parts.area,
        pgs: frame.pgs,
        pins: parts.pins,
        state: parts.state,
        roles: parts.roles,
        unusable: parts.unusable,
    }
}

/// The cell of a group that is read by a frame.
fn cell_by(
    alloc: Global,
    names: &Names,
    place: usize,
    frame: Frame,
    head: &Group,
    groups: &[Group],
) -> Result<Cell, NoMemory>
    requires empty { IsTrue (has_text [] names.now) }
    requires knows { Knows names.now frame }
    ensures same { IfOk result (λ c. cell_view names.now c ≡ by_frame (cell_by place) names.now frame head.now groups.now) }
    ensures below { IfOk result (λ c. numbers_below (length names.now) (cell_numbers c) ≡ true) }
{
    match parts_of(alloc, names, place, &frame, head, groups) {
        Ok(parts) => Ok(with_parts(frame, parts)),
        Err(NoMemory) => Err(NoMemory),
    }
}

/// The cell of the group of a number, with the groups inside of it.
#[tactic(auto, unfolding(crate::specs::Cells::cell_of))]
pub(crate) fn cell_of(
    alloc: Global,
    names: &Names,
    place: usize,
    head: &Group,
    groups: &[Group],
) -> Result<Cell, NoMemory>
    requires empty { IsTrue (has_text [] names.now) }
    ensures same { IfOk result (λ c. cell_view names.now c ≡ cell_of place (group_view names.now head.now) (map (group_view names.now) groups.now)) }
    ensures below { IfOk result (λ c. numbers_below (length names.now) (cell_numbers c) ≡ true) }
{
    let frame = frame_of(alloc, names, place, head, groups)?;
    cell_by(alloc, names, place, frame, head, groups)
}
