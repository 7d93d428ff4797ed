ghost use Rattle.std.specs.Prelude.{◌≡◌, [], ◌++◌, IfOk, IsTrue, OnOk, map};
ghost use Rattle.std.specs.List.{list_all, list_any};
ghost use Rattle.std.specs.Option.{option_map};
ghost use Rattle.lp_text.specs.Texts.{has_text, text_at};
ghost use Rattle.lp_model.specs.Agreement.{name_texts};
ghost use Rattle.lp_model.specs.GroupsView.{group_view};
ghost use Rattle.lp_model.specs.LibraryView.{pin_view};
ghost use Rattle.lp_parts.specs.Source.{arg_at};
ghost use Rattle.lp_cells.specs.Reasons.{Judges, has_bad_name, has_bad_pg, has_construct, is_bus_name, is_free, is_visible, is_visible_byte, lacks_copy, lacks_pgs, late_reason, middle_reason, reason_by, reason_of, repeated};
ghost use Rattle.lp_parts.specs.Views.{Knows, by_frame};

use crate::faulty::{any_bad_retention, any_unrelated, any_without_direction, any_without_kind};
use crate::reading::all_read;
use crate::structure::{any_construct, has_bad_range, has_condition, has_two_states};
use lp_attributes::text_of;
use lp_model::{Group, PgPin, Pin, Reason};
use lp_parts::{
    Frame, arg_of, copy_of, has_primary_ground, has_primary_power, is_retention, is_switch,
};
use lp_table::Table;
use lp_text::{NameId, Names, NoMemory};
use sqlite_items::Items;
use std::alloc::Global;

/// The most power and ground pins of a cell.
const MOST_PGS: usize = 8;

/// The most signal pins of a cell.
const MOST_PINS: usize = 240;

/// The first of some names that comes a second time.
pub(crate) fn repeated(
    alloc: Global,
    names: &Names,
    ids: &[NameId],
) -> Result<Option<NameId>, NoMemory>
    ensures { IfOk result (λ o. option_map (λ id. text_at names.now id.0) o ≡ repeated [] (name_texts names.now ids.now)) }
{
    let mut met = Table::new(alloc);
    for id in ids {
        if !met.add(text_of(names, *id).as_bytes())? {
            return Ok(Some(*id));
        }
    }
    Ok(None)
}

/// Whether a byte is visible ASCII.
fn is_visible_byte(byte: u8) -> bool
    ensures { result ≡ is_visible_byte byte }
{
    33 <= byte && byte <= 126
}

/// Whether all bytes are visible ASCII.
fn have_visible(bytes: &[u8]) -> bool
    ensures { result ≡ list_all is_visible_byte bytes.now }
{
    bytes.iter().all(|byte| is_visible_byte(*byte))
}

/// Whether a name is not empty and all of it is visible ASCII.
fn is_visible(name: &str) -> bool
    ensures { result ≡ is_visible name.now }
{
    let bytes = name.as_bytes();
    !bytes.is_empty() && have_visible(bytes)
}

/// Whether a cell may have a name.
fn is_free(name: &str) -> bool
    ensures { result ≡ is_free name.now }
{
    is_visible(name) && !name.as_bytes().starts_with(b"lp_")
}

/// Whether all names are visible.
fn are_visible(names: &Names, ids: &[NameId]) -> bool
    ensures { result ≡ list_all is_visible (name_texts names.now ids.now) }
{
    for id in ids {
        if !is_visible(text_of(names, *id)) {
            return false;
        }
    }
    true
}

/// Adds the names of pins.
fn push_pin_names(ids: &mut Vec<NameId>, pins: &[Pin]) -> Result<(), NoMemory>
    ensures { OnOk result (ids.new.items ≡ ids.old.items ++ map (λ p. p.name) pins.now) }
{
    for pin in pins {
        ids.push(pin.name)?;
    }
    Ok(())
}

/// Adds the names of power and ground pins.
fn push_pg_names(ids: &mut Vec<NameId>, pgs: &[PgPin]) -> Result<(), NoMemory>
    ensures { OnOk result (ids.new.items ≡ ids.old.items ++ map (λ p. p.name) pgs.now) }
{
    for pg in pgs {
        ids.push(pg.name)?;
    }
    Ok(())
}

/// The names of pins.
fn pin_ids(alloc: Global, pins: &[Pin]) -> Result<Vec<NameId>, NoMemory>
    ensures { IfOk result (λ ids. ids.items ≡ map (λ p. p.name) pins.now) }
{
    let mut ids = Vec::new(alloc);
    push_pin_names(&mut ids, pins)?;
    Ok(ids)
}

/// The names of pins, and those of power and ground pins.
fn all_ids(alloc: Global, pins: &[Pin], pgs: &Items<PgPin>) -> Result<Vec<NameId>, NoMemory>
    ensures { IfOk result (λ ids. ids.items ≡ map (λ p. p.name) pins.now ++ map (λ p. p.name) pgs.now) }
{
    let mut ids = Vec::new(alloc);
    push_pin_names(&mut ids, pins)?;
    push_pg_names(&mut ids, pgs.as_slice())?;
    Ok(ids)
}

/// Whether the name of a cell or of one of its pins may not be.
fn has_bad_name(names: &Names, head: &Group, ids: &[NameId]) -> bool
    requires { IsTrue (has_text [] names.now) }
    ensures { result ≡ has_bad_name (arg_at 0 (group_view names.now head.now)) (name_texts names.now ids.now) }
{
    let cell = arg_of(names, head, 0);
    !(is_free(text_of(names, cell)) && are_visible(names, ids))
}

/// Whether the power and ground pins are not those of a cell.
fn lacks_pgs(switch: bool, pgs: &[PgPin]) -> bool
    ensures { result ≡ lacks_pgs switch (map (λ p. p.kind) pgs.now) }
{
    pgs.len() > MOST_PGS || !has_primary_power(pgs) || (!switch && !has_primary_ground(pgs))
}

/// Whether the power and ground pins are not as they have to be.
fn has_bad_pg(
    alloc: Global,
    names: &Names,
    place: usize,
    head: &Group,
    groups: &[Group],
    pgs: &[PgPin],
) -> Result<bool, NoMemory>
    ensures { IfOk result (λ b. b ≡ has_bad_pg place (group_view names.now head.now) (map (group_view names.now) groups.now) (map (λ p. p.kind) pgs.now)) }
{
    if any_without_kind(alloc, names, place, groups)? {
        return Ok(true);
    }
    let switch = is_switch(alloc, names, head)?;
    Ok(lacks_pgs(switch, pgs))
}

/// Whether a retention cell lacks the function of its copy.
fn lacks_copy(
    alloc: Global,
    names: &Names,
    place: usize,
    head: &Group,
    groups: &[Group],
) -> Result<bool, NoMemory>
    ensures { IfOk result (λ b. b ≡ lacks_copy place (group_view names.now head.now) (map (group_view names.now) groups.now)) }
{
    if !is_retention(names, head) {
        return Ok(false);
    }
    Ok(copy_of(alloc, names, place, groups)?.is_none())
}

/// Whether a name is that of a bus pin.
fn is_bus_name(name: &str) -> bool
    ensures { result ≡ is_bus_name name.now }
{
    name.as_bytes().iter().any(|byte| *byte == b':')
}

/// Whether one of some names is that of a bus pin.
fn has_bus(names: &Names, ids: &[NameId]) -> bool
    ensures { result ≡ list_any is_bus_name (name_texts names.now ids.now) }
{
    for id in ids {
        if is_bus_name(text_of(names, *id)) {
            return true;
        }
    }
    false
}

/// Whether a cell is, or has, a construct that is not taken.
fn has_construct(
    names: &Names,
    place: usize,
    head: &Group,
    groups: &[Group],
    pins: &[NameId],
) -> bool
    ensures { result ≡ has_construct place (group_view names.now head.now) (map (group_view names.now) groups.now) (name_texts names.now pins.now) }
{
    pins.len() > MOST_PINS
        || has_bus(names, pins)
        || has_condition(names, head)
        || any_construct(names, place, groups)
}

/// The first reason from the functions on.
fn late_reason(
    alloc: Global,
    names: &Names,
    place: usize,
    frame: &Frame,
    head: &Group,
    groups: &[Group],
    pins: &[NameId],
) -> Result<Option<Reason>, NoMemory>
    requires { Knows names.now frame.now }
    ensures { Judges result (by_frame (late_reason place) names.now frame.now head.now groups.now (name_texts names.now pins.now)) }
{
    if !all_read(alloc, names, place, frame, groups)? {
        return Ok(Some(Reason::Function));
    }
    if has_bad_range(names, head) {
        return Ok(Some(Reason::Range));
    }
    if has_two_states(names, place, groups) {
        return Ok(Some(Reason::Groups));
    }
    if lacks_copy(alloc, names, place, head, groups)? {
        return Ok(Some(Reason::Retention));
    }
    if any_bad_retention(alloc, names, place, groups)? {
        return Ok(Some(Reason::Retention));
    }
    if has_construct(names, place, head, groups, pins) {
        return Ok(Some(Reason::Construct));
    }
    Ok(None)
}

/// The first reason from the power and ground pins on.
#[tactic(auto, using(lp_parts::proofs::Viewed::kinds_same))]
fn middle_reason(
    alloc: Global,
    names: &Names,
    place: usize,
    frame: &Frame,
    head: &Group,
    groups: &[Group],
    pins: &[NameId],
) -> Result<Option<Reason>, NoMemory>
    requires { Knows names.now frame.now }
    ensures { Judges result (by_frame (middle_reason place) names.now frame.now head.now groups.now (name_texts names.now pins.now)) }
{
    if has_bad_pg(alloc, names, place, head, groups, frame.pgs.as_slice())? {
        return Ok(Some(Reason::Pg));
    }
    if any_without_direction(alloc, names, place, groups)? {
        return Ok(Some(Reason::Direction));
    }
    if any_unrelated(alloc, names, place, frame, groups)? {
        return Ok(Some(Reason::Related));
    }
    late_reason(alloc, names, place, frame, head, groups, pins)
}

/// The first reason, where the names of the pins and of all pins are these.
fn reason_by(
    alloc: Global,
    names: &Names,
    place: usize,
    frame: &Frame,
    head: &Group,
    groups: &[Group],
    pins: &[NameId],
    all: &[NameId],
) -> Result<Option<Reason>, NoMemory>
    requires empty { IsTrue (has_text [] names.now) }
    requires knows { Knows names.now frame.now }
    ensures { Judges result (by_frame (reason_by place) names.now frame.now head.now groups.now
        (name_texts names.now pins.now) (name_texts names.now all.now)) }
{
    if has_bad_name(names, head, all) {
        return Ok(Some(Reason::Name));
    }
    if repeated(alloc, names, all)?.is_some() {
        return Ok(Some(Reason::Twice));
    }
    middle_reason(alloc, names, place, frame, head, groups, pins)
}

/// Why a cell with these pins cannot be used, none where it can.
pub(crate) fn reason_of(
    alloc: Global,
    names: &Names,
    place: usize,
    frame: &Frame,
    head: &Group,
    groups: &[Group],
    pins: &[Pin],
) -> Result<Option<Reason>, NoMemory>
    requires empty { IsTrue (has_text [] names.now) }
    requires knows { Knows names.now frame.now }
    ensures { Judges result (by_frame (reason_of place) names.now frame.now head.now groups.now (map (pin_view names.now) pins.now)) }
{
    let pin_ids = pin_ids(alloc, pins)?;
    let all_ids = all_ids(alloc, pins, &frame.pgs)?;
    let own = pin_ids.as_slice();
    let all = all_ids.as_slice();
    reason_by(alloc, names, place, frame, head, groups, own, all)
}
