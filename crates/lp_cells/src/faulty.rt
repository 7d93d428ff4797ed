ghost use Rattle.std.specs.Prelude.{◌≡◌, ◌||◌, Some, IfOk, is_some, map};
ghost use Rattle.std.specs.List.{list_any};
ghost use Rattle.lp_model.specs.Agreement.{name_texts};
ghost use Rattle.lp_model.specs.GroupsView.{group_view};
ghost use Rattle.lp_cells.specs.Reasons.{has_bad_related, has_bad_retention, has_no_direction, has_no_kind, is_action, is_direction, is_grounded, is_powered, is_related, names_ground, names_power, retains_well};
ghost use Rattle.lp_parts.specs.Views.{frame_view};

use lp_attributes::{direction, has, value, values};
use lp_model::{Group, PgPin};
use lp_parts::{
    Frame, action_of, class_of, is_ground, is_part, is_pin, is_power, kind_of, restores, saves,
};
use lp_text::{NameId, Names, NoMemory, Word};
use std::alloc::Global;

/// Whether a group is a power or ground pin without a known type.
fn has_no_kind(alloc: Global, names: &Names, place: usize, group: &Group) -> Result<bool, NoMemory>
    ensures { IfOk result (λ b. b ≡ has_no_kind place (group_view names.now group.now)) }
{
    if !is_part(names, place, group, "pg_pin") {
        return Ok(false);
    }
    Ok(kind_of(alloc, names, group)?.is_none())
}

/// Whether a power or ground pin has no known type.
pub(crate) fn any_without_kind(
    alloc: Global,
    names: &Names,
    place: usize,
    groups: &[Group],
) -> Result<bool, NoMemory>
    ensures { IfOk result (λ b. b ≡ list_any (has_no_kind place) (map (group_view names.now) groups.now)) }
{
    for group in groups {
        if has_no_kind(alloc, names, place, group)? {
            return Ok(true);
        }
    }
    Ok(false)
}

/// Whether a value is a direction.
fn is_direction(value: &Option<Word>) -> bool
    ensures { result ≡ is_direction value.now }
{
    match value {
        None => false,
        Some(text) => direction(text.text()).is_some(),
    }
}

/// Whether a group makes pins without a known direction.
fn has_no_direction(
    alloc: Global,
    names: &Names,
    place: usize,
    group: &Group,
) -> Result<bool, NoMemory>
    ensures { IfOk result (λ b. b ≡ has_no_direction place (group_view names.now group.now)) }
{
    if !is_pin(names, place, group) {
        return Ok(false);
    }
    Ok(!is_direction(&value(alloc, names, group, "direction")?))
}

/// Whether a pin has no known direction.
pub(crate) fn any_without_direction(
    alloc: Global,
    names: &Names,
    place: usize,
    groups: &[Group],
) -> Result<bool, NoMemory>
    ensures { IfOk result (λ b. b ≡ list_any (has_no_direction place) (map (group_view names.now) groups.now)) }
{
    for group in groups {
        if has_no_direction(alloc, names, place, group)? {
            return Ok(true);
        }
    }
    Ok(false)
}

/// Whether a place is that of a power pin.
fn names_power(pgs: &[PgPin], place: Option<usize>) -> bool
    ensures { result ≡ names_power (map (λ p. p.kind) pgs.now) place }
{
    match place {
        None => false,
        Some(place) => match pgs.get(place) {
            None => false,
            Some(pg) => is_power(pg.kind),
        },
    }
}

/// Whether a place is that of a ground pin.
fn names_ground(pgs: &[PgPin], place: Option<usize>) -> bool
    ensures { result ≡ names_ground (map (λ p. p.kind) pgs.now) place }
{
    match place {
        None => false,
        Some(place) => match pgs.get(place) {
            None => false,
            Some(pg) => is_ground(pg.kind),
        },
    }
}

/// Whether the related power pin is as it has to be.
fn is_powered(frame: &Frame, value: &Option<Word>) -> bool
    ensures { result ≡ is_powered (map (λ p. p.kind) frame.now.pgs) frame.now.names (is_some frame.now.power) value.now }
{
    match value {
        None => frame.power.is_some(),
        Some(name) => {
            let place = frame.names.find(name.text().as_bytes());
            names_power(frame.pgs.as_slice(), place)
        }
    }
}

/// Whether the related ground pin is as it has to be.
fn is_grounded(frame: &Frame, value: &Option<Word>) -> bool
    ensures { result ≡ is_grounded (map (λ p. p.kind) frame.now.pgs) frame.now.names (frame.now.floating || is_some frame.now.gnd) value.now }
{
    match value {
        None => frame.floating || frame.gnd.is_some(),
        Some(name) => {
            let place = frame.names.find(name.text().as_bytes());
            names_ground(frame.pgs.as_slice(), place)
        }
    }
}

/// Whether both related pins are as they have to be.
#[tactic(auto, using(lp_parts::proofs::Viewed::kinds_same))]
fn is_related(alloc: Global, names: &Names, frame: &Frame, group: &Group) -> Result<bool, NoMemory>
    ensures { IfOk result (λ b. b ≡ is_related (frame_view names.now frame.now) (group_view names.now group.now)) }
{
    let power = value(alloc, names, group, "related_power_pin")?;
    let gnd = value(alloc, names, group, "related_ground_pin")?;
    Ok(is_powered(frame, &power) && is_grounded(frame, &gnd))
}

/// Whether a group makes pins whose related pins are not as they have to be.
fn has_bad_related(
    alloc: Global,
    names: &Names,
    place: usize,
    frame: &Frame,
    group: &Group,
) -> Result<bool, NoMemory>
    ensures { IfOk result (λ b. b ≡ has_bad_related place (frame_view names.now frame.now) (group_view names.now group.now)) }
{
    if !is_pin(names, place, group) {
        return Ok(false);
    }
    Ok(!is_related(alloc, names, frame, group)?)
}

/// Whether a related pin is not as it has to be.
pub(crate) fn any_unrelated(
    alloc: Global,
    names: &Names,
    place: usize,
    frame: &Frame,
    groups: &[Group],
) -> Result<bool, NoMemory>
    ensures { IfOk result (λ b. b ≡ list_any (has_bad_related place (frame_view names.now frame.now)) (map (group_view names.now) groups.now)) }
{
    for group in groups {
        if has_bad_related(alloc, names, place, frame, group)? {
            return Ok(true);
        }
    }
    Ok(false)
}

/// Whether an action is known, or missing where it may be.
fn is_action(
    alloc: Global,
    names: &Names,
    needed: bool,
    group: &Group,
    word: &str,
) -> Result<bool, NoMemory>
    ensures { IfOk result (λ b. b ≡ is_action needed word.now (group_view names.now group.now)) }
{
    if action_of(alloc, names, group, word)?.is_some() {
        return Ok(true);
    }
    Ok(!needed && !has(names, group, word))
}

/// Whether a retention pin has the actions of its class, and no others that are unknown.
fn retains_well(
    alloc: Global,
    names: &Names,
    group: &Group,
    values: &[NameId],
) -> Result<bool, NoMemory>
    ensures { IfOk result (λ b. b ≡ retains_well (group_view names.now group.now) (Some (name_texts names.now values.now))) }
{
    match class_of(names, values) {
        None => Ok(false),
        Some(class) => {
            let saved = is_action(alloc, names, saves(class), group, "save_action")?;
            let restored = is_action(alloc, names, restores(class), group, "restore_action")?;
            Ok(saved && restored)
        }
    }
}

/// Whether a group makes a retention pin without the actions of its class.
fn has_bad_retention(
    alloc: Global,
    names: &Names,
    place: usize,
    group: &Group,
) -> Result<bool, NoMemory>
    ensures { IfOk result (λ b. b ≡ has_bad_retention place (group_view names.now group.now)) }
{
    if !is_pin(names, place, group) {
        return Ok(false);
    }
    match values(names, group, "retention_pin") {
        None => Ok(false),
        Some(values) => Ok(!retains_well(alloc, names, group, values)?),
    }
}

/// Whether a retention pin lacks the actions of its class.
pub(crate) fn any_bad_retention(
    alloc: Global,
    names: &Names,
    place: usize,
    groups: &[Group],
) -> Result<bool, NoMemory>
    ensures { IfOk result (λ b. b ≡ list_any (has_bad_retention place) (map (group_view names.now) groups.now)) }
{
    for group in groups {
        if has_bad_retention(alloc, names, place, group)? {
            return Ok(true);
        }
    }
    Ok(false)
}
