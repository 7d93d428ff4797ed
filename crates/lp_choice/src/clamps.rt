ghost use Rattle.std.specs.Prelude.{◌≡◌, Some, length, is_some, slice_get, IfOk};
ghost use Rattle.std.specs.List.{list_all, list_any};
ghost use Rattle.lp_spec_fit.specs.Joins as joins;
ghost use Rattle.lp_choice.specs.Wanted.{clamp_steps, off_steps, of_two};
ghost use Rattle.lp_choice.specs.Clamps.{clamp_fits, clamp_origin, clamp_origins, grounds_to, is_backup, is_clamp, joins_to, only_isolates, pins_clamp, relates};

use crate::down::down_agrees;
use crate::functions::has_function;
use crate::parts::{Part, only_pin};
use lp_expr::Expr;
use lp_model::{Cell, IsoNeed, PgKind, PgPin, Pin, Roles, SetOrigins};
use lp_text::{Names, NoMemory};
use std::alloc::Global;

/// Whether a cell fits a clamp, apart from its name. `wanted` is what the clamp gives of its data and its enable, `off`
/// that a supply is not on.
pub(crate) fn clamp_fits(
    alloc: Global,
    names: &Names,
    need: &IsoNeed,
    wanted: &Expr,
    off: &Expr,
    cell: &Cell,
) -> Result<bool, NoMemory>
    requires wanted { wanted.now ≡ of_two (clamp_steps need.now.clamp need.now.high) }
    requires off { off.now ≡ of_two off_steps }
    ensures { IfOk result (λ b. b ≡ clamp_fits names.now need.now cell.now) }
{
    if !is_clamp(cell) {
        return Ok(false);
    }
    let pins = cell.pins.as_slice();
    let data = only_pin(pins, Part::ClampedData);
    let enable = only_pin(pins, Part::Enable);
    let output = only_pin(pins, Part::Output);
    match (data, enable, output) {
        (Some(data), Some(enable), Some(output)) => pins_clamp(
            alloc, names, need, wanted, off, cell, data, enable, output,
        ),
        _ => Ok(false),
    }
}

/// Whether it does with these pins.
fn pins_clamp(
    alloc: Global,
    names: &Names,
    need: &IsoNeed,
    wanted: &Expr,
    off: &Expr,
    cell: &Cell,
    given: &Pin,
    enable: &Pin,
    output: &Pin,
) -> Result<bool, NoMemory>
    requires wanted { wanted.now ≡ of_two (clamp_steps need.now.clamp need.now.high) }
    requires off { off.now ≡ of_two off_steps }
    ensures { IfOk result (λ b. b ≡ pins_clamp names.now need.now cell.now (Some given.now) (Some enable.now) (Some output.now)) }
{
    let inputs = [given.name, enable.name];
    if !has_function(alloc, names, &inputs, wanted, &output.function)? {
        return Ok(false);
    }
    let pgs = cell.pgs.as_slice();
    let origins = clamp_origins(alloc, need, pgs)?;
    let origins = origins.as_slice();
    if !all_relate(origins, need.supply, cell.pins.as_slice()) || !are_joined(origins) {
        return Ok(false);
    }
    let set = [need.supply.power.0 as u64, need.supply.gnd.0 as u64];
    down_agrees(alloc, names, pgs, origins, &set, off, &output.power_down)
}

/// Whether a cell only isolates, and has three pins.
fn is_clamp(cell: &Cell) -> bool
    ensures { result ≡ is_clamp cell.now }
{
    cell.unusable.is_none()
        && only_isolates(&cell.roles)
        && cell.state.is_none()
        && cell.pins.len() == 3
}

/// Whether isolation is the one part of a cell.
fn only_isolates(roles: &Roles) -> bool
    ensures { result ≡ only_isolates roles.now }
{
    roles.iso && roles.shifter.is_none() && roles.retention.is_none() && !roles.switch
}

/// The origins of the power and ground pins of a clamp.
fn clamp_origins(alloc: Global, need: &IsoNeed, pgs: &[PgPin]) -> Result<Vec<Option<u64>>, NoMemory>
    ensures origins { IfOk result (λ v. v.items ≡ clamp_origins need.now pgs.now) }
    ensures many { IfOk result (λ v. length v.items ≡ length pgs.now) }
{
    let backup = has_backup(pgs);
    let mut origins = Vec::new(alloc);
    for pg in pgs {
        origins.push(clamp_origin(need, backup, pg))?;
    }
    Ok(origins)
}

/// Whether there is a backup power pin.
fn has_backup(pgs: &[PgPin]) -> bool
    ensures { result ≡ list_any is_backup pgs.now }
{
    pgs.iter().any(|pg| matches!(pg.kind, PgKind::BackupPower))
}

/// The origin of a power or ground pin of a clamp.
fn clamp_origin(need: &IsoNeed, backup: bool, pg: &PgPin) -> Option<u64>
    ensures { result ≡ clamp_origin need.now backup pg.now }
{
    let supply = need.supply.power.0 as u64;
    if backup {
        let place = need.place.power.0 as u64;
        by_kind(Some(place), Some(supply), need.place, pg.kind)
    } else {
        by_kind(Some(supply), None, need.supply, pg.kind)
    }
}

/// The origin of a power or ground pin by its type.
pub(crate) fn by_kind(
    primary: Option<u64>,
    backup: Option<u64>,
    set: SetOrigins,
    kind: PgKind,
) -> Option<u64>
    ensures { result ≡ joins.by_kind primary backup set kind }
{
    match kind {
        PgKind::PrimaryPower => primary,
        PgKind::BackupPower => backup,
        PgKind::InternalPower => None,
        PgKind::PrimaryGround | PgKind::BackupGround | PgKind::InternalGround => Some(
            set.gnd.0 as u64,
        ),
        PgKind::Nwell => Some(set.nwell.0 as u64),
        PgKind::Pwell => Some(set.pwell.0 as u64),
        PgKind::Deepnwell => Some(set.deepnwell.0 as u64),
        PgKind::Deeppwell => Some(set.deeppwell.0 as u64),
    }
}

/// Whether the related pins of all signal pins are joined to a set.
fn all_relate(origins: &[Option<u64>], set: SetOrigins, pins: &[Pin]) -> bool
    ensures { result ≡ list_all (relates origins.now set) pins.now }
{
    pins.iter().all(|pin| relates(origins, set, pin))
}

/// Whether the related pins of a signal pin are joined to a set.
pub(crate) fn relates(origins: &[Option<u64>], set: SetOrigins, pin: &Pin) -> bool
    ensures { result ≡ relates origins.now set pin.now }
{
    joins_to(set.power.0 as u64, origins, pin.power)
        && grounds_to(origins, set.gnd.0 as u64, pin.gnd)
}

/// Whether the ground pin of a number is joined to an origin.
fn grounds_to(origins: &[Option<u64>], origin: u64, gnd: Option<u8>) -> bool
    ensures { result ≡ grounds_to origins.now origin gnd }
{
    match gnd {
        Some(place) => joins_to(origin, origins, place),
        None => false,
    }
}

/// Whether the pin of a number is joined to an origin.
fn joins_to(origin: u64, origins: &[Option<u64>], place: u8) -> bool
    ensures { result ≡ joins_to origin (slice_get origins.now place) }
{
    match origins.get(place as usize) {
        Some(Some(joined)) => origin == *joined,
        _ => false,
    }
}

/// Whether each pin has an origin.
pub(crate) fn are_joined(origins: &[Option<u64>]) -> bool
    ensures { result ≡ list_all is_some origins.now }
{
    origins.iter().all(|origin| origin.is_some())
}
