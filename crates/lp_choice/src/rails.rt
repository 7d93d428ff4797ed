ghost use Rattle.std.specs.Prelude.{◌≡◌, ◌++◌, bytes_eq, length, map, IfOk, OnOk};
ghost use Rattle.std.specs.Option.{option_map};
ghost use Rattle.lp_text.specs.Texts.{text_at};
ghost use Rattle.lp_text.specs.declared.names.NameId.{NameId};
ghost use Rattle.lp_spec_pins.specs.Pins as pins;
ghost use Rattle.lp_choice.specs.Rails.{origins_of, rail_of, rail_wire};

use crate::keys::slot_of;
use crate::wires::Wire;
use lp_model::{PgKind, PgPin};
use lp_text::{NameId, Names, NoMemory};
use std::alloc::Global;

/// To what a power or ground pin is joined.
#[derive(Clone, Copy)]
pub(crate) struct Rail {
    /// The supply origin.
    pub(crate) origin: u64,
    /// Whether it is a power pin, which is 1 where the origin is on; a ground pin is 0 there.
    pub(crate) power: bool,
}

/// The text of a name, the empty text for a number beyond the table.
fn text_of<'a>(names: &'a Names, name: NameId) -> &'a str
    ensures { result.now ≡ text_at names.now name.0 }
{
    if name.0 < names.count() {
        names.text(name)
    } else {
        ""
    }
}

/// Whether two names have one text.
pub(crate) fn are_same(names: &Names, a: NameId, b: NameId) -> bool
    ensures { result ≡ bytes_eq (text_at names.now a.0) (text_at names.now b.0) }
{
    text_of(names, a) == text_of(names, b)
}

/// Whether a pin of this type counts as a power pin; the others count as ground pins.
fn is_power(kind: PgKind) -> bool
    ensures { result ≡ pins.is_power kind }
{
    match kind {
        PgKind::PrimaryPower
        | PgKind::BackupPower
        | PgKind::InternalPower
        | PgKind::Nwell
        | PgKind::Deepnwell => true,
        PgKind::PrimaryGround
        | PgKind::BackupGround
        | PgKind::InternalGround
        | PgKind::Pwell
        | PgKind::Deeppwell => false,
    }
}

/// The rail of the first power or ground pin with the text of a name.
fn rail_of(names: &Names, pgs: &[PgPin], origins: &[Option<u64>], name: NameId) -> Option<Rail>
    requires { length origins.now ≡ length pgs.now }
    ensures { result ≡ rail_of names.now pgs.now origins.now name }
{
    for i in 0..pgs.len() {
        if are_same(names, pgs[i].name, name) {
            return joined(origins[i], is_power(pgs[i].kind));
        }
    }
    None
}

/// The rail of an origin, if there is one.
fn joined(origin: Option<u64>, power: bool) -> Option<Rail>
    ensures { result ≡ option_map (λ k. record { origin = k; power = power }) origin }
{
    match origin {
        Some(origin) => Some(Rail { origin, power }),
        None => None,
    }
}

/// The origins of the pins with the texts of names.
pub(crate) fn origins_of(
    alloc: Global,
    names: &Names,
    pgs: &[PgPin],
    origins: &[Option<u64>],
    variables: &[NameId],
) -> Result<Vec<u64>, NoMemory>
    requires { length origins.now ≡ length pgs.now }
    ensures { IfOk result (λ v. v.items ≡ origins_of names.now pgs.now origins.now variables.now) }
{
    let mut found = Vec::new(alloc);
    for name in variables {
        if let Some(rail) = rail_of(names, pgs, origins, *name) {
            found.push(rail.origin)?;
        }
    }
    Ok(found)
}

/// The wires of the pins with the texts of names.
pub(crate) fn rail_wires(
    alloc: Global,
    names: &Names,
    pgs: &[PgPin],
    origins: &[Option<u64>],
    keys: &[u64],
    variables: &[NameId],
) -> Result<Vec<Wire>, NoMemory>
    requires { length origins.now ≡ length pgs.now }
    ensures { IfOk result (λ v. v.items ≡ map (λ (n : NameId). rail_wire keys.now (rail_of names.now pgs.now origins.now n)) variables.now) }
{
    let mut wires = Vec::new(alloc);
    for name in variables {
        let rail = rail_of(names, pgs, origins, *name);
        wires.push(rail_wire(keys, rail))?;
    }
    Ok(wires)
}

/// The wire of a rail; 0 where there is none.
fn rail_wire(keys: &[u64], rail: Option<Rail>) -> Wire
    ensures { result ≡ rail_wire keys.now rail }
{
    match rail {
        Some(rail) => Wire {
            slot: slot_of(keys, rail.origin),
            negated: !rail.power,
        },
        None => Wire {
            slot: None,
            negated: false,
        },
    }
}
