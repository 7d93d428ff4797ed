ghost use Rattle.std.specs.Prelude.{◌≡◌, map};
ghost use Rattle.std.specs.List.{list_any};
ghost use Rattle.lp_parts.specs.Functions.{is_ground, is_power};
ghost use Rattle.lp_parts.specs.Pins.{is_primary_ground, is_primary_power, only_place};

use lp_model::{PgKind, PgPin};
use lp_table::Table;
use sqlite_items::Items;

/// The names and the pins that the pins of a cell are read by.
#[derive(Drop)]
pub struct Frame {
    /// The names that a function may have.
    pub signals: Table,
    /// The names of the power and ground pins.
    pub names: Table,
    /// The power and ground pins.
    pub pgs: Items<PgPin>,
    /// The place of the only primary power pin.
    pub power: Option<usize>,
    /// The place of the only primary ground pin.
    pub gnd: Option<usize>,
    /// Whether the signal pins have no related ground pin.
    pub floating: bool,
}

/// Whether a pin is a power pin and no bias pin.
pub fn is_power(kind: PgKind) -> bool
    ensures { result ≡ is_power kind }
{
    matches!(
        kind,
        PgKind::PrimaryPower | PgKind::BackupPower | PgKind::InternalPower
    )
}

/// Whether a pin is a ground pin and no bias pin.
pub fn is_ground(kind: PgKind) -> bool
    ensures { result ≡ is_ground kind }
{
    matches!(
        kind,
        PgKind::PrimaryGround | PgKind::BackupGround | PgKind::InternalGround
    )
}

/// Whether a pin is a primary power pin.
fn is_primary_power(kind: PgKind) -> bool
    ensures { result ≡ is_primary_power kind }
{
    matches!(kind, PgKind::PrimaryPower)
}

/// Whether a pin is a primary ground pin.
fn is_primary_ground(kind: PgKind) -> bool
    ensures { result ≡ is_primary_ground kind }
{
    matches!(kind, PgKind::PrimaryGround)
}

/// The place of the only primary power pin.
#[tactic(auto, using(crate::proofs::Places::only_from_whole))]
pub fn only_power(pgs: &[PgPin]) -> Option<usize>
    ensures { result ≡ only_place is_primary_power (map (λ p. p.kind) pgs.now) }
{
    let mut found = None;
    for (place, pg) in pgs.iter().enumerate() {
        if is_primary_power(pg.kind) {
            if found.is_some() {
                return None;
            }
            found = Some(place);
        }
    }
    found
}

/// The place of the only primary ground pin.
#[tactic(auto, using(crate::proofs::Places::only_from_whole))]
pub fn only_ground(pgs: &[PgPin]) -> Option<usize>
    ensures { result ≡ only_place is_primary_ground (map (λ p. p.kind) pgs.now) }
{
    let mut found = None;
    for (place, pg) in pgs.iter().enumerate() {
        if is_primary_ground(pg.kind) {
            if found.is_some() {
                return None;
            }
            found = Some(place);
        }
    }
    found
}

/// Whether there is a ground pin that is no bias pin.
pub fn has_ground(pgs: &[PgPin]) -> bool
    ensures { result ≡ list_any is_ground (map (λ p. p.kind) pgs.now) }
{
    for pg in pgs {
        if is_ground(pg.kind) {
            return true;
        }
    }
    false
}

/// Whether there is a primary power pin.
pub fn has_primary_power(pgs: &[PgPin]) -> bool
    ensures { result ≡ list_any is_primary_power (map (λ p. p.kind) pgs.now) }
{
    for pg in pgs {
        if is_primary_power(pg.kind) {
            return true;
        }
    }
    false
}

/// Whether there is a primary ground pin.
pub fn has_primary_ground(pgs: &[PgPin]) -> bool
    ensures { result ≡ list_any is_primary_ground (map (λ p. p.kind) pgs.now) }
{
    for pg in pgs {
        if is_primary_ground(pg.kind) {
            return true;
        }
    }
    false
}
