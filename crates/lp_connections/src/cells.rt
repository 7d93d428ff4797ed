ghost use Rattle.std.specs.Prelude.{◌≡◌};
ghost use Rattle.lp_spec_faults.specs.Modules.{is_backup, is_internal};
ghost use Rattle.lp_connections.specs.Numbered.{has_kind, reason_by_role, reason_of, unfit_reason_of, cell_fault};

use crate::design::Design;
use lp_model::{Cell, Instance, InstanceRef, NetlistFault, PgKind, PgPin, UnfitReason};
use lp_targets::Target;
use lp_text::NameId;

fn is_backup(kind: PgKind) -> bool
    ensures { result ≡ is_backup kind }
{
    matches!(kind, PgKind::BackupPower | PgKind::BackupGround)
}

fn is_internal(kind: PgKind) -> bool
    ensures { result ≡ is_internal kind }
{
    matches!(kind, PgKind::InternalPower | PgKind::InternalGround)
}

/// Whether one of these is a backup pin.
fn has_backup(pgs: &[PgPin]) -> bool
    ensures { result ≡ has_kind is_backup pgs.now }
{
    for pg in pgs {
        if is_backup(pg.kind) {
            return true;
        }
    }
    false
}

/// Whether one of these is an internal pin.
fn has_internal(pgs: &[PgPin]) -> bool
    ensures { result ≡ has_kind is_internal pgs.now }
{
    for pg in pgs {
        if is_internal(pg.kind) {
            return true;
        }
    }
    false
}

/// Why a source may not have a cell that can be used.
fn reason_by_role(cell: &Cell) -> Option<UnfitReason>
    ensures { result ≡ reason_by_role cell.now }
{
    if cell.roles.shifter.is_some() {
        Some(UnfitReason::Shifter)
    } else if cell.roles.retention.is_some() {
        Some(UnfitReason::RetentionCell)
    } else if cell.roles.switch {
        Some(UnfitReason::SwitchCell)
    } else if has_backup(cell.pgs.as_slice()) {
        Some(UnfitReason::Backup)
    } else if has_internal(cell.pgs.as_slice()) {
        Some(UnfitReason::Internal)
    } else {
        None
    }
}

/// Why a source may not have a cell.
fn reason_of(cell: &Cell) -> Option<UnfitReason>
    ensures { result ≡ reason_of cell.now }
{
    match cell.unusable {
        Some(reason) => Some(UnfitReason::Unusable(reason)),
        None => reason_by_role(cell),
    }
}

/// Why a source may not have what an instance is of.
fn unfit_reason(design: &Design, target: &Target) -> Option<UnfitReason>
    ensures { result ≡ unfit_reason_of design.now target.now }
{
    match target {
        Target::OfModule(_) => None,
        Target::OfCell(place) => match design.cell(*place) {
            Some(cell) => reason_of(cell),
            None => None,
        },
    }
}

/// An instance is of a cell that a source may not have.
pub(crate) fn cell_fault(
    design: &Design,
    parent: NameId,
    target: &Target,
    instance: &Instance,
) -> Option<NetlistFault>
    ensures { result ≡ cell_fault design.now parent target.now instance.now }
{
    match unfit_reason(design, target) {
        Some(reason) => {
            let at = InstanceRef {
                parent,
                instance: instance.name,
            };
            Some(NetlistFault::UnfitCell { at, reason })
        }
        None => None,
    }
}
