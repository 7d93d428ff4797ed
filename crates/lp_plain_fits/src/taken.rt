ghost use Rattle.std.specs.Prelude.{◌≡◌, not};
ghost use Rattle.std.specs.List.{list_all};
ghost use Rattle.lp_spec_plain_netlist.specs.Fits.{is_extra};
ghost use Rattle.lp_plain_fits.specs.Numbered.{is_taken};

use lp_model::{Cell, PgKind, PgPin};

fn is_extra(kind: PgKind) -> bool
    ensures { result ≡ is_extra kind }
{
    match kind {
        PgKind::BackupPower
        | PgKind::BackupGround
        | PgKind::InternalPower
        | PgKind::InternalGround => true,
        _ => false,
    }
}

fn have_no_extra(pgs: &[PgPin]) -> bool
    ensures { result ≡ list_all (λ g. not (is_extra g.kind)) pgs.now }
{
    pgs.iter().all(|pg| !is_extra(pg.kind))
}

/// Whether a cell can stand in a source.
pub(crate) fn is_taken(cell: &Cell) -> bool
    ensures { result ≡ is_taken cell.now }
{
    cell.unusable.is_none()
        && cell.roles.shifter.is_none()
        && cell.roles.retention.is_none()
        && !cell.roles.switch
        && have_no_extra(cell.pgs.as_slice())
}
