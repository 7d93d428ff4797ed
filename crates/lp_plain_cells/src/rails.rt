ghost use Rattle.std.specs.Prelude.{◌≡◌, not, if◌then◌else◌, bytes_eq, option_copied};
ghost use Rattle.lp_text.specs.Texts.{text_at};
ghost use Rattle.lp_behaviour.specs.Signals.{known};
ghost use Rattle.lp_spec_pins.specs.Pins as pins;
ghost use Rattle.lp_plain_cells.specs.Rails.{pg_found, value_named};

use lp_model::{Cell, PgKind, PgPin};
use lp_tern::Tern;
use lp_text::{NameId, Names};

/// Which supplies are on.
#[derive(Clone, Copy)]
pub(crate) struct OnState {
    /// Every power pin is on.
    pub(crate) power: bool,
    /// Every ground pin is on.
    pub(crate) gnd: bool,
}

impl OnState {
    ghost use Rattle.std.specs.Prelude.{◌≡◌, ◌&&◌};

    /// Whether both are on.
    pub(crate) fn is_whole(self) -> bool
        ensures { result ≡ (self.power && self.gnd) }
    {
        self.power && self.gnd
    }
}

/// The text of a name, the empty text for a number beyond the table.
fn text_of<'a>(names: &'a Names, name: NameId) -> &'a str
    ensures { result.now ≡ text_at names.now name.0 }
{
    if name.0 < names.count() {
        names.text(name)
    } else {
        ""
    }
}

/// Whether two names have one text.
fn are_same(names: &Names, a: NameId, b: NameId) -> bool
    ensures { result ≡ bytes_eq (text_at names.now a.0) (text_at names.now b.0) }
{
    text_of(names, a) == text_of(names, b)
}

/// The first power or ground pin with the text of a name.
pub(crate) fn pg_named<'a>(names: &Names, pgs: &'a [PgPin], name: NameId) -> Option<&'a PgPin>
    ensures { option_copied result ≡ pg_found names.now pgs.now name }
{
    pgs.iter().find(|pg| are_same(names, pg.name, name))
}

/// Whether a pin of this type counts as a power pin; the others count as ground pins.
fn is_power(kind: PgKind) -> bool
    ensures { result ≡ pins.is_power kind }
{
    match kind {
        PgKind::PrimaryPower
        | PgKind::BackupPower
        | PgKind::InternalPower
        | PgKind::Nwell
        | PgKind::Deepnwell => true,
        PgKind::PrimaryGround
        | PgKind::BackupGround
        | PgKind::InternalGround
        | PgKind::Pwell
        | PgKind::Deeppwell => false,
    }
}

/// The level of the power or ground pin with the text of a name; 0 where there is none.
pub(crate) fn level_of_name(names: &Names, cell: &Cell, on: OnState, name: NameId) -> Tern
    ensures { result ≡ value_named names.now cell.now on.power on.gnd name }
{
    match pg_named(names, cell.pgs.as_slice(), name) {
        Some(pg) => level(is_power(pg.kind), on),
        None => Tern::Zero,
    }
}

/// The level of a power or a ground pin: a power pin is 1 where it is on, a ground pin where it is not.
fn level(power: bool, on: OnState) -> Tern
    ensures { result ≡ known (if power then on.power else not on.gnd) }
{
    let is_high = if power { on.power } else { !on.gnd };
    if is_high { Tern::One } else { Tern::Zero }
}
