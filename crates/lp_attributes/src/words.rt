ghost use Rattle.std.specs.Prelude.{◌≡◌};
ghost use Rattle.lp_model.specs.Agreement.{name_texts};
ghost use Rattle.lp_attributes.specs.Words.{action, area, class, direction, pg_kind, range, shifter_kind_if_any};

use crate::names::text_of;
use lp_model::{Action, Direction, PgKind, RetClass, ShifterKind, VoltageRange};
use lp_text::{NameId, Names, Word, micros};

/// The area of a number that is none, in millionths.
const LARGEST: u64 = 1_000_000_000_000;

/// The type of a power or ground pin (Liberty `pg_type`).
pub fn pg_kind(text: &str) -> Option<PgKind>
    ensures { result ≡ pg_kind text.now }
{
    match text {
        "primary_power" => Some(PgKind::PrimaryPower),
        "primary_ground" => Some(PgKind::PrimaryGround),
        "backup_power" => Some(PgKind::BackupPower),
        "backup_ground" => Some(PgKind::BackupGround),
        "internal_power" => Some(PgKind::InternalPower),
        "internal_ground" => Some(PgKind::InternalGround),
        "nwell" => Some(PgKind::Nwell),
        "pwell" => Some(PgKind::Pwell),
        "deepnwell" => Some(PgKind::Deepnwell),
        "deeppwell" => Some(PgKind::Deeppwell),
        _ => None,
    }
}

/// The direction of a pin (Liberty `direction`).
pub fn direction(text: &str) -> Option<Direction>
    ensures { result ≡ direction text.now }
{
    match text {
        "input" => Some(Direction::Input),
        "output" => Some(Direction::Output),
        _ => None,
    }
}

/// When a retention pin acts (Liberty `save_action` and `restore_action`).
pub fn action(text: &str) -> Option<Action>
    ensures { result ≡ action text.now }
{
    match text {
        "H" => Some(Action::High),
        "L" => Some(Action::Low),
        "R" => Some(Action::Rise),
        "F" => Some(Action::Fall),
        _ => None,
    }
}

/// What a retention pin does (Liberty `retention_pin`, its class).
pub fn class(text: &str) -> Option<RetClass>
    ensures { result ≡ class text.now }
{
    match text {
        "save" => Some(RetClass::Save),
        "restore" => Some(RetClass::Restore),
        "save_restore" => Some(RetClass::Both),
        _ => None,
    }
}

/// Which way a level shifter passes data (Liberty `level_shifter_type`); HL_LH where it is missing or another word.
pub fn shifter_kind(value: &Option<Word>) -> ShifterKind
    ensures { result ≡ shifter_kind_if_any value.now }
{
    match value {
        None => ShifterKind::Both,
        Some(value) => match value.text() {
            "LH" => ShifterKind::LowToHigh,
            "HL" => ShifterKind::HighToLow,
            _ => ShifterKind::Both,
        },
    }
}

/// The area in millionths of the library's unit (Liberty `area`): 0 where it is missing, 10^12 where it is no number.
pub fn area(value: &Option<Word>) -> u64
    ensures { result ≡ area value.now }
{
    match value {
        None => 0,
        Some(value) => micros(value.text()).unwrap_or(LARGEST),
    }
}

/// A range of voltages in microvolts (Liberty `input_voltage_range` and `output_voltage_range`): none where the values
/// are not exactly two voltages.
pub fn range(names: &Names, values: &[NameId]) -> Option<VoltageRange>
    ensures { result ≡ range (name_texts names.now values.now) }
{
    match values {
        [low, high] => {
            let low = micros(text_of(names, *low))?;
            let high = micros(text_of(names, *high))?;
            Some(VoltageRange { low, high })
        }
        _ => None,
    }
}
