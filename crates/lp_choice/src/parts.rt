ghost use Rattle.std.specs.Prelude.{◌≡◌, ◌<◌, filter, length, option_copied, IfSome};
ghost use Rattle.std.specs.List.{list_any, position};
ghost use Rattle.lp_spec_pins.specs.Pins.{only};
ghost use Rattle.lp_choice.specs.Parts.{has_part};

use lp_model::{Direction, Pin, PinUse};

/// What a pin is in its cell.
#[derive(Clone, Copy)]
pub(crate) enum Part {
    /// The data of an isolation cell.
    ClampedData,
    /// The enable of an isolation cell.
    Enable,
    /// The data of a level shifter.
    ShiftedData,
    /// An output.
    Output,
    /// An input, which is the control where it is the only one.
    Control,
}

/// The one pin of a part.
pub(crate) fn only_pin<'a>(pins: &'a [Pin], part: Part) -> Option<&'a Pin>
    ensures { option_copied result ≡ only (filter (has_part part) pins.now) }
{
    match first_of(pins, part) {
        None => None,
        Some(first) => {
            let found = &pins[first];
            if is_there(&pins[first + 1..], part) {
                None
            } else {
                Some(found)
            }
        }
    }
}

/// The place of the first pin of a part.
fn first_of(pins: &[Pin], part: Part) -> Option<usize>
    ensures first { result ≡ position (has_part part) pins.now }
    ensures within { IfSome result (λ place. place < length pins.now) }
{
    pins.iter().position(|pin| has_part(part, pin))
}

/// Whether there is a pin of a part.
fn is_there(pins: &[Pin], part: Part) -> bool
    ensures { result ≡ list_any (has_part part) pins.now }
{
    pins.iter().any(|pin| has_part(part, pin))
}

/// Whether a pin has a part.
fn has_part(part: Part, pin: &Pin) -> bool
    ensures { result ≡ has_part part pin.now }
{
    match (part, pin.direction, pin.use_of) {
        (Part::ClampedData, Direction::Input, PinUse::IsoData) => true,
        (Part::Enable, Direction::Input, PinUse::IsoEnable) => true,
        (Part::ShiftedData, Direction::Input, PinUse::ShiftData) => true,
        (Part::Output, Direction::Output, _) => true,
        (Part::Control, Direction::Input, _) => true,
        _ => false,
    }
}
