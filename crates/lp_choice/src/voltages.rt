ghost use Rattle.std.specs.Prelude.{◌≡◌};
ghost use Rattle.std.specs.List.{list_all, list_any};
ghost use Rattle.lp_model.specs.declared.need.VoltagePair.{VoltagePair};
ghost use Rattle.lp_spec_pins.specs.Pins as pins;
ghost use Rattle.lp_choice.specs.Voltages.{is_lower};

use lp_model::{Shifter, ShifterKind, VoltagePair, VoltageRange};

/// Whether a shifter takes each pair of voltages.
pub(crate) fn takes_all(pairs: &[VoltagePair], shifter: Shifter) -> bool
    ensures { result ≡ list_all (λ (p : VoltagePair). pins.takes shifter p.input p.output) pairs.now }
{
    pairs
        .iter()
        .all(|pair| takes(shifter, pair.input, pair.output))
}

/// Whether a shifter takes an input and an output voltage.
fn takes(shifter: Shifter, input: u64, output: u64) -> bool
    ensures { result ≡ pins.takes shifter input output }
{
    type_takes(shifter.kind, input, output)
        && holds(shifter.input, input)
        && holds(shifter.output, output)
}

/// Whether a type of shifter takes an input and an output voltage.
fn type_takes(kind: ShifterKind, input: u64, output: u64) -> bool
    ensures { result ≡ pins.type_takes kind input output }
{
    match kind {
        ShifterKind::LowToHigh => input <= output,
        ShifterKind::HighToLow => output <= input,
        ShifterKind::Both => true,
    }
}

/// Whether a range has a voltage.
fn holds(range: Option<VoltageRange>, voltage: u64) -> bool
    ensures { result ≡ pins.holds range voltage }
{
    match range {
        Some(range) => range.low <= voltage && voltage <= range.high,
        None => true,
    }
}

/// Whether in some pair the input is lower than the output by more than the margin.
pub(crate) fn may_be_lower(pairs: &[VoltagePair], margin: u64) -> bool
    ensures { result ≡ list_any (is_lower margin) pairs.now }
{
    pairs.iter().any(|pair| is_lower(margin, pair))
}

/// Whether the input is lower than the output by more than the margin.
fn is_lower(margin: u64, pair: &VoltagePair) -> bool
    ensures { result ≡ is_lower margin pair.now }
{
    margin < pair.output && pair.input < pair.output - margin
}
