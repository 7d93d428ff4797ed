ghost use Rattle.std.specs.Prelude.{◌≡◌, None};
ghost use Rattle.std.specs.List.{list_any};
ghost use Rattle.lp_rows.specs.Rows.{allowed_of, accepts, is_on_at};
ghost use Rattle.lp_rows.specs.Voltages.{lowest_from, highest_from, is_below};

use lp_model::{DeclaredState, RowState};
use lp_tern::SupplyState;

/// The lowest voltage of a state that is on, in microvolts.
pub fn lowest(states: &[DeclaredState]) -> Option<u64>
    ensures { result ≡ lowest_from None states.now }
{
    let mut found: Option<u64> = None;
    for state in states {
        if let DeclaredState::On(voltage) = *state {
            found = Some(match found {
                Some(least) if least <= voltage => least,
                _ => voltage,
            });
        }
    }
    found
}

/// The highest voltage of a state that is on, in microvolts.
pub fn highest(states: &[DeclaredState]) -> Option<u64>
    ensures { result ≡ highest_from None states.now }
{
    let mut found: Option<u64> = None;
    for state in states {
        if let DeclaredState::On(voltage) = *state {
            found = Some(match found {
                Some(most) if voltage <= most => most,
                _ => voltage,
            });
        }
    }
    found
}

/// The lowest voltage among the states that a row allows, where `free` is the lowest of all states.
pub fn lowest_allowed(states: &[DeclaredState], free: Option<u64>, listed: RowState) -> Option<u64>
    requires { free ≡ lowest_from None states.now }
    ensures { result ≡ lowest_from None (allowed_of states.now listed) }
{
    match listed {
        RowState::Free => free,
        RowState::On(voltage) if !states.is_empty() => Some(voltage),
        _ => None,
    }
}

/// The highest voltage among the states that a row allows, where `free` is the highest of all states.
pub fn highest_allowed(states: &[DeclaredState], free: Option<u64>, listed: RowState) -> Option<u64>
    requires { free ≡ highest_from None states.now }
    ensures { result ≡ highest_from None (allowed_of states.now listed) }
{
    match listed {
        RowState::Free => free,
        RowState::On(voltage) if !states.is_empty() => Some(voltage),
        _ => None,
    }
}

/// Whether the first voltage with a number added is below the second. All are microvolts.
pub fn below(first: Option<u64>, second: Option<u64>, by: u64) -> bool
    ensures { result ≡ is_below by first second }
{
    match (first, second) {
        (Some(lower), Some(higher)) => lower < higher && by < higher - lower,
        _ => false,
    }
}

/// Whether a port with these states takes a state, under what a row lists for it.
pub fn accepted(states: &[DeclaredState], listed: RowState, state: SupplyState) -> bool
    ensures { result ≡ accepts (allowed_of states.now listed) state }
{
    if states.is_empty() {
        return true;
    }
    match (state, listed) {
        (SupplyState::Off | SupplyState::Unknown, _) => true,
        (SupplyState::On(voltage), RowState::Free) => has_voltage(states, voltage),
        (SupplyState::On(_), RowState::Off) => false,
        (SupplyState::On(voltage), RowState::On(only)) => voltage == only,
    }
}

/// Whether one of the states is on at a voltage, in microvolts.
fn has_voltage(states: &[DeclaredState], voltage: u64) -> bool
    ensures { result ≡ list_any (is_on_at voltage) states.now }
{
    for state in states {
        if let DeclaredState::On(found) = *state {
            if voltage == found {
                return true;
            }
        }
    }
    false
}
