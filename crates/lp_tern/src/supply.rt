ghost use Rattle.std.specs.Prelude.{◌≡◌};
ghost use Rattle.lp_tern.specs.Values.{choose_supply_of, level_of};

use crate::tern::Tern;

/// The state of a supply net or port.
#[derive(Clone, Copy, PartialEq)]
pub enum SupplyState {
    /// On, at a voltage in microvolts.
    On(u64),
    /// Switched off.
    Off,
    /// On or off, it is not known which, or at an unknown voltage.
    Unknown,
}

/// The side of a cell's supply that a net serves.
#[derive(Clone, Copy)]
pub enum Rail {
    /// The power side.
    Power,
    /// The ground side.
    Ground,
}

/// `a` where the control is 1, `b` where it is 0; where it is unknown, the state that both agree on.
pub fn choose_supply(c: Tern, a: SupplyState, b: SupplyState) -> SupplyState
    ensures { result ≡ choose_supply_of c a b }
{
    match c {
        Tern::One => a,
        Tern::Zero => b,
        Tern::X if a == b => a,
        Tern::X => SupplyState::Unknown,
    }
}

/// The logic level of a supply: a power net is high where it is on, a ground net where it is off.
pub fn level(s: SupplyState, rail: Rail) -> Tern
    ensures { result ≡ level_of s rail }
{
    match (s, rail) {
        (SupplyState::On(_), Rail::Power) | (SupplyState::Off, Rail::Ground) => Tern::One,
        (SupplyState::Off, Rail::Power) | (SupplyState::On(_), Rail::Ground) => Tern::Zero,
        (SupplyState::Unknown, _) => Tern::X,
    }
}
