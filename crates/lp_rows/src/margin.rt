ghost use Rattle.std.specs.Prelude.{◌≡◌};
ghost use Rattle.lp_rows.specs.Voltages.{under_of};

use lp_tern::SupplyState;

/// Whether two supplies, each its power and its ground, are on, and the power voltage of the first with the margin
/// added is below that of the second. Voltages and the margin are microvolts, of any value.
pub fn under(r: (SupplyState, SupplyState), t: (SupplyState, SupplyState), margin: u64) -> bool
    ensures { result ≡ under_of r.0 r.1 t.0 t.1 margin }
{
    match (r.0, r.1, t.0, t.1) {
        (SupplyState::On(lower), SupplyState::On(_), SupplyState::On(higher), SupplyState::On(_)) =>
            lower < higher && margin < higher - lower,
        _ => false,
    }
}
