ghost use Rattle.std.specs.Prelude.{◌≡◌, ◌↔◌, IsTrue, length};
ghost use Rattle.lp_rows.specs.Network.{IsNetwork};
ghost use Rattle.lp_rows.specs.Rows.{IsWithin, ports, within_in};

use crate::network::{listed_in, states_of_port};
use crate::states::accepted;
use lp_model::{OriginKind, RowState, Supplies};
use lp_tern::SupplyState;

/// Whether one row allows each port its state in the tuple, which has a state for each port, the ports in origin
/// order. Off and unknown are always allowed. Takes time in proportion to the rows and the states of the ports, and
/// allocates nothing.
pub fn within(s: &Supplies, tuple: &[SupplyState]) -> bool
    requires network { IsNetwork s.now }
    requires ports { length tuple.now ≡ length (ports s.now) }
    ensures { IsTrue result ↔ IsWithin s.now tuple.now }
{
    let rows = s.rows.as_slice();
    if rows.is_empty() {
        return is_within_row(s, &[], tuple);
    }
    for row in rows {
        if is_within_row(s, row.states.as_slice(), tuple) {
            return true;
        }
    }
    false
}

/// Whether a row allows each port its state in the tuple.
fn is_within_row(s: &Supplies, row: &[RowState], tuple: &[SupplyState]) -> bool
    requires network { IsNetwork s.now }
    requires ports { length tuple.now ≡ length (ports s.now) }
    ensures { result ≡ within_in s.now row.now tuple.now }
{
    let mut number = 0;
    let mut place = 0;
    for origin in s.origins.as_slice() {
        if let OriginKind::Port(_) = origin.kind {
            let states = states_of_port(s, number);
            if !accepted(states, listed_in(row, number), tuple[place]) {
                return false;
            }
            place += 1;
        }
        number += 1;
    }
    true
}
