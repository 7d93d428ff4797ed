//! Laws of what numbers stand for: each is the clause of a function that does nothing.
ghost use Rattle.lp_spec_held.specs.Inserted.{OneMoreHeld};
ghost use Rattle.lp_spec_held.specs.Laws.{Begun};

use lp_spec_hub::one_more_operator_changes_one_wire;

/// An elaborated netlist holds what the hub says where nothing is done.
pub fn nothing_is_done_at_first()
    ensures { Begun }
{}

/// With one more operator put in, it holds what the hub says with that operator done.
pub fn one_more_operator_is_held()
    ensures { OneMoreHeld }
{
    one_more_operator_changes_one_wire();
}
