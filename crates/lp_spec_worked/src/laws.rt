//! That the theorem of insertion is not empty: the clause of a function that only calls others.
ghost use Rattle.lp_spec_worked.specs.Met.{InsertionIsMet};

use lp_spec_together::shared_implements;

/// The premises of the theorem of insertion can be met at once: there is a project with a power switch, a register with
/// retention, a level shifter and a clamp that is read, has no fault that bears on an insertion and is within limits; and so
/// the netlist that is written for it implements it and shows what it shows under its power intent.
pub fn insertion_is_met()
    ensures { InsertionIsMet }
{
    shared_implements();
}
