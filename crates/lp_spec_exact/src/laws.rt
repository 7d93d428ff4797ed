//! Laws about the definitions alone: each is the clause of a function that does nothing.
ghost use Rattle.lp_spec_exact.specs.Laws.{NumbersAreHeld};

/// No number is cut where a netlist within its limits, with fit cells and no node of two drivers, is laid out.
pub fn numbers_are_held()
    ensures { NumbersAreHeld }
{}
