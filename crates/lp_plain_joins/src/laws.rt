//! Laws about the definitions alone: each is the clause of a function that does nothing.
ghost use Rattle.lp_plain_joins.specs.Laws.{PoweredIsWellFormed};

/// The netlist of a module that fits its cells is well formed, where both were read.
pub fn powered_is_well_formed()
    ensures { PoweredIsWellFormed }
{}
