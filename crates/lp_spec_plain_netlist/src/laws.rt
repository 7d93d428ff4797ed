//! Laws about the definitions alone: each is the clause of a function that does nothing.
ghost use Rattle.lp_spec_plain_module.specs.Designs.{Flat};
ghost use Rattle.lp_spec_plain_netlist.specs.Flats.{HasLoop, IsOrdered};
ghost use Rattle.lp_spec_plain_netlist.specs.Laws.{FitsAreFlat};

/// A module that fits plain cells gives a flat design, where both were read.
pub fn fits_are_flat()
    ensures { FitsAreFlat }
{}

/// A design whose keys have an order has no key that depends on itself.
pub fn ordered_has_no_loop()
    ensures { (f : Flat) → IsOrdered f → HasLoop f → ⊥ }
{}
