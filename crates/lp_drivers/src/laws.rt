//! Laws about the definitions alone: each is the clause of a function that does nothing.
ghost use Rattle.lp_drivers.specs.Laws.{SameWidthsMeanSingleBits};

/// Where no values of different widths are joined, one bit at most is connected to a pin.
pub fn same_widths_mean_single_bits()
    ensures { SameWidthsMeanSingleBits }
{}
