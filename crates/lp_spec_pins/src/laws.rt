//! Laws that show that the definitions say what is meant: each is the clause of a function that does nothing.
ghost use Rattle.lp_spec_settling.specs.Settling.{HasOrder, SettlesOnce};
ghost use Rattle.lp_spec_design.specs.Settled.{Registers as RegisterStates};
ghost use Rattle.lp_spec_pins.specs.Pins.{Powered, PinEvent, pin_equation};
ghost use Rattle.lp_spec_pins.specs.Reads.{keys, reads};
ghost use Rattle.lp_spec_pins.specs.Runs.{RunsOnceByPins};
ghost use Rattle.lp_spec_pins.specs.Laws.{LostWherePoweredDown, OneRunByPins};

/// An output whose power-down function is not 0 is X.
pub fn lost_where_powered_down()
    ensures { LostWherePoweredDown }
{}

/// Where all that occurs in the equations by pins has an order, exactly one assignment settles.
pub fn settles_once_by_pins()
    ensures { (w : Powered) (event : PinEvent) (registers : RegisterStates) → HasOrder keys (reads w) → SettlesOnce (pin_equation w event registers) }
{}

/// Where all that occurs in the equations by pins has an order, there is exactly one run of the netlist over a list of
/// events, from what settled before them, if anything did, and from the states of its registers.
pub fn runs_once_by_pins()
    ensures { OneRunByPins }
{}
