//! Laws about the definitions alone: each is the clause of a function that does nothing.
ghost use Rattle.std.specs.Prelude.{◌≡◌, ℕ, Bool, true};
ghost use Rattle.lp_spec_settling.specs.Settling.{HasOrder};
ghost use Rattle.lp_spec_design.specs.Keys.{Name, Node};
ghost use Rattle.lp_spec_design.specs.Settled.{Design};
ghost use Rattle.lp_spec_design.specs.Reads.{keys, reads};
ghost use Rattle.lp_spec_pins.specs.Pins.{Powered};
ghost use Rattle.lp_spec_pins.specs.Supplied.{is_supplied};
ghost use Rattle.lp_spec_plain.specs.Carried.{Carries, CarriesPlain};
ghost use Rattle.lp_spec_plain.specs.Alike.{BehavesAlike};

/// Where a plain design has an order, and a netlist carries it: for all events, and all states of the registers that
/// begin equal, the source under its intent and the netlist by its pins have one run each, the outputs of the design
/// show the same after each event, and the registers are equal after each event.
pub fn plain_runs_alike()
    ensures { (d : Design) (w : Powered) (origin : Name → ℕ) → CarriesPlain d w origin → HasOrder keys (reads d) → BehavesAlike d w origin }
{}

/// Every power and ground pin of a netlist that carries a design has one
/// supply.
pub fn plain_netlist_is_supplied()
    ensures { (d : Design) (w : Powered) (own : Node → Bool) (power gnd : Name) → Carries d w own power gnd → is_supplied w ≡ true }
{}
