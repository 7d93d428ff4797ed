//! Laws about the definitions alone: each is the clause of a function that does nothing.
ghost use Rattle.std.specs.Prelude.{◌≡◌, true};
ghost use Rattle.lp_spec_settling.specs.Settling.{HasOrder};
ghost use Rattle.lp_spec_design.specs.Reads.{keys, reads};
ghost use Rattle.lp_spec_pins.specs.Supplied.{is_supplied};
ghost use Rattle.lp_spec_plain.specs.Alike.{BehavesAlike};
ghost use Rattle.lp_spec_plain_module.specs.Designs.{Flat, design_of};
ghost use Rattle.lp_spec_plain_module.specs.Netlists.{netlist_of, origin_of};
ghost use Rattle.lp_spec_plain_module.specs.Tests.{is_flat};

/// Where a flat design has an order: for all events, and all states of the registers that begin equal, the source under
/// its intent and the netlist with supplies by its pins have one run each, the outputs of the source show the same after
/// each event, and the registers are equal after each event.
pub fn flat_runs_alike()
    ensures { (f : Flat) → is_flat f ≡ true → HasOrder keys (reads (design_of f)) → BehavesAlike (design_of f) (netlist_of f) (origin_of f) }
{}

/// Every power and ground pin of the netlist of a flat design has one supply.
pub fn flat_netlist_is_supplied()
    ensures { (f : Flat) → is_flat f ≡ true → is_supplied (netlist_of f) ≡ true }
{}
