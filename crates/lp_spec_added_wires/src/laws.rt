//! Laws about the wires of a written netlist: each is the clause of a function that does nothing.
ghost use Rattle.lp_spec_wires.specs.Laws.{WiresAreClosed};
ghost use Rattle.lp_spec_added_wires.specs.Laws.{ControlWiresStand, NoWireComesBack, SupplyWiresStand, WiresBegin};

/// Each supply that comes to an instance is driven there as the hub says.
pub fn supply_wires_stand()
    ensures { SupplyWiresStand }
{}

/// Each part of a control's route is driven as the hub says.
pub fn control_wires_stand()
    ensures { ControlWiresStand }
{}

/// What drives a wire from another wire comes from a wire.
pub fn wires_are_closed()
    ensures { WiresAreClosed }
{}

/// Where no way of the source comes back, each wire begins somewhere.
pub fn wires_begin()
    ensures { WiresBegin }
{}

/// Where each wire stands in the written netlist and no way of the source comes back, none does there.
pub fn no_wire_comes_back()
    ensures { NoWireComesBack }
{}
