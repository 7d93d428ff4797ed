//! Laws about the wires of a written netlist: each is the clause of a function that does nothing.
ghost use Rattle.lp_spec_wires.specs.Laws.{WiresStand};
ghost use Rattle.lp_spec_data_wires.specs.Laws.{DataWiresStand};

/// Each wire of data stands: its net bit is driven in the written netlist as the hub says.
pub fn data_wires_stand()
    ensures { DataWiresStand }
{}

/// Each wire of the written netlist stands.
pub fn wires_stand()
    ensures { WiresStand }
{}
