//! Laws of the edits of a netlist: each is the clause of a function that does nothing.
ghost use Rattle.lp_spec_edits.specs.Laws.{CellsAdded, PinsConnected, WiresAdded, TopPortsAdded, NodesAssigned, InputsPunched, OutputsPunched, GapsBehind, GapsBefore, ConstantsLed, CellsSwapped, SoundIsClosed};

/// A cell instance with open pins.
pub fn cells_are_added()
    ensures { CellsAdded }
{}

/// A pin that is joined to a node.
pub fn pins_are_connected()
    ensures { PinsConnected }
{}

/// A node that nothing drives, and a port of the top.
pub fn wires_are_added()
    ensures wires { WiresAdded }
    ensures ports { TopPortsAdded }
{}

/// A node that is joined to another one by an assign.
pub fn nodes_are_assigned()
    ensures { NodesAssigned }
{}

/// A port of a module instance.
pub fn ports_are_punched()
    ensures inputs { InputsPunched }
    ensures outputs { OutputsPunched }
{}

/// A gap behind an edge.
pub fn gaps_open_behind()
    ensures { GapsBehind }
{}

/// A gap before an edge, and a constant's own net.
pub fn gaps_open_before()
    ensures nodes { GapsBefore }
    ensures constants { ConstantsLed }
{}

/// Another cell in the place of one.
pub fn cells_are_swapped()
    ensures { CellsSwapped }
{}

/// The tables of a sound netlist.
pub fn sound_is_closed()
    ensures { SoundIsClosed }
{}
