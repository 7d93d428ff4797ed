//! Laws about the definitions alone: each is the clause of a function that does nothing.
ghost use Rattle.lp_spec_elaborated.specs.Laws.{ElaboratedIsSound, LaidOutDrivesByPins, LaidOutIsHeld, ReadHasSoundWires};

/// An elaborated netlist is sound for editing: what drives nodes, the edges and what pins are joined to agree, and ways
/// end, where no net bit has two drivers and no wires make a loop.
pub fn elaborated_is_sound()
    ensures { ElaboratedIsSound }
{}

/// In what is laid out from templates, cell instances drive nodes by pins that their cells have.
pub fn laid_out_drives_by_pins()
    ensures { LaidOutDrivesByPins }
{}

/// What is laid out from templates holds what the hub says where nothing is done.
pub fn laid_out_is_held()
    ensures { LaidOutIsHeld }
{}

/// A netlist as it is read has sound wires, where no line of the table of faults on widths, cells, drivers and loops
/// holds.
pub fn read_has_sound_wires()
    ensures { ReadHasSoundWires }
{}
