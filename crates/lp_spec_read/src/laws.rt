//! Laws about what readers give: each is the clause of a function that does nothing.
ghost use Rattle.lp_spec_read.specs.Laws.{ReadCellNamesDiffer, ReadCellsHaveSoundPins, ReadNetlistsDeclareTheirBits};

/// A netlist that a text denotes has its names apart and declares what it joins and assigns.
pub fn read_netlists_declare_their_bits()
    ensures { ReadNetlistsDeclareTheirBits }
{}

/// In a library that is read each cell that can be used is sound, the names of all its pins differ, and only its internal
/// power pins are switched.
pub fn read_cells_have_sound_pins()
    ensures { ReadCellsHaveSoundPins }
{}

/// And no two cells of it have one name.
pub fn read_cell_names_differ()
    ensures { ReadCellNamesDiffer }
{}
