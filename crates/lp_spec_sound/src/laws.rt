//! A law about the definitions alone: the clause of a function that does nothing.
ghost use Rattle.lp_spec_sound.specs.Laws.{ReadCellsAreSound};

/// Each cell without a reason of a library that is read is sound: no two of its pins have one name, its related pins are
/// of their kinds, the variables of each function differ and are signals of the cell, those of its power-down functions
/// are power and ground pins, and it has a primary power pin.
pub fn read_cells_are_sound()
    ensures { ReadCellsAreSound }
{}
