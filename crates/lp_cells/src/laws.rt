//! Laws about the definitions alone: each is the clause of a function that does nothing.
ghost use Rattle.std.specs.Prelude.{◌≡◌, List, true};
ghost use Rattle.std.specs.List.{list_all};
ghost use Rattle.lp_model.specs.GroupsView.{GroupView};
ghost use Rattle.lp_model.specs.LibraryView.{CellView};
ghost use Rattle.lp_cells.specs.Cells.{IsLibrary};
ghost use Rattle.lp_cells.specs.Sound.{is_sound_cell};
ghost use Rattle.lp_cells.specs.Laws.{OneLibraryAnswer, UsableCellsAreUsable};

/// Files denote at most one list of cells, each with one name and at most one reason.
pub fn one_library()
    ensures { (files : List (List GroupView)) (a b : List CellView) → IsLibrary files a → IsLibrary files b → a ≡ b }
{}

/// A library is read or refused: only want of memory comes beside.
pub fn one_library_answer()
    ensures { OneLibraryAnswer }
{}

/// A cell without a reason is sound: its names are visible and differ, its pins have related pins of their kind that are
/// no bias pins, its outputs have functions, each name in a function is that of an input pin or of the state, its
/// retention pins have the actions of their class alone, and it has at most 8 power and ground pins and 240 signal pins.
/// So each cell without a reason of a library that is read is usable in the sense of the cells' behaviour.
pub fn usable_cells_are_sound()
    ensures sound { (files : List (List GroupView)) (cells : List CellView) → IsLibrary files cells → list_all is_sound_cell cells ≡ true }
    ensures usable { UsableCellsAreUsable }
{}
