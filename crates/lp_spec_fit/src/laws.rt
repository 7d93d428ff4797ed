//! Laws that show that the definitions say what is meant: each is the clause of a function that does nothing.
ghost use Rattle.std.specs.Prelude.{◌≡◌, ℕ, Bool, List, Some, None, false};
ghost use Rattle.std.specs.List.{list_any};
ghost use Rattle.lp_model.specs.LibraryView.{CellView};
ghost use Rattle.lp_spec_fit.specs.Choice.{IsChoice, choice};
ghost use Rattle.lp_spec_fit.specs.Laws.{LostWithItsSupplies};

/// A power-down function that passes the test for some supply sets is 1 exactly where one of them is not on, whichever
/// origins are on.
pub fn lost_with_its_supplies()
    ensures { LostWithItsSupplies }
{}

/// A cell that is chosen fits, no cell that fits has less area, and each earlier one that fits has more.
pub fn a_choice_is_least()
    ensures { (fits : CellView → Bool) (cells : List CellView) (k : ℕ) → choice fits cells ≡ Some k → IsChoice fits cells k }
{}

/// Where no cell is chosen, none fits.
pub fn no_choice_no_cell()
    ensures { (fits : CellView → Bool) (cells : List CellView) → choice fits cells ≡ None → list_any fits cells ≡ false }
{}
