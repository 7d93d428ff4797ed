//! Laws that join what is said twice: each is the clause of a function that does nothing.
ghost use Rattle.std.specs.Prelude.{◌≡◌, ℕ, Bool, true, List, Option};
ghost use Rattle.lp_model.specs.declared.intent.RowState.{RowState};
ghost use Rattle.lp_model.specs.declared.supply.Supplies.{Supplies};
ghost use Rattle.lp_rows.specs.Rows.{IsFirstRow};
ghost use Rattle.lp_spec_network.specs.Views.{first_row};
ghost use Rattle.lp_spec_network.specs.Laws.{LeaksByTheTable, LowerByTheTable};

/// In the network that definitions speak of, one set is lower than another exactly where the state table has its power
/// lower.
pub fn lower_by_the_table()
    ensures { LowerByTheTable }
{}

/// A set may be off while another is on exactly where the state table has their powers so.
pub fn leaks_by_the_table()
    ensures { LeaksByTheTable }
{}

/// The first row that passes a test is the first of which it holds, and there is none only where it holds of no row.
pub fn a_test_has_its_first_row()
    ensures { (s : Supplies) (p : List RowState → Bool) → IsFirstRow s (λ row. p row ≡ true) (first_row s p) }
{}

/// There is only one first row that passes a test, or none at all.
pub fn one_first_row()
    ensures { (s : Supplies) (p : List RowState → Bool) (a b : Option ℕ)
        → IsFirstRow s (λ row. p row ≡ true) a → IsFirstRow s (λ row. p row ≡ true) b → a ≡ b }
{}
