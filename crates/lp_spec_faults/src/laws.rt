//! Laws that show that definitions say what is meant: each is the clause of a function that does nothing.
ghost use Rattle.std.specs.Prelude.{◌≡◌, ◌≤◌, ◌↔◌, ℕ, List, None, length, false, true};
ghost use Rattle.lp_model.specs.declared.supply.Supplies.{Supplies};
ghost use Rattle.lp_model.specs.declared.intent.DeclaredState.{DeclaredState};
ghost use Rattle.lp_model.specs.declared.intent.RowState.{RowState};
ghost use Rattle.lp_rows.specs.Network.{IsNetwork};
ghost use Rattle.lp_rows.specs.Leaks.{IsCombination};
ghost use Rattle.lp_model.specs.declared.fault.netlist.NetlistLimit.{NetlistLimit};
ghost use Rattle.lp_spec_design.specs.Keys.{Path};
ghost use Rattle.lp_spec_design.specs.Netlists.{Structure, module_at};
ghost use Rattle.lp_spec_faults.specs.Modules.{is_over};
ghost use Rattle.lp_spec_faults.specs.StateTable.{combines};

/// The test of a row for a combination passes exactly where states of all origins are one.
pub fn a_row_has_a_combination()
    ensures { (s : Supplies) (row : List RowState) → IsNetwork s → combines s row ≡ true ↔ ((state : ℕ → DeclaredState) × IsCombination s row state) }
{}

/// Where the depth is within its limit (F22), there is no module instance whose path has 64 names or more.
#[tactic(auto, using(crate::proofs::Depth::shallow))]
pub fn no_instance_is_deeper()
    ensures { (s : Structure) → is_over s NetlistLimit.Depth ≡ false → (p : Path) → 64 ≤ length p → module_at s p ≡ None }
{}
