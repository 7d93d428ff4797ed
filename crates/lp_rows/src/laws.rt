//! Laws about the definitions alone: each is the clause of a function that does nothing.
ghost use Rattle.std.specs.Prelude.{◌≡◌, ◌↔◌, IsTrue, ℕ, List, false};
ghost use Rattle.lp_model.specs.declared.intent.RowState.{RowState};
ghost use Rattle.lp_model.specs.declared.supply.Supplies.{Supplies};
ghost use Rattle.lp_rows.specs.Network.{root_of};
ghost use Rattle.lp_rows.specs.Rows.{lower_in, IsLowerByChoice};
ghost use Rattle.lp_rows.specs.Laws.{PortsMayBeOff};

/// No supply is below itself.
pub fn the_same_is_never_lower()
    ensures { (s : Supplies) (row : List RowState) (a by : ℕ) → lower_in s row a a by ≡ false }
{}

/// Of two supplies with one root, as two switches of one port, neither is below the other.
pub fn one_root_is_never_lower()
    ensures { (s : Supplies) (row : List RowState) (a b by : ℕ) → root_of s a ≡ root_of s b → lower_in s row a b by ≡ false }
{}

/// One supply is below another in a row exactly where some choice of allowed states has it so.
pub fn choices_say_lower()
    ensures { (s : Supplies) (row : List RowState) (a b by : ℕ) → IsTrue (lower_in s row a b by) ↔ IsLowerByChoice s row a b by }
{}

/// A row that allows a tuple also allows it with one more port off.
pub fn ports_may_be_off()
    ensures { PortsMayBeOff }
{}
