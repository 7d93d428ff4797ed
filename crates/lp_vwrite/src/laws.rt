//! Laws about the definitions alone: each is the clause of a function that does nothing.
ghost use Rattle.std.specs.Prelude.{◌≡◌, ◌≤◌, ℕ, true, List, length};
ghost use Rattle.lp_text.specs.declared.shelf.TheConstants.{LIMIT};
ghost use Rattle.lp_model.specs.declared.netlist.Netlist.{Netlist};
ghost use Rattle.lp_model.specs.NetlistView.{ModuleView, netlist_view};
ghost use Rattle.lp_verilog.specs.Laws.{OverTable, AreNumbered};
ghost use Rattle.lp_verilog.specs.Reads.{Reads};
ghost use Rattle.lp_vwrite.specs.Layout.{layout};
ghost use Rattle.lp_vwrite.specs.Sound.{is_read};
ghost use Rattle.lp_vwrite.specs.WellFormed.{IsWellFormed, HasTable, ReadsBack};
ghost use Rattle.lp_vwrite.specs.Examples.{example};

/// What is written of a well-formed netlist whose names a table can have reads back as that netlist, and as no other.
pub fn reads_back()
    ensures back { (v : List ModuleView) → ReadsBack (layout v) v }
    ensures alone { (v w : List ModuleView) → IsWellFormed v → HasTable v → Reads (layout v) w → w ≡ v }
{}

/// The names of a netlist that is written in at most 67,108,864 bytes are few enough for a table.
pub fn short_has_table()
    ensures { (v : List ModuleView) → length (layout v) ≤ LIMIT → HasTable v }
{}

/// The names of a netlist over a table stand in that table.
pub fn numbered_has_table()
    ensures { (names : List (List ℕ)) (n : Netlist) → OverTable names (AreNumbered names n.modules → HasTable (netlist_view names n)) }
{}

/// A netlist with a vector, an escaped name, constants, an open port and an assign is well formed.
pub fn example_is_well_formed()
    ensures { IsWellFormed example }
{}

/// A netlist that is read has names that differ, bits of nets that it declares, and assigns of nets.
pub fn read_is_sound()
    ensures { (text : List ℕ) (v : List ModuleView) → Reads text v → is_read v ≡ true }
{}
