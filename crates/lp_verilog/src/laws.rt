//! Laws about the definitions alone: each is the clause of a function that does nothing.
ghost use Rattle.std.specs.Prelude.{◌≡◌, ℕ, List, true, ◌++◌, length};
ghost use Rattle.lp_text.specs.Texts.{Grown};
ghost use Rattle.lp_model.specs.declared.fault.refusal.Fault.{Fault};
ghost use Rattle.lp_model.specs.declared.netlist.Module.{Module};
ghost use Rattle.lp_model.specs.NetlistView.{ModuleView};
ghost use Rattle.lp_verilog_tokens.specs.Cutting.{Piece};
ghost use Rattle.lp_verilog.specs.Denotes.{Denotes, LeadsTo};
ghost use Rattle.lp_verilog.specs.Places.{IsNetlist, IsStuck};
ghost use Rattle.lp_verilog.specs.Reads.{Reads};
ghost use Rattle.lp_verilog.specs.Reading.{Outcome};
ghost use Rattle.lp_verilog.specs.Laws.{OverTable, SameLine, NotBoth, AreNumbered, SeenAlike, AreFew};

/// A text denotes at most one netlist, by the texts of its names.
pub fn one_netlist()
    ensures { (text : List ℕ) (a b : List ModuleView) → Reads text a → Reads text b → a ≡ b }
{}

/// Over one table of names a text leads to at most one outcome.
pub fn one_outcome()
    ensures { (names : List (List ℕ)) (text : List ℕ) (a b : Outcome) → LeadsTo names text a → LeadsTo names text b → a ≡ b }
{}

/// The line of the fault of a text is the same over every table of names.
pub fn one_line()
    ensures { (a b : List (List ℕ)) (text : List ℕ) (f g : Fault) → OverTable a (OverTable b (SameLine a b text f g)) }
{}

/// A text that is refused, and is not too long, denotes no netlist.
pub fn refused_reads_nothing()
    ensures { (names : List (List ℕ)) (text : List ℕ) (f : Fault) (v : List ModuleView) → OverTable names (NotBoth names text f v) }
{}

/// From tokens that end where a direction is being given that no port of the header can take, no tokens go on to a netlist.
pub fn stuck_reads_nothing()
    ensures { (text : List ℕ) (tokens more : List Piece) → IsStuck text tokens → IsNetlist (tokens ++ more) → ⊥ }
{}

/// The numbers in what a text denotes lie below the count of the names.
pub fn numbers_stand()
    ensures { (names : List (List ℕ)) (text : List ℕ) (modules : List Module) → OverTable names (Denotes names text modules → AreNumbered names modules) }
{}

/// A module of a text has at most as many ports, and at most as many assigns, as the text has bytes.
pub fn parts_are_few()
    ensures { (names : List (List ℕ)) (text : List ℕ) (modules : List Module) → Denotes names text modules → AreFew (length text) modules }
{}

/// What a text denotes stays the same when the table of its names grows.
pub fn grown_names_keep_readings()
    ensures denotes { (old new : List (List ℕ)) (text : List ℕ) (modules : List Module) → Grown old new → Denotes old text modules → Denotes new text modules }
    ensures seen { (old new : List (List ℕ)) (text : List ℕ) (modules : List Module) → Grown old new → OverTable new (SeenAlike old new text modules) }
{}
