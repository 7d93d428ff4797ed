//! Laws about the definitions alone: each is the clause of a function that does nothing.
ghost use Rattle.std.specs.Prelude.{◌≡◌, IsTrue};
ghost use Rattle.lp_model.specs.declared.fault.refusal.Fault.{Fault};
ghost use Rattle.lp_model.specs.FaultLines.{fault_line, is_plain};
ghost use Rattle.lp_fault_text.specs.Lines.{line_of};
ghost use Rattle.lp_fault_text.specs.Views.{KnownView};
ghost use Rattle.lp_fault_text.specs.Laws.{PathsLeadFromTheTop};

/// The path of an instance that stands in fewer than 64 others has the names that lead from the top down to it.
pub fn paths_lead_from_the_top()
    ensures { PathsLeadFromTheTop }
{}

/// Where names, numbers and places alone give the fields of a fault, its line is the one that they give.
pub fn plain_lines_stay()
    ensures { (k : KnownView) (fault : Fault) → IsTrue (is_plain fault) → line_of k fault ≡ fault_line k.names fault }
{}
