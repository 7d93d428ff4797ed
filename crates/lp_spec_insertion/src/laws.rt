//! Laws about the definitions alone: each is the clause of a function that does nothing.
ghost use Rattle.std.specs.Prelude.{◌≡◌, ℕ, List, true};
ghost use Rattle.lp_model.specs.NetlistView.{ModuleView};
ghost use Rattle.lp_model.specs.LibraryView.{CellView};
ghost use Rattle.lp_plain_upf.specs.declared.plain.Intent.{Intent};
ghost use Rattle.lp_spec_plain_netlist.specs.Fits.{are_read};
ghost use Rattle.lp_spec_insertion.specs.Inputs.{Inputs, ReadsBoth, Accepts};
ghost use Rattle.lp_spec_insertion.specs.Faults.{FirstFault};

use lp_cells::{one_library, usable_cells_are_sound};
use lp_liberty::{one_answer, one_list_of_groups};
use lp_plain_upf::one_intent;
use lp_verilog::{one_line, one_netlist, refused_reads_nothing};
use lp_vwrite::read_is_sound;

/// Inputs have at most one first fault.
pub fn one_fault()
    ensures { (inputs : Inputs) (a b : List ℕ) → FirstFault inputs a → FirstFault inputs b → a ≡ b }
{
    one_answer();
    one_list_of_groups();
    one_library();
    one_line();
    one_netlist();
    refused_reads_nothing();
    one_intent();
}

/// Inputs that are accepted have no fault.
pub fn no_fault()
    ensures { (inputs : Inputs) (cells : List CellView) (m : ModuleView) (i : Intent) (line : List ℕ) → Accepts inputs cells m i → FirstFault inputs line → ⊥ }
{
    one_answer();
    one_list_of_groups();
    one_library();
    one_line();
    one_netlist();
    refused_reads_nothing();
    one_intent();
}

/// The cells and the module that inputs denote have what stands of everything that is read.
pub fn inputs_are_read()
    ensures { (inputs : Inputs) (cells : List CellView) (m : ModuleView) → ReadsBoth inputs cells m → are_read cells m ≡ true }
{
    usable_cells_are_sound();
    read_is_sound();
}
