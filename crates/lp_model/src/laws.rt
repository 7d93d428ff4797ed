//! Laws about the definitions alone: each is the clause of a function that does nothing.
ghost use Rattle.std.specs.Prelude.{◌≡◌, None};
ghost use Rattle.lp_model.specs.Slots.{set_in, strategy_in};
ghost use Rattle.lp_model.specs.Laws.{GrownNamesKeepLibraries, GrownNamesKeepNetlists, GrownNamesKeepGroups, GrownNamesKeepWords, GrownNamesKeepCommands};

use crate::slot::{SetSlot, StrategySlot};

/// A library says the same when the table of its names has grown.
pub fn grown_names_keep_libraries()
    ensures { GrownNamesKeepLibraries }
{}

/// A netlist says the same when the table of its names has grown.
pub fn grown_names_keep_netlists()
    ensures { GrownNamesKeepNetlists }
{}

/// Liberty groups say the same when the table of their names has grown.
pub fn grown_names_keep_groups()
    ensures { GrownNamesKeepGroups }
{}

/// The words and the commands of a UPF text say the same when the table of their names has grown.
pub fn grown_names_keep_commands()
    ensures words { GrownNamesKeepWords }
    ensures commands { GrownNamesKeepCommands }
{}

/// The empty slots name nothing.
pub fn empty_slots_name_nothing()
    ensures sets { set_in SetSlot.NONE ≡ None }
    ensures strategies { strategy_in StrategySlot.NONE ≡ None }
{}
