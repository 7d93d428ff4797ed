//! The netlist that an insertion edits, by number: definitions and their laws.
#![tactic(auto)]

mod laws;

pub use laws::{
    cells_are_added, cells_are_swapped, gaps_open_before, gaps_open_behind, nodes_are_assigned,
    pins_are_connected, ports_are_punched, sound_is_closed, wires_are_added,
};
