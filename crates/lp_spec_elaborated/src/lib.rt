//! An elaborated netlist is sound for editing: laws alone.
#![tactic(auto)]

mod laws;

pub use laws::{
    elaborated_is_sound, laid_out_drives_by_pins, laid_out_is_held, read_has_sound_wires,
};
