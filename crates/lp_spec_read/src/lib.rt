//! What readers of netlists and libraries give is what the theorem of insertion asks of a project that is read. Laws alone.
#![tactic(auto)]

mod laws;

pub use laws::{
    read_cell_names_differ, read_cells_have_sound_pins, read_netlists_declare_their_bits,
};
