//! The text of a structural netlist (IEEE 1364-2005, the subset that is read), one item a line.
#![tactic(auto)]

mod bits;
mod items;
mod laws;
mod module;
mod name;
mod netlist;
mod vectors;

pub use laws::{
    example_is_well_formed, numbered_has_table, read_is_sound, reads_back, short_has_table,
};
pub use netlist::write_netlist;
