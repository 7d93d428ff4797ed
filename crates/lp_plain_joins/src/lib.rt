//! The netlist of a flat design with its supplies: two more ports, to which every power and ground pin is joined.
#![tactic(auto)]

mod joins;
mod laws;
mod netlist;
mod ports;

pub use laws::powered_is_well_formed;
pub use netlist::connect_all;
