//! That each net bit of the source, each wire that an operator makes and each net of a constant stands in the written netlist, and so each wire.
#![tactic(auto)]

mod laws;

pub use laws::{data_wires_stand, wires_stand};
