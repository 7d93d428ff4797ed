//! Structural Verilog netlists (IEEE 1364-2005, the subset that is read).
#![tactic(auto)]

mod laws;
mod naming;
mod netlist;
mod reading;

pub use laws::{
    grown_names_keep_readings, numbers_stand, one_line, one_netlist, one_outcome, parts_are_few,
    refused_reads_nothing,
};
pub use netlist::read_netlist;
