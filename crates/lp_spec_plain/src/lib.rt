//! Designs in which power intent inserts nothing and one supply serves everything: a netlist that keeps their wires and
//! joins every cell to that supply shows the same. Definitions and laws alone.
#![tactic(auto)]

mod laws;

pub use laws::{plain_netlist_is_supplied, plain_runs_alike};
