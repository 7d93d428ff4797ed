//! Supplies and controls stand in the written netlist, wires are closed, and no wire comes back to where it began.
#![tactic(auto)]

mod laws;

pub use laws::{
    control_wires_stand, no_wire_comes_back, supply_wires_stand, wires_are_closed, wires_begin,
};
