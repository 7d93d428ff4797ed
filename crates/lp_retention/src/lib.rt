//! Which retention strategy wins at each register of an elaborated netlist.
#![tactic(auto)]

mod best;
mod marks;
mod ranks;
mod winners;

pub use winners::retention_winners;
