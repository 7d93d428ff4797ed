//! The elaborated netlist of a netlist of which no line before its net bits holds, or the first fault of its net bits: two
//! drivers, or a way over ports and assigns alone that comes back.
#![tactic(auto)]

mod graph;
mod looped;
mod refused;

pub use graph::elaborate;
pub use refused::Refused;
