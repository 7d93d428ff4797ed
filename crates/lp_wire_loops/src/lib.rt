//! The first net bit that reaches itself through ports and assigns alone, in an elaborated netlist.
#![tactic(auto)]

mod looped;
mod reads;

pub use looped::first_wire_loop;
