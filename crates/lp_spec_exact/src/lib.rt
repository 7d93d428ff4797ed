//! No number of an elaborated netlist is more than its tables hold: laws alone.
#![tactic(auto)]

mod laws;

pub use laws::numbers_are_held;
