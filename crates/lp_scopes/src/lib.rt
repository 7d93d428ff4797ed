//! Where the names of power intent lead over an elaborated netlist, by the numbers of its instances.
#![tactic(auto)]

mod keys;
mod names;
mod scopes;
mod steps;
mod walk;

pub use scopes::Scopes;
pub use steps::Spot;
