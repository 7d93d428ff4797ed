//! What the commands of power intent mean over a design: names, what each command makes, and its faults.
#![tactic(auto)]

mod laws;

pub use laws::names_stand_inside;
