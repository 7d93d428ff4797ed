//! The top call: from words and files to the written netlist, with the theorem.
#![tactic(auto)]

mod design;
mod inserting;
mod outcome;
mod parsing;
mod reading;
mod running;
mod words;

pub use design::{Fault, Refusal, Written, insert_design};
pub use outcome::{Outcome, UsageFault, status};
pub use running::run;
