//! The line of the first net bit with two drivers, for a netlist of which no line before it holds.
#![tactic(auto)]

mod line;

pub use line::source_line;
