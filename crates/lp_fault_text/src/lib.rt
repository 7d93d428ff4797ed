//! The lines of all faults: paths of instances and pins, port bits, supplies and strategies by their names.
#![tactic(auto)]

mod item;
mod items;
mod known;
mod laws;
mod line;
mod path;
mod supply;

pub use known::Known;
pub use laws::{paths_lead_from_the_top, plain_lines_stay};
pub use line::write_fault;
