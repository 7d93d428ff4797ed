//! A netlist judged by its pins: its supplies, what settles, and how its registers go on.
#![tactic(auto)]

mod laws;

pub use laws::{lost_where_powered_down, runs_once_by_pins, settles_once_by_pins};
