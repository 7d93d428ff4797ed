//! What the inputs of an insertion denote, which of them are refused by which line, and what is promised of the rest.
//! Definitions and laws alone.
#![tactic(auto)]

mod laws;

pub use laws::{inputs_are_read, no_fault, one_fault};
