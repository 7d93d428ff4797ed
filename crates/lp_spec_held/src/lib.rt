//! What the numbers of an edited netlist stand for while an insertion goes on: definitions and their laws.
#![tactic(auto)]

mod laws;

pub use laws::{nothing_is_done_at_first, one_more_operator_is_held};
