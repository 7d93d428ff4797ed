//! Which cells fit a clamp, a level shifter, a retention register and a power switch, which of them is taken, and
//! which supply each of their power and ground pins is joined to.
#![tactic(auto)]

mod laws;

pub use laws::{a_choice_is_least, lost_with_its_supplies, no_choice_no_cell};
