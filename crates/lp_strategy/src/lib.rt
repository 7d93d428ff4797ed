//! The strategies of a power intent over an elaborated netlist: what their elements name, and which of them win.
#![tactic(auto)]

mod elements;
mod sides;

pub use elements::check_elements;
pub use sides::is_register_of;
