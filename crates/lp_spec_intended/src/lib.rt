//! What a text of power intent gives over a netlist is what the theorem of insertion asks of it. Definitions and laws
//! alone.
#![tactic(auto)]

mod laws;

pub use laws::{texts_give_projects, texts_make_networks};
