//! How many sources a node of a netlist has, where names are apart.
#![tactic(auto)]

mod laws;

pub use laws::{equal_sources_are_single, sources_differ};
