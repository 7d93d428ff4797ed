//! The written netlist has at most one source for each node.
#![tactic(auto)]

mod laws;

pub use laws::{content_has_own_names, content_has_single_sources, sources_are_equal};
