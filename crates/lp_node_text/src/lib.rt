//! The text of a net bit, found by going down the modules, and the line of a netlist whose net bit has two drivers.
#![tactic(auto)]

mod bits;
mod entered;
mod found;
mod line;
mod text;

pub use line::source_fault;
pub use text::node_text;
