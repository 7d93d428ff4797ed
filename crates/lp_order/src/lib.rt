//! An order of numbered keys by what reads what, or that there is a loop.
#![tactic(auto)]

mod graph;
mod walk;

pub use graph::Graph;
pub use walk::{is_ordered, order_of};
