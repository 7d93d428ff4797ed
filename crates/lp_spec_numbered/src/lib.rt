//! The templates of modules by the numbers of names are those of the layout: laws alone.
#![tactic(auto)]

mod laws;

pub use laws::{templates_are_sized, templates_are_those};
