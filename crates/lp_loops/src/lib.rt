//! The first key of a graph that reads itself, by one read or more.
#![tactic(auto)]

mod components;
mod looped;
mod search;

pub use looped::first_looped;
