//! Stacks that contracts see as lists, the top first.
#![tactic(auto)]

mod stack;

pub use stack::Stack;
