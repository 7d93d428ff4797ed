//! Whether a cell loses its outputs and its state exactly with its one supply, as `lp_spec_plain` says it.
#![tactic(auto)]

mod cell;
mod down;
mod rails;

pub use cell::loses_with_supply;
