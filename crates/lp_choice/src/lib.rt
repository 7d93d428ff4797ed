//! Which cell of a library is taken for a clamp, a level shifter or a power switch, as `lp_spec_fit` says it.
#![tactic(auto)]

mod choose;
mod clamps;
mod down;
mod functions;
mod keys;
mod least;
mod parts;
mod rails;
mod shifts;
mod switches;
mod voltages;
mod wanted;
mod wires;

pub use choose::{choose_iso, choose_shift, choose_switch};
