//! The parts of a cell in Liberty groups: its names, functions, pins, state and roles.
#![tactic(auto)]

mod function;
mod naming;
mod pg;
mod pin;
mod role;
mod scope;
mod source;
mod state;

pub use function::{down_of, function_if_any, over_if_any, passed, small};
pub use naming::{is_output, is_state, pg_names, signal_names};
pub use pg::{is_internal_power, kind_of, pgs_of};
pub use pin::{action_of, class_of, pins_of, restores, saves};
pub use role::{copy_of, is_retention, is_switch, roles_of};
pub use scope::{
    Frame, has_ground, has_primary_ground, has_primary_power, is_ground, is_power, only_ground,
    only_power,
};
pub use source::{arg_of, inside_of, is_cell, is_part, is_word, stands_in};
pub use state::{clock_text, is_pin, next_text, state_of};
