//! What the cells of a library do: the values of their outputs, their next states, and retention.
#![tactic(auto)]

mod control;
mod function;
mod laws;
mod register;
mod signal;
mod usable;

pub use control::{copy_next, fires, main_next};
pub use function::{cell_output, power_down_value};
pub use laws::{
    always_false, always_true, cleared_is_zero, disabled_latch_keeps, idle_restore_leaves,
    inverse_is_complement, named_pins_decide, still_flop_keeps, value_by_bit,
};
pub use register::state_next;
pub use usable::is_usable;
