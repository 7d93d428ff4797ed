//! The absence of faults: where no line of the table of faults holds, a project that is read is one of which the theorem of
//! insertion speaks. Definitions and laws alone.
#![tactic(auto)]

mod laws;

pub use laws::{controls_by_any_order, no_fault_is_faultless, no_loop_has_order};
