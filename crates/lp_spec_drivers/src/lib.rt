//! How often each net bit is driven, by the places of its module: the first node with two drivers, from what is resolved
//! once for each module. Definitions and their laws.
#![tactic(auto)]

mod laws;

pub use laws::{
    below_is_there, first_entered_twice, first_two_drivers, inputs_are_apart, sources_are_counted,
    two_drivers_by_module,
};
