//! What the rows of a state table allow: one supply below another, a leak, and tuples of states.
#![tactic(auto)]

mod laws;
mod leak;
mod lower;
mod margin;
mod network;
mod states;
mod tuple;

pub use laws::{
    choices_say_lower, one_root_is_never_lower, ports_may_be_off, the_same_is_never_lower,
};
pub use leak::leak_row;
pub use lower::lower_row;
pub use margin::under;
pub use tuple::within;
