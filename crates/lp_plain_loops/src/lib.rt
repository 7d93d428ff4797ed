//! Whether a node of a flat design depends on itself.
#![tactic(auto)]

mod driver;
mod drivers;
mod loops;
mod pins;
mod rows;

pub use loops::has_loop;
