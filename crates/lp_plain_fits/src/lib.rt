//! Which netlists are taken, and when they fit the cells of the libraries.
#![tactic(auto)]

mod distinct;
mod fit;
mod joined;
mod nets;
mod single;
mod taken;

pub use fit::is_fit;
pub use single::is_single;
