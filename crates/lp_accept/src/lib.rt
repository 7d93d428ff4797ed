//! The design of the texts of an insertion, or their first fault.
#![tactic(auto)]

mod accepted;
mod judge;
mod libraries;
mod netlist;
mod plain;
mod source;
mod stop;

pub use accepted::{Accepted, accept};
pub use stop::Stop;
