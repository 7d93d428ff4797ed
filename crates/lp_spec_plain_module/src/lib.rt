//! Designs of one module in one domain: their netlists with supplies show what the sources show under their intent.
//! Definitions and laws alone.
#![tactic(auto)]

mod laws;

pub use laws::{flat_netlist_is_supplied, flat_runs_alike};
