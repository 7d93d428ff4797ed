//! Designs of one module in one domain: which netlists are taken, when they fit the cells, and what design they give.
//! Definitions and laws alone.
#![tactic(auto)]

mod laws;

pub use laws::{fits_are_flat, ordered_has_no_loop};
