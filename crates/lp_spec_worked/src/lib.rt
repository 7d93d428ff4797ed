//! The premises of the theorem of insertion can be met at once: a worked project with each kind of addition, for which they
//! are computed. Definitions and laws alone.
#![tactic(auto)]

mod laws;

pub use laws::insertion_is_met;
