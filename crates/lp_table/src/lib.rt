//! Distinct texts in the order of their first coming, with quick look-up.
#![tactic(auto)]

mod table;

pub use table::{Table, all_distinct};
