//! The supply network of definitions as that of the state table: which sets may be lower than others, and which
//! voltages they may have together.
#![tactic(auto)]

mod laws;

pub use laws::{a_test_has_its_first_row, leaks_by_the_table, lower_by_the_table, one_first_row};
