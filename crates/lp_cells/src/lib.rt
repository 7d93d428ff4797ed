//! The cells of Liberty groups: the cells of libraries, and why a cell cannot be used.
#![tactic(auto)]

mod cell;
mod faulty;
mod files;
mod judge;
mod laws;
mod reading;
mod structure;

pub use files::library;
pub use laws::{one_library, one_library_answer, usable_cells_are_sound};
