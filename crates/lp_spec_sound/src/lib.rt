//! Cells of a library that is read are what the laws on cells at their pins ask of a cell. A law alone.
#![tactic(auto)]

mod laws;

pub use laws::read_cells_are_sound;
