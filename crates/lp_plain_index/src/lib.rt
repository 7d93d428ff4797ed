//! Cells and nets, found by the numbers of their names.
#![tactic(auto)]

mod cells;
mod nets;

pub use cells::CellIndex;
pub use nets::NetIndex;
