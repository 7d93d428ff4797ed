//! A netlist that realises a project shows what the source shows under its power intent: what the project has to be, and
//! what it means that the values of the two sides agree. Definitions and laws alone.
#![tactic(auto)]

mod laws;

pub use laws::{
    agreement, agreement_by_indices, agreement_of_a_clamp, agreement_of_a_register,
    agreement_of_a_shifter, agrees_by_cells,
};
