//! The netlist that an insertion writes is well formed, so that its text reads as that netlist. Definitions and laws alone.
#![tactic(auto)]

mod laws;

pub use laws::{
    read_is_legal, shared_has_table, shared_is_well_formed, shared_reads_back, sharing_keeps_form,
    sharing_keeps_table, written_is_well_formed, written_modules_are_well_formed,
    written_reads_back,
};
