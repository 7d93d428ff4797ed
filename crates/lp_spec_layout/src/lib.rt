//! How the tables of an elaborated netlist are made module by module: definitions and their laws.
#![tactic(auto)]

mod laws;

pub use laws::{
    feeds_go_on, heights_bound, laid_out_elaborates, leaf_rows_stand, noted_in_one_pass,
    rows_are_drives, rows_are_edges, sizes_count, walk_gives_sites,
};
