//! That the written netlist keeps its content where modules of equal content are written once.
#![tactic(auto)]

mod laws;

pub use laws::{
    shared_has_all_its_cells, shared_has_the_instances_of_the_source, shared_is_a_project_netlist,
    shared_is_written_at, shared_modules_have_instances, shared_names_differ,
    sharing_keeps_content, sharing_keeps_modules_reached, sharing_keeps_names_apart,
    written_can_be_shared,
};
