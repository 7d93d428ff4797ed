//! Which net bit of the written netlist stands for each wire of an insertion, and that it is driven as the wire is.
#![tactic(auto)]

mod laws;

pub use laws::{
    added_assigns_drive_no_chain, added_names_are_apart, chain_nets_are_apart,
    chain_nets_have_no_ports, constant_nets_are_apart, constant_nets_are_not_made,
    controls_are_apart, controls_are_no_others, controls_are_not_supplies, controls_come_down,
    inner_reads_come_down, inputs_come_down, node_names_are_apart, node_names_are_not_led,
    node_names_are_not_made, operator_wires_are_apart, source_assigns_drive_no_chain,
    supplies_are_apart, supplies_are_no_others, supply_ports_come_down, switch_outputs_come_down,
    top_inputs_come_in, top_reads_come_in,
};
