//! What drives each net bit of the written netlist: what drives the wire for which it stands.
#![tactic(auto)]

mod laws;

pub use laws::{
    added_outputs_give, assign_bits_stand, assigns_give, cell_bits_stand, constant_nets_stand,
    constants_give, control_assigns_give, controls_go_up, controls_lead_out,
    net_bits_are_driven_as_told, operators_give, operators_stand, outer_sides_stand,
    output_bits_stand, output_reads_stand, outputs_give, source_cells_give, sources_give,
    supplies_go_up, switch_outputs_stand, switches_give, undriven_wires_stand, wires_are_apart,
};
