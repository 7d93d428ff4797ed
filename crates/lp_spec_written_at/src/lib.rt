//! That the written netlist has at each path of the source the written module of that path.
#![tactic(auto)]

mod laws;

pub use laws::{
    cells_are_as_chosen, connections_are_read, content_declares_its_bits,
    content_has_all_its_cells, content_has_no_other_cells, content_has_the_cells_of_operators,
    content_has_the_cells_of_the_source, content_has_the_instances_of_the_source,
    content_has_the_ports_of_origins, content_has_the_ports_of_the_source,
    content_is_a_project_netlist, content_is_shallow, content_knows_its_targets,
    control_names_are_net_bits, declared_bits_pass_the_test, expected_cells_differ,
    fit_targets_are_free, none_lacks_a_cell, operator_pins_are_read, operators_are_placed,
    operators_differ, operators_stand, origins_are_apart, pins_are_written,
    retention_pins_are_read, source_cells_differ, source_cells_stand, source_pins_are_kept,
    source_supplies_are_read, supply_names_differ, switch_controls_are_net_bits,
    switch_pins_are_read, switches_are_placed, switches_differ, switches_stand,
    written_instance_names_differ, written_is_a_project_netlist, written_is_written_at,
    written_module_names_differ, written_modules_have_instances, written_names_differ,
    written_operators_come_from_the_plan, written_part_names_differ,
    written_switches_come_from_the_plan,
};
