//! The voltages of supplies in every event within the rows of the state table, as they are in what settles under
//! intent: which supplies are never under others, and what shifters and clamps are given.
#![tactic(auto)]

mod laws;

pub use laws::{
    clamp_powers, fitting_is_inside, inputs_have_states, lost_behind_an_off_rail,
    never_under_itself, no_clamp_is_under, no_control_is_under, no_enable_is_under,
    no_input_is_under, no_output_is_under, no_reader_is_under, no_reading_set_is_under,
    no_retention_pin_is_under, no_switch_pin_is_under, on_as_its_input, on_as_its_root,
    operators_stand_in_their_chain, outputs_show_their_nodes, pairs_by_their_powers,
    pairs_hold_the_voltages, pin_power_stands, pins_read_their_nodes, power_of_functions,
    powers_have_states, reads_its_node, register_powers, retention_powers, sets_by_their_powers,
    settled_is_fed, shared_power_is_not_under, shifted_by_the_output, shifter_data_power,
    shifter_output_power, shifters_are_never_unfit, shifters_read_their_data,
    shifters_take_their_rail, source_powers, taken_is_inside, top_powers, ways_take_their_rail,
    within_not_lower,
};
