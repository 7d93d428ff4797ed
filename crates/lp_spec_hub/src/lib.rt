//! What drives each wire while an insertion goes on, some entries of its plan being done in any order: each wire by a
//! key that no later entry changes.
#![tactic(auto)]

mod laws;

pub use laws::{
    chains_go_by_the_set_of_readers, controls_begin_where_their_nodes_do,
    equal_content_is_an_equivalence, net_bits_begin_as_intended, nodes_begin_behind_what_is_done,
    one_more_operator_changes_one_wire, operators_have_their_cells,
    operators_stand_near_their_bits, operators_take_data_as_intended, operators_take_their_data,
    origins_begin_as_intended, other_entries_change_no_wire, parts_stand_aside,
    parts_stay_as_they_are, plan_goes_by_boundary_bits, plan_goes_by_numbers, plan_is_in_flow,
    plan_is_whole, routes_are_sound, routes_come_to_their_readers, supplies_begin_at_their_origins,
    the_whole_plan_begins_as_intended, ways_come_from_their_bits, ways_stand_apart,
    what_is_done_is_in_flow, wires_have_their_ends, written_modules_have_names_of_their_own,
};
