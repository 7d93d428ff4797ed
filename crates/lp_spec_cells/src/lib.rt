//! What one cell instance of a netlist does at its pins, where its cell fits what power intent asks: a clamp, a level
//! shifter, a retention register, a power switch. Definitions and laws alone.
#![tactic(auto)]

mod laws;

pub use laws::{
    added_hold_no_state, clamp_gives, clamp_relates, clamp_shows, functions_agree,
    looks_at_its_pins, plain_pin_relates, register_does, register_relates, register_saves,
    register_shows, registers_hold_state, related_to_its_set, shifter_data_relates,
    shifter_is_inside, shifter_is_up, shifter_looks_at_its_pins, shifter_output_relates,
    shifter_passes, shifter_shows, source_does, source_relates, source_shows, switch_feeds,
    switch_gives, switch_pin_relates, up_where_its_sets_are_on,
};
