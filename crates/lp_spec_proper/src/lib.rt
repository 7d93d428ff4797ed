//! That a project without faults is one of which the laws on wires speak: what is added to it is proper, stands in its
//! instances, and leaves pins free. Definitions and laws alone.
#![tactic(auto)]

mod laws;

pub use laws::{
    added_cells_have_pins_apart, additions_are_proper, additions_have_fit_cells,
    additions_have_names, additions_have_places, additions_have_routes, additions_have_switches,
    additions_stand_on_ways, cells_have_free_pins, clamps_have_enables, insertable_is_orderly,
    insertable_is_ready, ports_have_supplies, routes_are_of_controls, source_is_plain,
    uses_are_of_origins, ways_come_from_there,
};
