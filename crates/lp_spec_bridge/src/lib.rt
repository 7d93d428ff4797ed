//! How the numbers of an elaborated netlist's tables stand for the parts of a design by their paths: definitions and
//! their laws.
#![tactic(auto)]

mod laws;

pub use laws::{
    cells_by_number, domains_inherit, drivers_are_listed, drives_are_noted, ends_by_number,
    inputs_by_number, kept_tables_elaborate, kept_tables_represent, keys_stand_once,
    leaves_read_by_number, loops_by_number, noted_are_sources, passes_by_number, pins_by_number,
    readers_behind_an_edge, readers_by_number, rows_serve, templates_serve, tests_are_right,
    trails_by_number, wire_loops_by_number, wire_sources_by_number,
};
