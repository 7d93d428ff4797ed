//! In the written netlist pins, outputs of the top, controls, supplies and net bits of the source begin where they have
//! to: by the ends of its wires and by what its pins are connected to. Definitions and laws alone.
#![tactic(auto)]

mod laws;

pub use laws::{
    controls_begin_where_they_have_to, everything_begins_as_intended, insertable_begins,
    net_bits_begin_where_they_have_to, pins_and_outputs_begin_where_they_have_to,
    supplies_begin_where_they_have_to, written_content_has_its_wires,
};
