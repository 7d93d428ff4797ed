//! The project of a netlist whose power intent has one domain over its top, and that the netlist that is written for it
//! implements it and shows what it shows. Definitions and laws alone.
#![tactic(auto)]

mod laws;

pub use laws::{
    nothing_is_planned, one_domain_implements, one_domain_is_insertable, one_domain_is_met,
    one_domain_is_read, one_domain_is_within_limits, read_sources,
};
