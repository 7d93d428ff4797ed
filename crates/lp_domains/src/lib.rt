//! The domain of each instance of an elaborated netlist, where domains meet, and what is wrong with domains.
#![tactic(auto)]

mod bits;
mod boundary;
mod domain_map;
mod laws;
mod listed;
mod members;

pub use domain_map::domains;
pub use laws::unconnected_bits_have_no_readers;
pub use members::instance_domains;
