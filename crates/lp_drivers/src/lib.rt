//! The first net bit of a netlist that is driven twice, found module by module from what is resolved once for each.
#![tactic(auto)]

mod below;
mod cells;
mod first;
mod laws;
mod marks;
mod seen;
mod widths;

pub use first::{check_drivers, first_twice};
pub use laws::same_widths_mean_single_bits;
