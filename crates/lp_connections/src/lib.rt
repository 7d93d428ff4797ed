//! The faults of connections and assigns: unknown pins, connected power pins, other widths, unfit cells.
#![tactic(auto)]

mod assigns;
mod cell_names;
mod cells;
mod check;
mod connected;
mod design;
mod pins;
mod powered;
mod question;
mod rows;
mod sets;
mod widths;

pub use check::check_connections;
