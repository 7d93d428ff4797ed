//! The tables that are laid out are those of the layout: laws alone.
#![tactic(auto)]

mod laws;

pub use laws::{laid_is_laid_out, shapes_are_held};
