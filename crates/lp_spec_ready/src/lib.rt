//! What the calls on the bits of modules ask is what readers and the calls before them give: laws alone.
#![tactic(auto)]

mod laws;

pub use laws::{modules_have_few_bits, read_modules_declare_their_bits, read_names_are_apart};
