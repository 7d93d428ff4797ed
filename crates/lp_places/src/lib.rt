//! The first place of each number in a list, and numbers of names in place of their texts.
#![tactic(auto)]

mod laws;
mod places;

pub use laws::numbers_are_texts;
pub use places::Places;
