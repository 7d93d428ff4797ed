//! What the words of a UPF text say as commands, or the one fault of the text. Definitions and laws alone.
#![tactic(auto)]

mod laws;

pub use laws::{elements_are_denoted, intent_is_said, intent_is_said_once};
