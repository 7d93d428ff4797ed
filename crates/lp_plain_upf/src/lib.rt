//! The power intent that is read today, one domain with one supply: its grammar in `specs/`, and its reader.
#![tactic(auto)]

mod intent;
mod names;
mod pieces;
mod plain;
mod spelled;

pub use intent::{one_intent, read_intent};
pub use plain::Intent;
