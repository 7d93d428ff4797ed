//! Reads a Liberty text as its groups, or finds the place at which it is refused.
#![tactic(auto)]

mod ahead;
mod decode;
mod gap;
mod laws;
mod lexed;
mod mark;
mod read;
mod reader;
mod run;
mod runs;

pub use laws::{one_answer, one_list_of_groups, one_list_of_tokens};
pub use read::read_groups;
