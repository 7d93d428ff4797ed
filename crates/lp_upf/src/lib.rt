//! Reads a UPF text as its commands, or finds the text's one fault.
#![tactic(auto)]

mod command;
mod commands;
mod expressions;
mod fault;
mod lists;
mod named;
mod needs;
mod options;
mod read;
mod sense;
mod states;
mod tables;
mod words;

pub use read::read_intent;
