//! The supply network and the project that power intent gives over a netlist, and that they are what other laws ask of them.
#![tactic(auto)]

mod laws;

pub use laws::{
    controls_are_declared, nodes_are_found, origins_are_named, origins_are_visible,
    sets_are_numbered, sets_have_origins, strategies_name_their_controls, switches_are_kept,
    text_is_intended, text_is_intended_once,
};
