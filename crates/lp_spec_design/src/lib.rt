//! A design as definitions speak of it: instances by their paths, net bits by their names, what drives what, and
//! which operators power intent asks for.
#![tactic(auto)]

mod laws;
mod texts;

pub use laws::{
    active_clamp_holds, lost_behind_an_off_supply, lost_where_the_rail_is_off, no_loop_has_fuel,
    rails_go_on, runs_once, same_registers_as_themselves, settles_once, sources_have_nodes,
    unwanted_shifter_stays_out, winner_is_alone,
};
pub use texts::functions_by_texts;
