//! Where supplies come from: joined supply ports and nets, their origins and roots, supply sets, and what is used.
#![tactic(auto)]

mod laws;

pub use laws::{
    a_closed_group_is_all, a_whole_group_is_closed, joined_is_an_equivalence, one_origin,
};
