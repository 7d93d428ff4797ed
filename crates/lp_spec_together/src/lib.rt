//! The netlist that an insertion writes implements its project and shows what the source shows: the laws of insertion
//! joined. Definitions and laws alone.
#![tactic(auto)]

mod laws;

pub use laws::{
    content_implements, content_is_wired, content_keeps_indices, content_shows_the_same,
    realised_is_supplied, shared_has_content, shared_implements, written_has_content,
    written_implements,
};
