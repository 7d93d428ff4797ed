use lp_model::{Cell, Instance};
use lp_text::NameId;

/// What drives a net.
#[derive(Clone, Copy)]
pub(crate) enum Driver<'a> {
    /// The outside, by an input port.
    Port,
    /// An output pin of an instance of a cell, by its name.
    Pin(&'a Instance, &'a Cell, NameId),
}
