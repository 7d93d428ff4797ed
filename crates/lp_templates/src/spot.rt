use lp_model::BitRange;

/// Where the bits of a port or net lie among those of its module.
#[derive(Clone, Copy)]
pub(crate) struct Spot {
    /// The first one.
    pub start: u32,
    /// The range of a vector.
    pub range: Option<BitRange>,
}
