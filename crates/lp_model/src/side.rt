/// Which domain's side of a boundary bit is meant (own rule).
#[derive(Clone, Copy)]
pub enum Side {
    /// The side of the boundary instance's own domain.
    Upper,
    /// The side of its parent's domain.
    Lower,
}

/// Where an operator stands (IEEE 1801-2015, `-location`).
#[derive(Clone, Copy)]
pub enum Location {
    /// self: on the upper side in the boundary instance, on the lower side in its parent.
    Own,
    /// parent: in the parent of the boundary instance.
    Parent,
}
