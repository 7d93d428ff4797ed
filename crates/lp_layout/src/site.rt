ghost use Rattle.std.specs.Prelude.{◌≤◌};

/// A statement of a module instance.
#[derive(Clone, Copy)]
pub(crate) struct Spot {
    /// The instance's number.
    pub inst: usize,
    /// The statement's place in its module.
    pub place: usize,
}

/// A module instance. It takes 48 bytes.
#[derive(Clone, Copy)]
pub(crate) struct Site {
    /// The statement by which it stands in another; the top stands in none.
    pub by: Option<Spot>,
    /// Its first node.
    pub start: usize,
    /// The first cell instance in it or below.
    pub leaf: usize,
    /// Its module.
    pub of: u32,
    /// Far below what 64 bits hold.
    ghost start_fits: { start ≤ 1099511627776 },
    ghost leaf_fits: { leaf ≤ 1099511627776 },
}
