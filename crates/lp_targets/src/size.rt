/// How much a module has, together with all below it. It takes 12 bytes.
#[derive(Clone, Copy)]
pub struct Size {
    /// Net bits, at most 4,000,000.
    pub nodes: u32,
    /// Cell instances, at most 1,000,000.
    pub cells: u32,
    /// Module instances, the module itself counted, at most 1,000,000.
    pub instances: u32,
}

/// What each module has together with all below it, by place, each up to one more than its limit.
#[derive(Drop)]
pub(crate) struct Counts {
    pub nodes: Vec<u64>,
    pub cells: Vec<u64>,
    pub instances: Vec<u64>,
    /// How many module instances the longest chain down from the module has, the module itself counted.
    pub depths: Vec<u64>,
}
