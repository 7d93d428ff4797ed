/// How much room edits of a netlist take. What is added to a module counts once for each of its instances.
#[derive(Clone, Copy)]
pub struct Counts {
    /// Nodes.
    pub nodes: u64,
    /// Cell instances.
    pub leaves: u64,
    /// Ports of module instances.
    pub ports: u64,
    /// Signal pins and pg_pins of cell instances.
    pub pins: u64,
}
