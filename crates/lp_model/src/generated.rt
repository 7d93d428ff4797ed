use lp_text::Bytes;

/// The texts of a generated design.
#[derive(Drop)]
pub struct Generated {
    /// The library (Liberty).
    pub library: Bytes,
    /// The netlist (IEEE 1364-2005).
    pub netlist: Bytes,
    /// The power intent (IEEE 1801-2015).
    pub upf: Bytes,
    /// The events (own form).
    pub events: Bytes,
}
