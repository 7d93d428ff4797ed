use lp_text::Bytes;

/// The power intent of a design with one power domain, which is the top's.
#[derive(Drop)]
pub struct Intent {
    /// The supply port that is the power of the domain's primary supply.
    pub power: Bytes,
    /// The supply port that is its ground.
    pub gnd: Bytes,
    /// The supply set.
    pub set: Bytes,
    /// The power domain.
    pub domain: Bytes,
    /// The name of the one state of the power port.
    pub state: Bytes,
    /// The voltage of that state in microvolts, at most 10^12.
    pub voltage: u64,
}
