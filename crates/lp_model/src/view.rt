use crate::chain::{Rails, Winners};
use crate::graph::Graph;
use crate::intent::Intent;
use crate::library::Library;
use crate::supply::{DomainMap, Supplies};

/// All that is known of a design before its cells are chosen.
#[derive(Clone, Copy)]
pub struct View<'a> {
    /// Its power intent.
    pub intent: &'a Intent,
    /// Its bits.
    pub graph: &'a Graph,
    /// The cells.
    pub library: &'a Library,
    /// The supply network.
    pub supplies: &'a Supplies,
    /// The domain of each instance.
    pub domains: &'a DomainMap,
    /// The strategies that win.
    pub winners: &'a Winners,
    /// The supplies of nodes, and the chains.
    pub rails: &'a Rails,
}
