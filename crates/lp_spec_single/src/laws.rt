//! Laws about how many sources a node has: each is the clause of a function that does nothing.
ghost use Rattle.lp_spec_single.specs.Laws.{EqualSourcesAreSingle, SourcesDiffer};

/// No source of a node is listed twice.
pub fn sources_differ()
    ensures { SourcesDiffer }
{}

/// A node of which all sources are one has at most one.
pub fn equal_sources_are_single()
    ensures { EqualSourcesAreSingle }
{}
