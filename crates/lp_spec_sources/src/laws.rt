//! Laws about the sources of the written netlist: each is the clause of a function that only calls others.
ghost use Rattle.lp_spec_sources.specs.Laws.{ContentHasOwnNames, ContentHasSingleSources, SourcesAreEqual};

use lp_spec_proper::additions_are_proper;
use lp_spec_single::equal_sources_are_single;
use lp_spec_wired::chain_nets_have_no_ports;

/// Two sources of a node are one.
pub fn sources_are_equal()
    ensures { SourcesAreEqual }
{
    chain_nets_have_no_ports();
}

/// The parts of each module, and the pins of each cell, have names of their own.
pub fn content_has_own_names()
    ensures { ContentHasOwnNames }
{}

/// Each node of the written netlist of a project that is read and has no fault has at most one source, within limits.
pub fn content_has_single_sources()
    ensures { ContentHasSingleSources }
{
    additions_are_proper();
    sources_are_equal();
    content_has_own_names();
    equal_sources_are_single();
}
