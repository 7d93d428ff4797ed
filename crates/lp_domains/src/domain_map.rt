ghost use Rattle.std.specs.Prelude.{◌≡◌, ◌≤◌, length, IfOk, IfErr};
ghost use Rattle.lp_domains.specs.Domains.{OnElaborated, OnNamed, HasBoundary, IsDomainFault};

use crate::bits::port_order;
use crate::boundary::{meeting_edges, meetings};
use crate::members::instance_domains;
use lp_model::{DomainMap, Graph, Intent, Refusal};
use std::alloc::Global;

/// Which instance of an elaborated netlist is of which domain, and the edges of the bits at which domains meet. Takes
/// time and memory in proportion to the graph and to what the domains list.
///
/// # Errors
///
/// As [`instance_domains`].
pub fn domains(alloc: Global, intent: &Intent, graph: &Graph) -> Result<DomainMap, Refusal>
    requires domains { length intent.now.domains ≤ 4294967295 }
    requires edges { length graph.now.edges ≤ 4294967295 }
    ensures ok { OnNamed intent.now graph.now (λ s i. IfOk result (HasBoundary s i)) }
    ensures err { OnElaborated intent.now graph.now (λ s i. IfErr result (IsDomainFault graph.now s i)) }
{
    let domain_of = instance_domains(alloc, intent, graph)?;
    let told = meetings(alloc, domain_of.as_slice(), graph.instances.as_slice())?;
    let edges = graph.edges.as_slice();
    let boundary = meeting_edges(alloc, told.as_slice(), graph.nodes.as_slice(), edges)?;
    let bits = port_order(alloc, boundary.as_slice(), graph.inner as usize, edges)?;
    Ok(DomainMap {
        domain_of,
        boundary,
        bits,
    })
}
