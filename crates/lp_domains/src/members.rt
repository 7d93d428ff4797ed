ghost use Rattle.std.specs.Prelude.{◌≡◌, ◌≤◌, length, IfOk, IfErr, slice_get};
ghost use Rattle.lp_domains.specs.Domains.{unlisted_top, without_primary, OnElaborated, HasDomains, IsDomainFault};

use crate::listed::{inherit, listings};
use lp_model::{Domain, Graph, Inst, Intent, Refusal, SupplyFault};
use lp_text::NameId;
use sqlite_items::{Items, at};
use std::alloc::Global;

/// The name of the top, where no domain lists it.
fn unlisted_top(instances: &[Inst], table: &[Option<u32>]) -> Option<NameId>
    ensures { result ≡ unlisted_top (slice_get instances.now 0) (slice_get table.now 0) }
{
    match (at(instances, 0), at(table, 0)) {
        (Some(top), Some(None)) => Some(top.name),
        _ => None,
    }
}

/// The first domain without a primary supply.
fn without_primary(domains: &[Domain]) -> Option<usize>
    ensures { result ≡ without_primary domains.now }
{
    for (number, domain) in domains.iter().enumerate() {
        if domain.primary.is_none() {
            return Some(number);
        }
    }
    None
}

/// The domain of each instance of an elaborated netlist. Takes time and memory in proportion to the instances and to
/// what the domains list.
///
/// # Errors
///
/// The top is in no domain, or a domain has no primary supply: then the first such domain. Or memory is refused.
pub fn instance_domains(
    alloc: Global,
    intent: &Intent,
    graph: &Graph,
) -> Result<Items<u32>, Refusal>
    requires { length intent.now.domains ≤ 4294967295 }
    ensures ok { OnElaborated intent.now graph.now (λ s i. IfOk result (HasDomains s i)) }
    ensures err { OnElaborated intent.now graph.now (λ s i. IfErr result (IsDomainFault graph.now s i)) }
{
    let instances = graph.instances.as_slice();
    let table = listings(alloc, instances.len(), intent.domains.as_slice())?;
    if let Some(top) = unlisted_top(instances, table.as_slice()) {
        return Err(Refusal::from(SupplyFault::NoDomain { top }));
    }
    if let Some(domain) = without_primary(intent.domains.as_slice()) {
        let domain = domain as u32;
        return Err(Refusal::from(SupplyFault::NoPrimary { domain }));
    }
    Ok(inherit(alloc, table.as_slice(), instances)?)
}
