ghost use Rattle.std.specs.Prelude.{◌≡◌, ◌≤◌, length, IfOk, None, slice_index_or};
ghost use Rattle.lp_spec_bridge.specs.Inherited.{value_in};
ghost use Rattle.lp_domains.specs.Listed.{noted, note_all, listings, own_or_first, own_or, domains_by};

use lp_model::{Domain, Inst, InstId};
use lp_text::NoMemory;
use sqlite_items::{Items, at};
use std::alloc::Global;

/// Notes the domain of an instance that has none yet.
fn note(table: &mut Vec<Option<u32>>, instance: InstId, domain: u32)
    ensures { table.new.items ≡ noted table.old.items instance.0 domain }
{
    let place = instance.0 as usize;
    if place < table.len() && table[place].is_none() {
        table[place] = Some(domain);
    }
}

/// Notes a domain of the instances that it lists.
fn note_all(table: &mut Vec<Option<u32>>, instances: &[InstId], domain: u32)
    ensures { table.new.items ≡ note_all table.old.items instances.now domain }
{
    for instance in instances {
        note(table, *instance, domain);
    }
}

/// For each of so many instances the first domain that lists it.
pub(crate) fn listings(
    alloc: Global,
    count: usize,
    domains: &[Domain],
) -> Result<Vec<Option<u32>>, NoMemory>
    requires { length domains.now ≤ 4294967295 }
    ensures { IfOk result (λ table. table.items ≡ listings count domains.now) }
{
    let mut table = vec![in alloc; None; count]?;
    for (number, domain) in domains.iter().enumerate() {
        note_all(&mut table, domain.elements.as_slice(), number as u32);
    }
    Ok(table)
}

/// What a table has at a place.
fn entry(table: &[Option<u32>], place: usize) -> Option<u32>
    ensures { result ≡ slice_index_or table.now place None }
{
    match at(table, place) {
        Some(domain) => *domain,
        None => None,
    }
}

/// The domain of an instance, by those of the instances before it.
fn value_in(done: &[u32], own: Option<u32>, parent: Option<InstId>) -> u32
    ensures { result ≡ value_in own_or_first own_or done.now own parent }
{
    if let Some(domain) = own {
        return domain;
    }
    match parent {
        Some(parent) => match at(done, parent.0 as usize) {
            Some(domain) => *domain,
            None => 0,
        },
        None => 0,
    }
}

/// The domain of each instance, by the first domain that lists it.
pub(crate) fn inherit(
    alloc: Global,
    table: &[Option<u32>],
    instances: &[Inst],
) -> Result<Items<u32>, NoMemory>
    requires { length table.now ≡ length instances.now }
    ensures { IfOk result (λ domains. domains ≡ domains_by table.now instances.now) }
{
    let mut done = Items::new(alloc);
    for (place, instance) in instances.iter().enumerate() {
        let own = entry(table, place);
        let domain = value_in(done.as_slice(), own, instance.parent);
        done.push(domain)?;
    }
    Ok(done)
}
