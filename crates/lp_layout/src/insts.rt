ghost use Rattle.std.specs.Prelude.{◌≡◌, map, IfOk};
ghost use Rattle.std.specs.Option.{option_copied, option_map};
ghost use Rattle.lp_spec_layout.specs.Laid.{parent_of};
ghost use Rattle.lp_layout.specs.Held.{held_parent};
ghost use Rattle.lp_layout.specs.Insts.{name_inside, instance_name, inst_of};
ghost use Rattle.lp_layout.specs.Sites.{spot_view, site_view, sites_view};

use crate::number::word;
use crate::rows::statement_name;
use crate::site::{Site, Spot};
use lp_model::{Inst, InstId, Module};
use lp_text::{NameId, NoMemory};
use sqlite_items::{Items, at};
use std::alloc::Global;

/// The name of the instance of a statement of another instance.
fn name_inside(modules: &[Module], own: NameId, outer: Option<&Site>, place: usize) -> NameId
    ensures { result.0 ≡ name_inside modules.now own.0 (option_map site_view (option_copied outer.entry)) place }
{
    match outer {
        Some(outer) => statement_name(at(modules, outer.of as usize), place),
        None => own,
    }
}

/// The name of an instance by the statement by which it stands in another; the top has one of its own.
fn instance_name(modules: &[Module], sites: &[Site], own: NameId, by: Option<Spot>) -> NameId
    ensures { result.0 ≡ instance_name modules.now (sites_view sites.now) own.0 (option_map spot_view by) }
{
    match by {
        Some(spot) => name_inside(modules, own, at(sites, spot.inst), spot.place),
        None => own,
    }
}

/// The instance in which one stands.
fn parent_of(by: Option<Spot>) -> Option<InstId>
    ensures { result ≡ option_map held_parent (parent_of (option_map spot_view by)) }
{
    match by {
        Some(spot) => Some(InstId(word(spot.inst))),
        None => None,
    }
}

/// The instance at a site.
fn inst_of(modules: &[Module], sites: &[Site], own: NameId, site: &Site) -> Inst
    ensures { result ≡ inst_of modules.now (sites_view sites.now) own.0 (site_view site.now) }
{
    Inst {
        name: instance_name(modules, sites, own, site.by),
        module: site.of,
        parent: parent_of(site.by),
        start: word(site.start),
    }
}

/// The instances at sites.
pub(crate) fn insts_of(
    alloc: Global,
    modules: &[Module],
    sites: &[Site],
    own: NameId,
) -> Result<Items<Inst>, NoMemory>
    ensures { IfOk result (λ r. r ≡ map (inst_of modules.now (sites_view sites.now) own.0) (sites_view sites.now)) }
{
    let mut insts = Items::new(alloc);
    for site in sites {
        insts.push(inst_of(modules, sites, own, site))?;
    }
    Ok(insts)
}
