ghost use Rattle.std.specs.Prelude.{◌≡◌, None, slice_get, IfOk, IfErr};
ghost use Rattle.std.specs.List.{All};
ghost use Rattle.lp_templates.specs.Modules.{HasFewBits};
ghost use Rattle.lp_spec_faults.specs.Lines.{first_of};
ghost use Rattle.lp_spec_faults.specs.Wires.{two_drivers};
ghost use Rattle.lp_drivers.specs.Table.{own_on_top, on_top, seen_in, first_by};
ghost use Rattle.lp_drivers.specs.Ready.{OnReady, IsFirstTwice, IsTwoDrivers};

use crate::below::{all_below, entry, moved};
use crate::cells::all_driving;
use crate::marks::Marks;
use crate::seen::all_seen;
use lp_model::{Library, Module, Netlist, NetlistFault, NodeId, Refusal};
use lp_targets::Hierarchy;
use lp_templates::Template;
use lp_text::NoMemory;
use sqlite_items::{Items, at};
use std::alloc::Global;

/// The first of the top's own bits that is driven twice.
fn own_on_top(seen: &[Marks], modules: &[Module], top: usize) -> Option<usize>
    ensures { result ≡ own_on_top (slice_get seen.now top) (slice_get modules.now top) }
{
    let marks = at(seen, top)?;
    let source = at(modules, top)?;
    marks.twice_on_top(source.ports.as_slice())
}

/// The first node that is driven twice, by what is noted of the modules below the top.
fn on_top(seen: &[Marks], table: &[Option<u32>], modules: &[Module], top: usize) -> Option<u32>
    ensures { result ≡ on_top seen.now table.now modules.now top }
{
    if let Some(place) = own_on_top(seen, modules, top) {
        return Some(moved(0, place));
    }
    entry(table, top)
}

/// The first node that is driven twice, by the pins of each cell that drive.
fn first_by(
    alloc: Global,
    cells: &[Items<bool>],
    modules: &[Module],
    templates: &[Template],
    order: &[usize],
    top: usize,
) -> Result<Option<u32>, NoMemory>
    ensures { IfOk result (λ o. o ≡ first_by (seen_in cells.now modules.now templates.now) modules.now templates.now order.now top) }
{
    let seen = all_seen(alloc, cells, modules, templates)?;
    let table = all_below(alloc, seen.as_slice(), templates, order)?;
    Ok(on_top(seen.as_slice(), table.as_slice(), modules, top))
}

/// The first net bit of a netlist with two drivers, by the number of its node, where `hierarchy` says what the instances
/// are of and `templates` what is resolved of each module. Takes time and memory in proportion to the cells of the
/// library, and to the bits, statements and runs of the modules: no instance is looked at twice.
///
/// # Errors
///
/// Only where memory is refused.
pub fn first_twice(
    alloc: Global,
    netlist: &Netlist,
    library: &Library,
    hierarchy: &Hierarchy,
    templates: &[Template],
) -> Result<Option<NodeId>, NoMemory>
    requires { All HasFewBits netlist.now.modules }
    ensures { OnReady netlist.now library.now hierarchy.now templates.now (λ s. IfOk result (IsFirstTwice s)) }
{
    let cells = all_driving(alloc, library)?;
    let modules = netlist.modules.as_slice();
    let order = hierarchy.order.as_slice();
    let found = first_by(
        alloc,
        cells.as_slice(),
        modules,
        templates,
        order,
        hierarchy.top,
    )?;
    match found {
        Some(node) => Ok(Some(NodeId(node))),
        None => Ok(None),
    }
}

/// Asks whether no net bit of a netlist has two drivers, as [`first_twice`].
///
/// # Errors
///
/// The first net bit with two drivers, by the number of its node; and where memory is refused.
pub fn check_drivers(
    alloc: Global,
    netlist: &Netlist,
    library: &Library,
    hierarchy: &Hierarchy,
    templates: &[Template],
) -> Result<(), Refusal>
    requires { All HasFewBits netlist.now.modules }
    ensures ok { OnReady netlist.now library.now hierarchy.now templates.now (λ s. IfOk result (λ _. first_of (two_drivers s) ≡ None)) }
    ensures err { OnReady netlist.now library.now hierarchy.now templates.now (λ s. IfErr result (IsTwoDrivers s)) }
{
    match first_twice(alloc, netlist, library, hierarchy, templates)? {
        Some(node) => Err(Refusal::from(NetlistFault::TwoDrivers { node })),
        None => Ok(()),
    }
}
