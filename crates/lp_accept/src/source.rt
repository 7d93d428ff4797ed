ghost use Rattle.std.specs.Prelude.{◌≡◌, [], ◌∷◌, length, IfOk, IfErr};
ghost use Rattle.lp_model.specs.LibraryView.{library_view};
ghost use Rattle.lp_model.specs.NetlistView.{netlist_view};
ghost use Rattle.lp_targets.specs.Reports.{IsStop};
ghost use Rattle.lp_targets.specs.Structures.{structure_of};
ghost use Rattle.lp_sources.specs.Judged.{IsJudged};
ghost use Rattle.lp_spec_insertion.specs.Inputs.{parts_report};
ghost use Rattle.lp_accept.specs.Stages.{IsPlainRefusal, StopsAs};
ghost use Rattle.lp_accept.specs.Read.{AreModules, AreCells};
ghost use Rattle.lp_accept.specs.Judged.{FaultlessOrStop, TakenOrStop, SourceOrStop};

use crate::stop::{Stop, not_yet, stop_at};
use lp_connections::check_connections;
use lp_model::{Library, Module, Netlist, Refusal};
use lp_plain_fits::is_single;
use lp_sources::source_line;
use lp_targets::{Hierarchy, hierarchy_of};
use lp_text::{Names, NoMemory};
use std::alloc::Global;

/// What the instances of a netlist are of, where it has no fault of names, targets and modules, and none of connections,
/// assigns and cells.
fn check_parts(
    alloc: Global,
    names: &Names,
    library: &Library,
    netlist: &Netlist,
) -> Result<Hierarchy, Refusal>
    requires cells { AreCells names.now library.now }
    requires modules { AreModules names.now netlist.now }
    ensures ok { IfOk result (IsJudged names.now netlist.now library.now) }
    ensures err { IfErr result (IsStop names.now (parts_report (structure_of names.now netlist.now library.now))) }
{
    match hierarchy_of(alloc, names, netlist, library) {
        Ok(hierarchy) => {
            let rows = hierarchy.rows.as_slice();
            match check_connections(alloc, names, netlist, library, rows) {
                Ok(()) => Ok(hierarchy),
                Err(refusal) => Err(refusal),
            }
        }
        Err(refusal) => Err(refusal),
    }
}

/// The stop at a refusal whose line names and places alone give.
fn stop_of(alloc: Global, names: &Names, refusal: Refusal) -> Stop
    requires { IsPlainRefusal refusal }
    ensures { StopsAs names.now refusal result }
{
    match refusal {
        Refusal::Fault(fault) => stop_at(alloc, names, &fault),
        Refusal::NoMemory => Stop::NoMemory,
    }
}

/// Asks whether no net bit of a netlist that has no other fault has two drivers.
fn check_sources(
    alloc: Global,
    names: &Names,
    library: &Library,
    netlist: &Netlist,
    hierarchy: &Hierarchy,
) -> Result<(), Stop>
    requires judged { IsJudged names.now netlist.now library.now hierarchy.now }
    ensures { FaultlessOrStop (library_view names.now library.now) (netlist_view names.now netlist.now) result }
{
    match source_line(alloc, names, netlist, library, hierarchy) {
        Ok(None) => Ok(()),
        Ok(Some(line)) => Err(Stop::Fault(line)),
        Err(NoMemory) => Err(Stop::NoMemory),
    }
}

/// Asks whether a netlist is faultless.
fn check_netlist(
    alloc: Global,
    names: &Names,
    library: &Library,
    netlist: &Netlist,
) -> Result<(), Stop>
    requires cells { AreCells names.now library.now }
    requires modules { AreModules names.now netlist.now }
    ensures { FaultlessOrStop (library_view names.now library.now) (netlist_view names.now netlist.now) result }
{
    match check_parts(alloc, names, library, netlist) {
        Ok(hierarchy) => check_sources(alloc, names, library, netlist, &hierarchy),
        Err(refusal) => Err(stop_of(alloc, names, refusal)),
    }
}

/// Asks whether a netlist is faultless, and of the form that is taken.
fn check_source(
    alloc: Global,
    names: &Names,
    library: &Library,
    netlist: &Netlist,
) -> Result<(), Stop>
    requires cells { AreCells names.now library.now }
    requires modules { AreModules names.now netlist.now }
    ensures { TakenOrStop (library_view names.now library.now) (netlist_view names.now netlist.now) result }
{
    match check_netlist(alloc, names, library, netlist) {
        Ok(()) => {}
        Err(stop) => return Err(stop),
    }
    if is_single(names, netlist) {
        Ok(())
    } else {
        Err(not_yet(alloc, names, 4))
    }
}

/// The module of a netlist that has one.
fn only_module(netlist: Netlist) -> Module
    requires { length netlist.modules ≡ 1 }
    ensures { netlist.modules ≡ result ∷ [] }
{
    let mut modules = netlist.modules;
    match modules.pop() {
        Some(source) => source,
        None => unreachable!(),
    }
}

/// The one module of a faultless netlist of the form that is taken.
pub(crate) fn source_of(
    alloc: Global,
    names: &Names,
    library: &Library,
    netlist: Netlist,
) -> Result<Module, Stop>
    requires cells { AreCells names.now library.now }
    requires modules { AreModules names.now netlist }
    ensures { SourceOrStop names.now (library_view names.now library.now) (netlist_view names.now netlist) result }
{
    match check_source(alloc, names, library, &netlist) {
        Ok(()) => Ok(only_module(netlist)),
        Err(stop) => Err(stop),
    }
}
