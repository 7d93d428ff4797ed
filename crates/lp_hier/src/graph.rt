ghost use Rattle.std.specs.Prelude.{◌≡◌, IfOk, IfErr};
ghost use Rattle.std.specs.List.{All};
ghost use Rattle.lp_spec_bridge.specs.Tables.{IsClosed, tables_of};
ghost use Rattle.lp_templates.specs.Modules.{HasFewBits};
ghost use Rattle.lp_node_text.specs.Ready.{OnSource};
ghost use Rattle.lp_node_text.specs.Reports.{source_report};
ghost use Rattle.lp_hier.specs.Judged.{IsJudged};
ghost use Rattle.lp_hier.specs.Reports.{loop_report};
ghost use Rattle.lp_hier.specs.Elaborated.{AreReady, IsElaborated, IsFaulty, OnWires, StopsBy};

use crate::looped::loop_fault;
use crate::refused::Refused;
use lp_layout::laid_out;
use lp_model::{Graph, Library, Netlist};
use lp_node_text::source_fault;
use lp_targets::Hierarchy;
use lp_templates::{Template, templates_of};
use lp_text::{Names, NoMemory};
use std::alloc::Global;

/// Refuses a netlist of which a net bit has two drivers.
fn check_sources(
    alloc: Global,
    names: &Names,
    netlist: &Netlist,
    library: &Library,
    hierarchy: &Hierarchy,
    templates: &[Template],
) -> Result<(), Refused>
    requires { All HasFewBits netlist.now.modules }
    ensures { OnSource names.now netlist.now library.now hierarchy.now templates.now (λ s. StopsBy (source_report s) result) }
{
    match source_fault(alloc, names, netlist, library, hierarchy, templates)? {
        Some(line) => Err(Refused::Line(line)),
        None => Ok(()),
    }
}

/// An elaborated netlist of which no net bit reaches itself.
fn without_loops(
    alloc: Global,
    names: &Names,
    graph: Graph,
    hierarchy: &Hierarchy,
    templates: &[Template],
) -> Result<Graph, Refused>
    requires { IsClosed (tables_of graph) }
    ensures stops { OnWires names.now graph hierarchy.now templates.now (λ s. StopsBy (loop_report s) result) }
    ensures same { IfOk result (λ g. g ≡ graph) }
{
    match loop_fault(alloc, names, &graph, hierarchy, templates) {
        Ok(None) => Ok(graph),
        Ok(Some(line)) => Err(Refused::Line(line)),
        Err(NoMemory) => Err(Refused::NoMemory),
    }
}

/// The elaborated netlist, from the templates of the modules.
fn lay_out(
    alloc: Global,
    names: &Names,
    netlist: Netlist,
    library: &Library,
    hierarchy: &Hierarchy,
    templates: &[Template],
) -> Result<Graph, Refused>
    requires judged { IsJudged names.now netlist library.now hierarchy.now }
    requires ready { AreReady names.now netlist library.now hierarchy.now templates.now }
    ensures ok { IfOk result (IsElaborated names.now netlist library.now) }
    ensures err { IfErr result (IsFaulty names.now netlist library.now) }
{
    match check_sources(alloc, names, &netlist, library, hierarchy, templates) {
        Ok(()) => {}
        Err(refused) => return Err(refused),
    }
    let graph = laid_out(alloc, netlist, library, templates, hierarchy.top as u32)?;
    without_loops(alloc, names, graph, hierarchy, templates)
}

/// The elaborated netlist of a netlist that was read and of which no line of names, targets, modules, connections and cells
/// holds. Takes time and memory in proportion to the modules, their instances, net bits, pins and edges.
///
/// # Errors
///
/// The line of the first net bit with two drivers, else of the first that reaches itself through ports and assigns alone;
/// and where memory is refused.
pub fn elaborate(
    alloc: Global,
    names: &Names,
    netlist: Netlist,
    library: &Library,
    hierarchy: &Hierarchy,
) -> Result<Graph, Refused>
    requires judged { IsJudged names.now netlist library.now hierarchy.now }
    ensures ok { IfOk result (IsElaborated names.now netlist library.now) }
    ensures err { IfErr result (IsFaulty names.now netlist library.now) }
{
    let count = names.count();
    let rows = hierarchy.rows.as_slice();
    let sizes = hierarchy.sizes.as_slice();
    let templates = templates_of(alloc, count, &netlist, library, rows, sizes)?;
    lay_out(
        alloc,
        names,
        netlist,
        library,
        hierarchy,
        templates.as_slice(),
    )
}
