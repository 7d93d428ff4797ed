ghost use Rattle.std.specs.Prelude.{◌≡◌, option_map, IfOk};
ghost use Rattle.lp_targets.specs.Structures.{structure_of};
ghost use Rattle.lp_node_text.specs.Reports.{report_line, source_report};
ghost use Rattle.lp_sources.specs.Judged.{IsJudged};

use lp_model::{Library, Netlist};
use lp_node_text::source_fault;
use lp_targets::Hierarchy;
use lp_templates::templates_of;
use lp_text::{Bytes, Names, NoMemory};
use std::alloc::Global;

/// The line of the first net bit with two drivers, without its line feed, or that there is none, of a netlist that was
/// read and of which no line of names, targets, modules, connections and cells holds. Takes time and memory in
/// proportion to the modules and cells, not to the instances.
///
/// # Errors
///
/// Only where memory is refused.
pub fn source_line(
    alloc: Global,
    names: &Names,
    netlist: &Netlist,
    library: &Library,
    hierarchy: &Hierarchy,
) -> Result<Option<Bytes>, NoMemory>
    requires judged { IsJudged names.now netlist.now library.now hierarchy.now }
    ensures { IfOk result (λ o. o ≡ option_map report_line (source_report (structure_of names.now netlist.now library.now))) }
{
    let count = names.count();
    let rows = hierarchy.rows.as_slice();
    let templates = templates_of(
        alloc,
        count,
        netlist,
        library,
        rows,
        hierarchy.sizes.as_slice(),
    )?;
    source_fault(alloc, names, netlist, library, hierarchy, &templates)
}
