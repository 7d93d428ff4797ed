ghost use Rattle.std.specs.Prelude.{◌≡◌, [], ◌∷◌, codes, option_map, IfOk};
ghost use Rattle.std.specs.List.{All};
ghost use Rattle.lp_model.specs.FaultLines.{line_text};
ghost use Rattle.lp_templates.specs.Modules.{HasFewBits};
ghost use Rattle.lp_node_text.specs.Reports.{report_line, source_report};
ghost use Rattle.lp_node_text.specs.Ready.{OnSource};

use crate::text::node_text;
use lp_drivers::first_twice;
use lp_model::{DesignFault, Fault, Library, Netlist, NetlistFault, NodeId, write_line_with};
use lp_targets::Hierarchy;
use lp_templates::Template;
use lp_text::{Bytes, Names, NoMemory};
use std::alloc::Global;

/// The line of a net bit with two drivers, by its text.
fn driven_line(alloc: Global, node: NodeId, text: Vec<u8>) -> Result<Bytes, NoMemory>
    ensures { IfOk result (λ line. line ≡ line_text (codes "F16 TwoDrivers") (text.items ∷ [])) }
{
    let mut fields = Vec::new(alloc);
    fields.push(Bytes::new(text))?;
    let fault = Fault::Design(DesignFault::Netlist(NetlistFault::TwoDrivers { node }));
    write_line_with(alloc, &fault, fields.as_slice())
}

/// The line of the first net bit with two drivers, without its line feed, or that there is none. Takes time and memory
/// in proportion to the cells of the library, and to the bits, statements and runs of the modules.
///
/// # Errors
///
/// Only where memory is refused.
pub fn source_fault(
    alloc: Global,
    names: &Names,
    netlist: &Netlist,
    library: &Library,
    hierarchy: &Hierarchy,
    templates: &[Template],
) -> Result<Option<Bytes>, NoMemory>
    requires { All HasFewBits netlist.now.modules }
    ensures { OnSource names.now netlist.now library.now hierarchy.now templates.now (λ s. IfOk result (λ o. o ≡ option_map report_line (source_report s))) }
{
    match first_twice(alloc, netlist, library, hierarchy, templates)? {
        Some(node) => {
            let text = node_text(alloc, names, netlist, hierarchy, templates, node)?;
            let line = driven_line(alloc, node, text)?;
            Ok(Some(line))
        }
        None => Ok(None),
    }
}
