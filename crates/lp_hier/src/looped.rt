ghost use Rattle.std.specs.Prelude.{◌≡◌, [], ◌∷◌, codes, option_map, IfOk};
ghost use Rattle.lp_model.specs.FaultLines.{line_text};
ghost use Rattle.lp_spec_bridge.specs.Tables.{IsClosed, tables_of};
ghost use Rattle.lp_node_text.specs.Reports.{report_line};
ghost use Rattle.lp_hier.specs.Reports.{loop_report};
ghost use Rattle.lp_hier.specs.Elaborated.{OnWires};

use lp_model::{DesignFault, Fault, Graph, NetlistFault, NodeId, write_line_with};
use lp_node_text::node_text;
use lp_targets::Hierarchy;
use lp_templates::Template;
use lp_text::{Bytes, Names, NoMemory};
use lp_wire_loops::first_wire_loop;
use std::alloc::Global;

/// The line of a net bit that reaches itself, by its text.
fn looped_line(alloc: Global, node: NodeId, text: Vec<u8>) -> Result<Bytes, NoMemory>
    ensures { IfOk result (λ line. line ≡ line_text (codes "F23 WireLoop") (text.items ∷ [])) }
{
    let mut fields = Vec::new(alloc);
    fields.push(Bytes::new(text))?;
    let fault = Fault::Design(DesignFault::Netlist(NetlistFault::WireLoop { node }));
    write_line_with(alloc, &fault, fields.as_slice())
}

/// The line of the first net bit of an elaborated netlist that reaches itself through ports and assigns alone.
pub(crate) fn loop_fault(
    alloc: Global,
    names: &Names,
    graph: &Graph,
    hierarchy: &Hierarchy,
    templates: &[Template],
) -> Result<Option<Bytes>, NoMemory>
    requires { IsClosed (tables_of graph.now) }
    ensures { OnWires names.now graph.now hierarchy.now templates.now (λ s. IfOk result (λ o. o ≡ option_map report_line (loop_report s))) }
{
    match first_wire_loop(alloc, graph)? {
        Some(node) => {
            let text = node_text(alloc, names, &graph.source, hierarchy, templates, node)?;
            let line = looped_line(alloc, node, text)?;
            Ok(Some(line))
        }
        None => Ok(None),
    }
}
