ghost use Rattle.std.specs.Prelude.{◌≡◌, ◌++◌, OnOk};
ghost use Rattle.std.specs.Option.{option_copied};
ghost use Rattle.lp_layout.specs.Nodes.{module_nodes, inner_nodes, outer_nodes};
ghost use Rattle.lp_layout.specs.Sites.{sites_view};

use crate::bits::{push_module, push_ports};
use crate::number::word;
use crate::site::Site;
use lp_model::{InstId, Module, Node};
use lp_text::NoMemory;
use sqlite_items::{Items, at};

/// Puts the bits of an instance of a number behind the other nodes, where it has a module.
fn push_instance(
    nodes: &mut Items<Node>,
    inst: usize,
    source: Option<&Module>,
) -> Result<(), NoMemory>
    ensures { OnOk result (nodes.new ≡ nodes.old ++ module_nodes inst (option_copied source.entry)) }
{
    match source {
        Some(source) => push_module(nodes, InstId(word(inst)), source),
        None => Ok(()),
    }
}

/// Puts the bits of all instances behind the other nodes.
pub(crate) fn push_inner(
    nodes: &mut Items<Node>,
    modules: &[Module],
    sites: &[Site],
) -> Result<(), NoMemory>
    ensures { OnOk result (nodes.new ≡ nodes.old ++ inner_nodes modules.now (sites_view sites.now)) }
{
    for (inst, site) in sites.iter().enumerate() {
        push_instance(nodes, inst, at(modules, site.of as usize))?;
    }
    Ok(())
}

/// Puts the outer sides of the top's ports behind the other nodes.
pub(crate) fn push_outer(nodes: &mut Items<Node>, top: Option<&Module>) -> Result<(), NoMemory>
    ensures { OnOk result (nodes.new ≡ nodes.old ++ outer_nodes (option_copied top.entry)) }
{
    match top {
        Some(top) => push_ports(nodes, InstId(0), top.ports.as_slice()),
        None => Ok(()),
    }
}
