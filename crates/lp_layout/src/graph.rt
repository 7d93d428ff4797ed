ghost use Rattle.std.specs.Prelude.{◌≡◌, IfOk};
ghost use Rattle.std.specs.Option.{option_copied};
ghost use Rattle.lp_layout.specs.Graph.{seen, inner_count, wires_at, own_name, parts_at, graph_at, laid};
ghost use Rattle.lp_layout.specs.Rows.{rows_view};
ghost use Rattle.lp_layout.specs.Sites.{sites_view};

use crate::feeds::{Plan, feed_all};
use crate::inputs::top_inputs;
use crate::insts::insts_of;
use crate::nodes::{push_inner, push_outer};
use crate::number::word;
use crate::pins::drives_in;
use crate::rows::{Design, Rows, visit};
use crate::shapes::shapes_of;
use crate::site::Site;
use crate::wires::Wires;
use lp_model::{Cell, CellShape, Edge, Graph, Inst, Leaf, Library, Module, Netlist, Node, PinNet};
use lp_templates::Template;
use lp_text::{NameId, NoMemory};
use sqlite_items::{Items, at};
use std::alloc::Global;

/// How many instances stand in one another at most, the top counted.
const DEPTH: u32 = 64;

/// The sites of all instances and the cell instances, from the top on.
fn rows_of(
    alloc: Global,
    modules: &[Module],
    templates: &[Template],
    top: u32,
) -> Result<Rows, NoMemory>
    ensures { IfOk result (λ r. rows_view r ≡ seen modules.now templates.now top) }
{
    let mut rows = Rows {
        sites: Vec::new(alloc),
        leaves: Items::new(alloc),
        pins: Items::new(alloc),
    };
    let design = Design { templates, modules };
    let site = Site {
        by: None,
        start: 0,
        leaf: 0,
        of: top,
    };
    visit(&mut rows, &design, DEPTH, 0, site)?;
    Ok(rows)
}

/// The nodes and edges.
#[derive(Drop)]
struct Laid {
    wires: Wires,
    inner: u32,
}

/// The nodes of instances at sites, the outer sides of the top's ports, and the edges that lead to all of them.
fn wires_of(
    alloc: Global,
    modules: &[Module],
    cells: &[Cell],
    templates: &[Template],
    sites: &[Site],
    top: Option<&Module>,
) -> Result<Laid, NoMemory>
    ensures inner { IfOk result (λ r. r.inner ≡ inner_count modules.now (sites_view sites.now)) }
    ensures wires { IfOk result (λ r. r.wires ≡ wires_at modules.now cells.now templates.now (sites_view sites.now) (option_copied top.entry)) }
{
    let ports = top_inputs(alloc, top)?;
    let drives = drives_in(alloc, cells)?;
    let mut nodes = Items::new(alloc);
    push_inner(&mut nodes, modules, sites)?;
    let inner = word(nodes.len());
    push_outer(&mut nodes, top)?;
    let edges = Items::new(alloc);
    let mut wires = Wires { nodes, edges };
    let plan = Plan {
        templates,
        sites,
        drives: drives.as_slice(),
        inner,
        ports: ports.as_slice(),
    };
    feed_all(&mut wires, &plan)?;
    Ok(Laid { wires, inner })
}

/// The name of a module.
fn own_name(top: Option<&Module>) -> NameId
    ensures { result.0 ≡ own_name (option_copied top.entry) }
{
    match top {
        Some(top) => top.name,
        None => NameId(0),
    }
}

/// All tables.
#[derive(Drop)]
struct Parts {
    shapes: Items<CellShape>,
    instances: Items<Inst>,
    leaves: Items<Leaf>,
    pins: Items<PinNet>,
    nodes: Items<Node>,
    edges: Items<Edge>,
    inner: u32,
}

/// All tables of a netlist of these modules.
fn parts_of(
    alloc: Global,
    modules: &[Module],
    cells: &[Cell],
    templates: &[Template],
    top: u32,
) -> Result<Parts, NoMemory>
    ensures { IfOk result (λ r. r ≡ parts_at modules.now cells.now templates.now top) }
{
    let Rows {
        sites,
        leaves,
        pins,
    } = rows_of(alloc, modules, templates, top)?;
    let sites = sites.as_slice();
    let first = at(modules, top as usize);
    let Laid { wires, inner } = wires_of(alloc, modules, cells, templates, sites, first)?;
    let Wires { nodes, edges } = wires;
    let instances = insts_of(alloc, modules, sites, own_name(first))?;
    let shapes = shapes_of(alloc, cells)?;
    Ok(Parts {
        shapes,
        instances,
        leaves,
        pins,
        nodes,
        edges,
        inner,
    })
}

/// The elaborated netlist of these tables.
fn graph_of(source: Netlist, parts: Parts, top: u32) -> Graph
    ensures { result ≡ graph_at source parts top }
{
    let Parts {
        shapes,
        instances,
        leaves,
        pins,
        nodes,
        edges,
        inner,
    } = parts;
    Graph {
        source,
        shapes,
        instances,
        leaves,
        pins,
        nodes,
        edges,
        inner,
        top,
    }
}

/// The elaborated netlist of a netlist, where `templates` are those of its modules and `top` is the place of the one that
/// stands in none. Takes time and memory in proportion to the instances, the net bits, the pins and the edges.
///
/// # Errors
///
/// Only where memory is refused.
pub fn laid_out(
    alloc: Global,
    netlist: Netlist,
    library: &Library,
    templates: &[Template],
    top: u32,
) -> Result<Graph, NoMemory>
    ensures { IfOk result (λ g. g ≡ laid netlist library.now templates.now top) }
{
    let modules = netlist.modules.as_slice();
    let cells = library.cells.as_slice();
    let parts = parts_of(alloc, modules, cells, templates, top)?;
    Ok(graph_of(netlist, parts, top))
}
