ghost use Rattle.std.specs.Prelude.{◌≡◌, ◌+◌, ◌*◌, ◌≤◌, ◌++◌, [], ◌∷◌, map, slice_get, slice_index_or, OnOk};
ghost use Rattle.std.specs.Option.{option_copied, option_map};
ghost use Rattle.lp_templates.specs.Views.{child_view, shown_view};
ghost use Rattle.lp_spec_layout.specs.Walked.{site_in};
ghost use Rattle.lp_layout.specs.Held.{word, held_pin};
ghost use Rattle.lp_spec_bridge.specs.Kept.{pin_at_start};
ghost use Rattle.lp_layout.specs.Labels.{placed_name, statement_name};
ghost use Rattle.lp_layout.specs.Sites.{site_view, sites_view};
ghost use Rattle.lp_layout.specs.Rows.{rows_view, with_more, walked_by, visited_by, leaf_at};

use crate::number::{place, word};
use crate::site::{Site, Spot};
use lp_model::{CellId, InstId, Instance, Leaf, Module, NodeId, PinNet};
use lp_templates::{Child, Shown, Template};
use lp_text::{NameId, NoMemory};
use sqlite_items::{Items, at};

/// Module instances and cell instances, both in preorder, with the rows of pins of the latter.
#[derive(Drop)]
pub(crate) struct Rows {
    pub sites: Vec<Site>,
    pub leaves: Items<Leaf>,
    pub pins: Items<PinNet>,
}

fn placed_name(instance: Option<&Instance>) -> NameId
    ensures { result.0 ≡ placed_name (option_copied instance.entry) }
{
    match instance {
        Some(instance) => instance.name,
        None => NameId(0),
    }
}

/// The name of a statement's instance.
pub(crate) fn statement_name(inner: Option<&Module>, place: usize) -> NameId
    ensures { result.0 ≡ statement_name (option_copied inner.entry) place }
{
    match inner {
        Some(inner) => placed_name(at(inner.instances.as_slice(), place)),
        None => NameId(0),
    }
}

/// What is at a pin of an instance that begins at a node.
fn pin_at(start: usize, net: PinNet) -> PinNet
    ensures { result ≡ held_pin (pin_at_start start net) }
{
    match net {
        PinNet::Node(node) => PinNet::Node(NodeId(place(start, node.0 as usize))),
        PinNet::Const(value) => PinNet::Const(value),
        PinNet::Unconnected => PinNet::Unconnected,
    }
}

/// Puts a row of pins behind the others.
fn push_row(pins: &mut Items<PinNet>, start: usize, row: &[PinNet]) -> Result<(), NoMemory>
    ensures { OnOk result (pins.new ≡ pins.old ++ map held_pin (map (pin_at_start start) row.now)) }
{
    for net in row {
        pins.push(pin_at(start, *net))?;
    }
    Ok(())
}

/// What a walk reads: the templates of all modules, and the modules themselves for the names of their instances.
#[derive(Clone, Copy)]
pub(crate) struct Design<'a> {
    pub templates: &'a [Template],
    pub modules: &'a [Module],
}

/// Puts a cell instance behind the others.
fn push_leaf(
    rows: &mut Rows,
    modules: &[Module],
    inst: usize,
    site: &Site,
    place: usize,
    of: u32,
    row: &[PinNet],
) -> Result<(), NoMemory>
    ensures { OnOk result (rows_view rows.new ≡ with_more modules.now (rows_view rows.old) [] (leaf_at inst (site_view site.now) place of row.now ∷ [])) }
{
    let name = statement_name(at(modules, site.of as usize), place);
    let start = word(rows.pins.len());
    push_row(&mut rows.pins, site.start, row)?;
    rows.leaves.push(Leaf {
        inst: InstId(word(inst)),
        name,
        cell: CellId(of),
        start,
    })?;
    Ok(())
}

/// The site of a statement's instance.
pub(crate) fn site_in(inst: usize, site: &Site, place: usize, child: &Child) -> Site
    requires start { site.now.start + 4294967296 ≤ 1099511627776 }
    requires leaf { site.now.leaf + 4294967296 ≤ 1099511627776 }
    ensures here { site_view result ≡ site_in inst (site_view site.now) place (child_view child.now) }
    ensures start { result.start ≤ site.now.start + 4294967295 }
    ensures leaf { result.leaf ≤ site.now.leaf + 4294967295 }
{
    Site {
        by: Some(Spot { inst, place }),
        start: site.start + child.before.nodes as usize,
        leaf: site.leaf + child.before.cells as usize,
        of: child.of,
    }
}

/// Walks over a statement of a module instance.
#[cycle(walk)]
fn visit_statement(
    rows: &mut Rows,
    design: &Design<'_>,
    depth: u32,
    inst: usize,
    site: &Site,
    place: usize,
    statement: Option<Shown<'_>>,
) -> Result<(), NoMemory>
    requires inst { inst + (depth + 1) * 4294967296 ≤ 1099511627776 }
    requires start { site.now.start + (depth + 1) * 4294967296 ≤ 1099511627776 }
    requires leaf { site.now.leaf + (depth + 1) * 4294967296 ≤ 1099511627776 }
    ensures { OnOk result (rows_view rows.new ≡ visited_by design.now depth inst (site_view site.now) place (option_map shown_view statement.entry) (rows_view rows.old)) }
{
    match statement {
        Some(Shown::OfModule(child)) => {
            let below = inst + child.before.instances as usize;
            let inner = site_in(inst, site, place, child);
            visit(rows, design, depth, below, inner)
        }
        Some(Shown::OfCell(of, _, row)) => {
            push_leaf(rows, design.modules, inst, site, place, of, row)
        }
        None => Ok(()),
    }
}

/// Walks over a module instance and all below it, down to a depth.
#[cycle(walk)]
pub(crate) fn visit(
    rows: &mut Rows,
    design: &Design<'_>,
    depth: u32,
    inst: usize,
    site: Site,
) -> Result<(), NoMemory>
    requires inst { inst + depth * 4294967296 ≤ 1099511627776 }
    requires start { site.start + depth * 4294967296 ≤ 1099511627776 }
    requires leaf { site.leaf + depth * 4294967296 ≤ 1099511627776 }
    ensures { OnOk result (rows_view rows.new ≡ walked_by design.now depth inst (site_view site) (rows_view rows.old)) }
{
    if depth == 0 {
        return Ok(());
    }
    rows.sites.push(site)?;
    let Some(template) = at(design.templates, site.of as usize) else {
        return Ok(());
    };
    for place in 0..template.len() {
        let statement = template.statement(place);
        visit_statement(rows, design, depth - 1, inst, &site, place, statement)?;
    }
    Ok(())
}
