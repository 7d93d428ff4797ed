ghost use Rattle.std.specs.Prelude.{◌≡◌, ◌+◌, ◌≤◌, [], ◌∷◌, Some, map, slice_index_or, OnOk};
ghost use Rattle.std.specs.Option.{option_copied, option_map};
ghost use Rattle.lp_spec_design.specs.Graph.{and_more, some_of, numbered};
ghost use Rattle.lp_spec_layout.specs.Feeds.{child_inputs, input_feeds, top_feed, outer_feed};
ghost use Rattle.lp_templates.specs.Views.{shown_view};
ghost use Rattle.lp_layout.specs.Held.{held_feed};
ghost use Rattle.lp_layout.specs.Sites.{site_view, spot_view};
ghost use Rattle.lp_layout.specs.Wires.{fed};
ghost use Rattle.lp_layout.specs.Fed.{joint_feeds, placed_feeds, template_feeds, feeds_at, feeds};
ghost use Rattle.lp_layout.specs.Plans.{plan_view};

use crate::joints::lead_all;
use crate::number::{place, word};
use crate::pins::drive_row;
use crate::site::{Site, Spot};
use crate::wires::Wires;
use lp_model::{EdgeFrom, EdgeKind, NodeId};
use lp_templates::{Shown, Template};
use lp_text::NoMemory;
use sqlite_items::{Items, at};

/// What is laid out once the module instances are known.
#[derive(Clone, Copy)]
pub(crate) struct Plan<'a> {
    pub templates: &'a [Template],
    pub sites: &'a [Site],
    /// Which pins of each cell drive what is connected to them.
    pub drives: &'a [Items<bool>],
    /// How many net bits instances have.
    pub inner: u32,
    /// Which bits of the top's ports are inputs.
    pub ports: &'a [bool],
}

/// Which pins of the cell at a place drive; of no cell none.
fn drives_at(drives: &[Items<bool>], place: u32) -> &[bool]
    ensures { result.now ≡ slice_index_or drives.now place [] }
{
    match drives.get(place as usize) {
        Some(row) => row.as_slice(),
        None => &[],
    }
}

/// What a statement of an instance drives in it.
fn feed_statement(
    wires: &mut Wires,
    drives: &[Items<bool>],
    site: &Site,
    statement: Option<Shown<'_>>,
) -> Result<(), NoMemory>
    ensures { OnOk result (wires.new ≡ fed wires.old (map held_feed (placed_feeds drives.now (site_view site.now) (option_map shown_view statement.entry)))) }
{
    match statement {
        Some(Shown::OfModule(child)) => {
            let start = site.start + child.before.nodes as usize;
            lead_all(wires, site.start, start, EdgeKind::Out, &child.outputs)
        }
        Some(Shown::OfCell(of, before, row)) => {
            let leaf = site.leaf + before as usize;
            drive_row(wires, drives_at(drives, of), site.start, leaf, row);
            Ok(())
        }
        None => Ok(()),
    }
}

/// What the statements and the assigns of an instance drive in it.
fn feed_template(
    wires: &mut Wires,
    drives: &[Items<bool>],
    site: &Site,
    template: Option<&Template>,
) -> Result<(), NoMemory>
    ensures { OnOk result (wires.new ≡ fed wires.old (map held_feed (template_feeds drives.now (site_view site.now) (option_copied template.entry)))) }
{
    let Some(template) = template else {
        return Ok(());
    };
    for place in 0..template.len() {
        feed_statement(wires, drives, site, template.statement(place))?;
    }
    let start = site.start;
    lead_all(wires, start, start, EdgeKind::Assign, template.assigns())
}

/// What the input ports of a statement's instance are driven by.
fn feed_child(
    wires: &mut Wires,
    site: &Site,
    outer: &Site,
    statement: Option<Shown<'_>>,
) -> Result<(), NoMemory>
    ensures { OnOk result (wires.new ≡ fed wires.old (joint_feeds site.now.start outer.now.start EdgeKind.In (child_inputs (option_map shown_view statement.entry)))) }
{
    match statement {
        Some(Shown::OfModule(child)) => {
            lead_all(wires, site.start, outer.start, EdgeKind::In, &child.inputs)
        }
        _ => Ok(()),
    }
}

/// What the input ports of an instance that stands in another are driven by.
fn feed_inside(wires: &mut Wires, plan: &Plan<'_>, site: &Site, spot: Spot) -> Result<(), NoMemory>
    ensures { OnOk result (wires.new ≡ fed wires.old (map held_feed (input_feeds (plan_view plan.now) (site_view site.now) (Some (spot_view spot))))) }
{
    let Some(outer) = at(plan.sites, spot.inst) else {
        return Ok(());
    };
    let Some(template) = at(plan.templates, outer.of as usize) else {
        return Ok(());
    };
    feed_child(wires, site, outer, template.statement(spot.place))
}

/// What a port bit of the top is driven by, where it is an input.
fn feed_input(wires: &mut Wires, inner: u32, k: usize, is_input: bool) -> Result<(), NoMemory>
    ensures { OnOk result (wires.new ≡ fed wires.old (map held_feed (and_more (top_feed inner (k, is_input)) []))) }
{
    if is_input {
        let from = NodeId(place(inner as usize, k));
        wires.lead(word(k), EdgeFrom::Node(from), EdgeKind::In)?;
    }
    Ok(())
}

/// What the input ports of the top are driven by: the environment's side.
fn feed_top(wires: &mut Wires, inner: u32, ports: &[bool]) -> Result<(), NoMemory>
    ensures { OnOk result (wires.new ≡ fed wires.old (map held_feed (some_of (top_feed inner) (numbered 0 ports.now)))) }
{
    for (k, is_input) in ports.iter().enumerate() {
        feed_input(wires, inner, k, *is_input)?;
    }
    Ok(())
}

/// What the input ports of an instance are driven by.
fn feed_inputs(wires: &mut Wires, plan: &Plan<'_>, site: &Site) -> Result<(), NoMemory>
    ensures { OnOk result (wires.new ≡ fed wires.old (map held_feed (input_feeds (plan_view plan.now) (site_view site.now) (site_view site.now).by))) }
{
    match site.by {
        Some(spot) => feed_inside(wires, plan, site, spot),
        None => feed_top(wires, plan.inner, plan.ports),
    }
}

/// What drives the nodes of an instance.
fn feed_site(wires: &mut Wires, plan: &Plan<'_>, site: &Site) -> Result<(), NoMemory>
    ensures { OnOk result (wires.new ≡ fed wires.old (map held_feed (feeds_at plan.now.drives.now (plan_view plan.now) (site_view site.now)))) }
{
    feed_inputs(wires, plan, site)?;
    feed_template(
        wires,
        plan.drives,
        site,
        at(plan.templates, site.of as usize),
    )
}

/// What drives the environment's side of a port bit of the top.
fn feed_port(wires: &mut Wires, inner: u32, k: usize, is_input: bool) -> Result<(), NoMemory>
    ensures { OnOk result (wires.new ≡ fed wires.old (held_feed (outer_feed inner (k, is_input)) ∷ [])) }
{
    let to = place(inner as usize, k);
    if is_input {
        wires.expose(to);
        return Ok(());
    }
    wires.lead(to, EdgeFrom::Node(NodeId(word(k))), EdgeKind::Out)
}

/// What drives the environment's side of the top's ports.
fn feed_outer(wires: &mut Wires, inner: u32, ports: &[bool]) -> Result<(), NoMemory>
    ensures { OnOk result (wires.new ≡ fed wires.old (map held_feed (map (outer_feed inner) (numbered 0 ports.now)))) }
{
    for (k, is_input) in ports.iter().enumerate() {
        feed_port(wires, inner, k, *is_input)?;
    }
    Ok(())
}

/// What drives all nodes.
pub(crate) fn feed_all(wires: &mut Wires, plan: &Plan<'_>) -> Result<(), NoMemory>
    ensures { OnOk result (wires.new ≡ fed wires.old (map held_feed (feeds plan.now.drives.now (plan_view plan.now)))) }
{
    for site in plan.sites {
        feed_site(wires, plan, site)?;
    }
    feed_outer(wires, plan.inner, plan.ports)
}
