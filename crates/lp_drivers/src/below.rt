ghost use Rattle.std.specs.Prelude.{◌≡◌, ◌+◌, length, vec_len, IfOk, slice_get, slice_set, slice_index_or};
ghost use Rattle.lp_templates.specs.Views.{child_view, shown_view};
ghost use Rattle.lp_spec_layout.specs.Parts as parts;
ghost use Rattle.lp_drivers.specs.Table.{capped, own_by, twice_by, twice_there, below_by, no_template, table_of};

use crate::marks::Marks;
use lp_templates::{Child, Shown, Template};
use lp_text::NoMemory;
use sqlite_items::at;
use std::alloc::Global;

/// A number and a place, up to the largest number of a node.
pub(crate) fn moved(before: u32, place: usize) -> u32
    ensures { result ≡ capped (before + place) }
{
    (before as usize)
        .saturating_add(place)
        .min(u32::MAX as usize) as u32
}

/// The first place of a module's instance that is driven twice.
fn own_twice(seen: &[Marks], child: &Child) -> Option<usize>
    ensures { result ≡ own_by seen.now (child_view child.now) }
{
    match at(seen, child.of as usize) {
        Some(marks) => marks.twice_with(&child.inputs),
        None => None,
    }
}

/// What a table has at a place.
pub(crate) fn entry(table: &[Option<u32>], place: usize) -> Option<u32>
    ensures { result ≡ slice_index_or table.now place None }
{
    match at(table, place) {
        Some(node) => *node,
        None => None,
    }
}

/// The first node of a module's instance or below it that is driven twice, from the beginning of the instance in which
/// it stands.
fn child_twice(seen: &[Marks], table: &[Option<u32>], child: &Child) -> Option<u32>
    ensures { result ≡ twice_by seen.now table.now (parts.OfModule (child_view child.now)) }
{
    if let Some(place) = own_twice(seen, child) {
        return Some(moved(child.before.nodes, place));
    }
    let node = entry(table, child.of as usize)?;
    Some(moved(child.before.nodes, node as usize))
}

/// The same of the statement at a place.
fn there_twice(
    seen: &[Marks],
    table: &[Option<u32>],
    template: &Template,
    place: usize,
) -> Option<u32>
    ensures { result ≡ twice_there seen.now table.now (slice_get template.now.statements place) }
{
    match template.statement(place) {
        Some(Shown::OfModule(child)) => child_twice(seen, table, child),
        _ => None,
    }
}

/// The first node below an instance of a module that is driven twice, from its first node on.
fn below(seen: &[Marks], table: &[Option<u32>], template: &Template) -> Option<u32>
    ensures { result ≡ below_by seen.now table.now template.now }
{
    for place in 0..template.len() {
        if let Some(node) = there_twice(seen, table, template, place) {
            return Some(node);
        }
    }
    None
}

/// Notes the node of the module at a place, where that of each module in it is noted.
pub(crate) fn note_below(
    table: &mut Vec<Option<u32>>,
    seen: &[Marks],
    templates: &[Template],
    place: usize,
)
    requires { vec_len table.old ≡ length templates.now }
    ensures { table.new.items ≡ slice_set table.old.items place (below_by seen.now table.old.items (slice_index_or templates.now place no_template)) }
{
    if place < templates.len() {
        let node = below(seen, table.as_slice(), &templates[place]);
        table[place] = node;
    }
}

/// The first node below each module that is driven twice, where each module stands in the order behind all that it
/// contains. Takes time in proportion to the statements of the modules and the runs of their inputs.
pub(crate) fn all_below(
    alloc: Global,
    seen: &[Marks],
    templates: &[Template],
    order: &[usize],
) -> Result<Vec<Option<u32>>, NoMemory>
    ensures { IfOk result (λ table. table.items ≡ table_of seen.now templates.now order.now) }
{
    let mut table = vec![in alloc; None; templates.len()]?;
    for place in order {
        note_below(&mut table, seen, templates, *place);
    }
    Ok(table)
}
