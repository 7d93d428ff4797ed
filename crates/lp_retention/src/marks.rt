ghost use Rattle.std.specs.Prelude.{◌≡◌, length, IfOk, slice_index_or, false};
ghost use Rattle.lp_spec_bridge.specs.Inherited.{value_in};
ghost use Rattle.lp_retention.specs.Marks.{instance_of, cell_of, marked, mark_all, marks, own_mark, either_mark, reached};

use lp_model::{Element, Inst, InstId};
use lp_text::NoMemory;
use sqlite_items::{Items, at};
use std::alloc::Global;

/// The module instance that an element is.
fn instance_of(element: Element) -> Option<u32>
    ensures { result ≡ instance_of element }
{
    match element {
        Element::Inst(instance) => Some(instance.0),
        _ => None,
    }
}

/// The cell instance that an element is.
fn cell_of(element: Element) -> Option<u32>
    ensures { result ≡ cell_of element }
{
    match element {
        Element::Leaf(leaf) => Some(leaf.0),
        _ => None,
    }
}

/// Marks a place.
fn mark(table: &mut Vec<bool>, place: Option<u32>)
    ensures { table.new.items ≡ marked table.old.items place }
{
    if let Some(place) = place {
        let place = place as usize;
        if place < table.len() {
            table[place] = true;
        }
    }
}

/// Of so many module instances those that are elements.
fn marked_instances(
    alloc: Global,
    count: usize,
    elements: &[Element],
) -> Result<Vec<bool>, NoMemory>
    ensures { IfOk result (λ table. table.items ≡ marks instance_of count elements.now) }
{
    let mut table = vec![in alloc; false; count]?;
    for element in elements {
        mark(&mut table, instance_of(*element));
    }
    Ok(table)
}

/// Of so many cell instances those that are elements.
pub(crate) fn marked_cells(
    alloc: Global,
    count: usize,
    elements: &[Element],
) -> Result<Items<bool>, NoMemory>
    ensures { IfOk result (λ table. table ≡ marks cell_of count elements.now) }
{
    let mut table = vec![in alloc; false; count]?;
    for element in elements {
        mark(&mut table, cell_of(*element));
    }
    Ok(Items::from_vec(table))
}

/// Whether a place is marked.
pub(crate) fn is_marked(table: &[bool], place: usize) -> bool
    ensures { result ≡ slice_index_or table.now place false }
{
    match at(table, place) {
        Some(here) => *here,
        None => false,
    }
}

/// Whether an instance is marked, or one above it, by those of the instances before it.
fn value_in(done: &[bool], own: bool, parent: Option<InstId>) -> bool
    ensures { result ≡ value_in own_mark either_mark done.now own parent }
{
    match parent {
        Some(parent) => match at(done, parent.0 as usize) {
            Some(above) => own || *above,
            None => own,
        },
        None => own,
    }
}

/// For each instance whether it is marked, or one above it.
fn inherit(alloc: Global, table: &[bool], instances: &[Inst]) -> Result<Items<bool>, NoMemory>
    requires { length table.now ≡ length instances.now }
    ensures { IfOk result (λ done. done ≡ reached table.now instances.now) }
{
    let mut done = Items::new(alloc);
    for (place, instance) in instances.iter().enumerate() {
        let own = is_marked(table, place);
        let value = value_in(done.as_slice(), own, instance.parent);
        done.push(value)?;
    }
    Ok(done)
}

/// For each instance whether it is an element, or one above it is.
pub(crate) fn reached(
    alloc: Global,
    elements: &[Element],
    instances: &[Inst],
) -> Result<Items<bool>, NoMemory>
    ensures { IfOk result (λ done. done ≡ reached (marks instance_of (length instances.now) elements.now) instances.now) }
{
    let table = marked_instances(alloc, instances.len(), elements)?;
    inherit(alloc, table.as_slice(), instances)
}
