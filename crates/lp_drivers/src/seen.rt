ghost use Rattle.std.specs.Prelude.{◌≡◌, slice_get, IfOk};
ghost use Rattle.lp_drivers.specs.Seen.{none_seen, see_all};
ghost use Rattle.lp_drivers.specs.Cells.{places_inside};
ghost use Rattle.lp_drivers.specs.Table.{width_in, seen_in};

use crate::marks::Marks;
use crate::widths::module_bits;
use lp_model::Module;
use lp_templates::Template;
use lp_text::NoMemory;
use sqlite_items::{Items, at};
use std::alloc::Global;

/// How many bits the module at a place has.
fn width_at(modules: &[Module], place: usize) -> usize
    ensures { result ≡ width_in (slice_get modules.now place) }
{
    match at(modules, place) {
        Some(source) => module_bits(source),
        None => 0,
    }
}

/// The driven places of a module of so many bits, by the pins of each cell that drive.
fn seen_of(
    alloc: Global,
    cells: &[Items<bool>],
    template: &Template,
    count: usize,
) -> Result<Marks, NoMemory>
    ensures { IfOk result (λ m. m ≡ see_all (none_seen count) (places_inside cells.now template.now)) }
{
    let mut marks = Marks::new(alloc, count)?;
    for place in 0..template.len() {
        marks.see_at(cells, template, place);
    }
    marks.see_joints(template.assigns());
    Ok(marks)
}

/// The driven places of each module, by the pins of each cell that drive. Takes time and memory in proportion to the
/// bits of the modules, their statements and the runs of their joints.
pub(crate) fn all_seen(
    alloc: Global,
    cells: &[Items<bool>],
    modules: &[Module],
    templates: &[Template],
) -> Result<Vec<Marks>, NoMemory>
    ensures { IfOk result (λ v. v.items ≡ seen_in cells.now modules.now templates.now) }
{
    let mut seen = Vec::new(alloc);
    for (place, template) in templates.iter().enumerate() {
        let count = width_at(modules, place);
        let marks = seen_of(alloc, cells, template, count)?;
        seen.push(marks)?;
    }
    Ok(seen)
}
