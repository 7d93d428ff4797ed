ghost use Rattle.std.specs.Prelude.{◌≡◌, [], slice_index_or, IfOk};
ghost use Rattle.std.specs.List.{All};
ghost use Rattle.lp_templates.specs.Modules.{AreFew, HasFewBits, template_of, templates_from, templates_numbered};
ghost use Rattle.lp_templates.specs.Stocks.{stock_of};

use crate::assigns::{Sides, join_assigns};
use crate::design::{Design, own_size};
use crate::index::Index;
use crate::module::{Tables, push_statements};
use crate::run::Joints;
use crate::scope::Scope;
use crate::template::Template;
use lp_model::{Library, Module, Netlist};
use lp_targets::{Size, Target};
use lp_text::NoMemory;
use sqlite_items::Items;
use std::alloc::Global;

impl Tables {
    /// Empty tables, with room for the names below `count`.
    fn new(alloc: Global, count: u32) -> Result<Tables, NoMemory> {
        Ok(Tables {
            index: Index::new(alloc, count)?,
            sides: Sides {
                left: Vec::new(alloc),
                right: Vec::new(alloc),
            },
            row: Vec::new(alloc),
        })
    }
}

/// The template of a module.
fn template_of(
    alloc: Global,
    tables: &mut Tables,
    scope: &mut Scope,
    design: &Design,
    row: &[Target],
    source: &Module,
) -> Result<Template, NoMemory>
    requires few { AreFew design.now.modules }
    requires own { HasFewBits source.now }
    ensures { IfOk result (λ t. t ≡ template_of design.now row.now source.now) }
{
    let bits = scope.enter(source)?;
    let mut assigns = Joints::new(alloc);
    join_assigns(
        &mut assigns,
        &mut tables.sides,
        scope,
        source.assigns.as_slice(),
    )?;
    let mut template = Template::new(alloc, assigns);
    let first = own_size(bits);
    let instances = source.instances.as_slice();
    push_statements(
        alloc,
        &mut template,
        tables,
        scope,
        design,
        first,
        row,
        instances,
    )?;
    Ok(template)
}

/// The row at a place; an empty one where there is none.
fn row_at(rows: &[Items<Target>], place: usize) -> &[Target]
    ensures { result.now ≡ slice_index_or rows.now place [] }
{
    match rows.get(place) {
        Some(row) => row.as_slice(),
        None => &[],
    }
}

/// The templates of some modules.
fn templates_in(
    alloc: Global,
    tables: &mut Tables,
    scope: &mut Scope,
    design: &Design,
    rows: &[Items<Target>],
    modules: &[Module],
) -> Result<Vec<Template>, NoMemory>
    requires few { AreFew design.now.modules }
    requires own { All HasFewBits modules.now }
    ensures { IfOk result (λ ts. ts.items ≡ templates_from design.now rows.now 0 modules.now) }
{
    let mut templates = Vec::new(alloc);
    for (place, source) in modules.iter().enumerate() {
        let row = row_at(rows, place);
        let template = template_of(alloc, tables, scope, design, row, source)?;
        templates.push(template)?;
    }
    Ok(templates)
}

/// The templates of some modules, with what the search needs.
fn templates_with(
    alloc: Global,
    count: u32,
    design: &Design,
    rows: &[Items<Target>],
    modules: &[Module],
) -> Result<Vec<Template>, NoMemory>
    requires few { AreFew design.now.modules }
    requires own { All HasFewBits modules.now }
    ensures { IfOk result (λ ts. ts.items ≡ templates_from design.now rows.now 0 modules.now) }
{
    let mut tables = Tables::new(alloc, count)?;
    let mut scope = Scope::new(alloc, count)?;
    templates_in(alloc, &mut tables, &mut scope, design, rows, modules)
}

/// The template of each module of a netlist, where `rows` says what each instance is of and `sizes` how much each module
/// has. `count` is the number of names of their table. Takes time and memory in proportion to the names, the runs of
/// the netlist's values, and the ports and pins of its instances; by the bit go constants alone, and parts that go
/// against the way of their range.
///
/// # Errors
///
/// Only where memory is refused.
pub fn templates_of(
    alloc: Global,
    count: u32,
    netlist: &Netlist,
    library: &Library,
    rows: &[Items<Target>],
    sizes: &[Size],
) -> Result<Vec<Template>, NoMemory>
    requires { All HasFewBits netlist.now.modules }
    ensures { IfOk result (λ ts. ts.items ≡ templates_numbered (stock_of netlist.now library.now sizes.now) rows.now) }
{
    let modules = netlist.modules.as_slice();
    let design = Design::new(modules, library.cells.as_slice(), sizes);
    templates_with(alloc, count, &design, rows, modules)
}
