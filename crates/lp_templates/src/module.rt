ghost use Rattle.std.specs.Prelude.{◌≡◌, ◌++◌, IfSome, OnOk};
ghost use Rattle.std.specs.Option.{option_copied};
ghost use Rattle.lp_templates.specs.Modules.{HasFewBits, AreFew, size_after, module_statement, cell_statement, statement_of, placed_statement, size_placed, statements_from, with_statements};
ghost use Rattle.lp_templates.specs.Connected.{connected_numbers};

use crate::assigns::Sides;
use crate::connected::enter_names;
use crate::design::{Design, cell_size, joined};
use crate::index::Index;
use crate::ports::join_ports;
use crate::row::fill_row;
use crate::run::Joints;
use crate::scope::Scope;
use crate::template::{Child, Template};
use lp_model::{Cell, Instance, Module, PinNet};
use lp_targets::{Size, Target};
use lp_text::NoMemory;
use sqlite_items::at;
use std::alloc::Global;

/// Tables that are filled again and again.
#[derive(Drop)]
pub(crate) struct Tables {
    /// The names that an instance connects.
    pub index: Index,
    pub sides: Sides,
    pub row: Vec<PinNet>,
}

/// What lies before the next statement.
fn size_after(design: &Design, before: Size, target: &Target) -> Size
    ensures { result ≡ size_after design.now before target.now }
{
    match target {
        Target::OfModule(place) => joined(before, design.size(*place)),
        Target::OfCell(_) => joined(before, cell_size()),
    }
}

/// Puts an instance of a module behind the other statements.
fn push_module(
    alloc: Global,
    template: &mut Template,
    tables: &mut Tables,
    scope: &Scope,
    before: Size,
    of: u32,
    instance: &Instance,
    inner: Option<&Module>,
) -> Result<(), NoMemory>
    requires index { tables.old.index ≡ connected_numbers instance.now.connections }
    requires few { IfSome (option_copied inner) HasFewBits }
    ensures { OnOk result (template.new ≡ with_statements template.old (module_statement scope.now before of instance.now (option_copied inner.entry))) }
{
    let Some(inner) = inner else {
        return Ok(());
    };
    let mut inputs = Joints::new(alloc);
    let mut outputs = Joints::new(alloc);
    join_ports(
        &mut inputs,
        &mut outputs,
        &mut tables.sides.left,
        &tables.index,
        scope,
        &instance.connections,
        inner.ports.as_slice(),
    )?;
    template.push_child(Child {
        outputs,
        inputs,
        before,
        of,
    })
}

/// Puts an instance of a cell behind the other statements.
fn push_leaf(
    template: &mut Template,
    tables: &mut Tables,
    scope: &Scope,
    before: Size,
    of: u32,
    instance: &Instance,
    cell: Option<&Cell>,
) -> Result<(), NoMemory>
    requires { tables.old.index ≡ connected_numbers instance.now.connections }
    ensures { OnOk result (template.new ≡ with_statements template.old (cell_statement scope.now before of instance.now (option_copied cell.entry))) }
{
    let Some(cell) = cell else {
        return Ok(());
    };
    fill_row(
        &mut tables.row,
        &tables.index,
        scope,
        &instance.connections,
        cell,
    )?;
    template.push_cell(of, before.cells, tables.row.as_slice())
}

/// Puts an instance behind the other statements.
fn push_statement(
    alloc: Global,
    template: &mut Template,
    tables: &mut Tables,
    scope: &Scope,
    design: &Design,
    before: Size,
    target: &Target,
    instance: &Instance,
) -> Result<(), NoMemory>
    requires { AreFew design.now.modules }
    ensures { OnOk result (template.new ≡ with_statements template.old (statement_of design.now scope.now before target.now instance.now)) }
{
    enter_names(&mut tables.index, &instance.connections)?;
    match target {
        Target::OfModule(place) => {
            let inner = design.inner(*place);
            push_module(
                alloc, template, tables, scope, before, *place, instance, inner,
            )
        }
        Target::OfCell(place) => {
            let cell = design.cell(*place);
            push_leaf(template, tables, scope, before, *place, instance, cell)
        }
    }
}

/// Puts the instance of the target at a place behind the other statements.
fn push_placed(
    alloc: Global,
    template: &mut Template,
    tables: &mut Tables,
    scope: &Scope,
    design: &Design,
    before: Size,
    target: Option<&Target>,
    instance: &Instance,
) -> Result<(), NoMemory>
    requires { AreFew design.now.modules }
    ensures { OnOk result (template.new ≡ with_statements template.old (placed_statement design.now scope.now before (option_copied target.entry) instance.now)) }
{
    match target {
        Some(target) => push_statement(
            alloc, template, tables, scope, design, before, target, instance,
        ),
        None => Ok(()),
    }
}

/// What lies before the statement behind that of the target at a place.
fn size_placed(design: &Design, before: Size, target: Option<&Target>) -> Size
    ensures { result ≡ size_placed design.now before (option_copied target.entry) }
{
    match target {
        Some(target) => size_after(design, before, target),
        None => before,
    }
}

/// Puts the instances of a module behind the other statements.
pub(crate) fn push_statements(
    alloc: Global,
    template: &mut Template,
    tables: &mut Tables,
    scope: &Scope,
    design: &Design,
    first: Size,
    row: &[Target],
    instances: &[Instance],
) -> Result<(), NoMemory>
    requires { AreFew design.now.modules }
    ensures { OnOk result (template.new ≡ with_statements template.old (statements_from design.now scope.now row.now first 0 instances.now)) }
{
    let mut before = first;
    for (place, instance) in instances.iter().enumerate() {
        let target = at(row, place);
        push_placed(
            alloc, template, tables, scope, design, before, target, instance,
        )?;
        before = size_placed(design, before, target);
    }
    Ok(())
}
