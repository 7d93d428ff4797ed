ghost use Rattle.std.specs.Prelude.{◌≡◌, ◌<◌, None, length, option_and_then, IfOk, IfErr};
ghost use Rattle.std.specs.Option.{option_copied};
ghost use Rattle.lp_targets.specs.Structures.{structure_of, AreNamed};
ghost use Rattle.lp_targets.specs.Reports.{IsStop};
ghost use Rattle.lp_targets.specs.Targets.{AreTargets};
ghost use Rattle.lp_connections.specs.Limits.{IsSmall, AreSmall};
ghost use Rattle.lp_connections.specs.Numbered.{fault_of, instance_fault, own_fault, module_fault, row_of, line_fault, first_fault};
ghost use Rattle.lp_connections.specs.Parts.{parts_of};
ghost use Rattle.lp_connections.specs.Reports.{connections_report};

use crate::assigns::assign_fault;
use crate::cells::cell_fault;
use crate::connected::Connected;
use crate::design::Design;
use crate::pins::pin_fault;
use crate::powered::power_fault;
use crate::question::Question;
use crate::widths::width_fault;
use lp_model::{Assign, Cell, Instance, Library, Module, Netlist, NetlistFault, Refusal};
use lp_targets::Target;
use lp_text::{NameId, Names, NoMemory};
use sqlite_items::{Items, at};
use std::alloc::Global;

/// The fault of an instance, where it has one.
fn fault_of(
    question: Question,
    design: &Design,
    connected: &mut Connected,
    parent: NameId,
    target: &Target,
    instance: &Instance,
) -> Result<Option<NetlistFault>, NoMemory>
    ensures { IfOk result (λ f. f ≡ fault_of question design.now parent target.now instance.now) }
{
    match question {
        Question::Pins => pin_fault(design, connected, parent, target, instance),
        Question::Powered => Ok(power_fault(design, parent, target, instance)),
        Question::Widths => Ok(width_fault(design, parent, target, instance)),
        Question::Cells => Ok(cell_fault(design, parent, target, instance)),
    }
}

/// The fault of an instance by the target at its place.
fn fault_placed(
    question: Question,
    design: &Design,
    connected: &mut Connected,
    parent: NameId,
    target: Option<&Target>,
    instance: &Instance,
) -> Result<Option<NetlistFault>, NoMemory>
    ensures { IfOk result (λ f. f ≡ option_and_then (λ t. fault_of question design.now parent t instance.now) (option_copied target.entry)) }
{
    match target {
        Some(target) => fault_of(question, design, connected, parent, target, instance),
        None => Ok(None),
    }
}

/// The first fault of the instances of a module.
fn instance_fault(
    question: Question,
    design: &Design,
    connected: &mut Connected,
    parent: NameId,
    row: &[Target],
    instances: &[Instance],
) -> Result<Option<NetlistFault>, NoMemory>
    ensures { IfOk result (λ f. f ≡ instance_fault question design.now parent row.now instances.now) }
{
    for (place, instance) in instances.iter().enumerate() {
        let target = at(row, place);
        if let Some(fault) = fault_placed(question, design, connected, parent, target, instance)? {
            return Ok(Some(fault));
        }
    }
    Ok(None)
}

/// The first fault of a module's own assigns.
fn own_fault(question: Question, parent: NameId, assigns: &[Assign]) -> Option<NetlistFault>
    requires { length assigns.now < 4294967295 }
    ensures { result ≡ own_fault question parent assigns.now }
{
    match question {
        Question::Widths => assign_fault(parent, assigns),
        Question::Pins => None,
        Question::Powered => None,
        Question::Cells => None,
    }
}

/// The first fault of a module.
fn module_fault(
    question: Question,
    design: &Design,
    connected: &mut Connected,
    row: &[Target],
    source: &Module,
) -> Result<Option<NetlistFault>, NoMemory>
    requires { IsSmall source.now }
    ensures { IfOk result (λ f. f ≡ module_fault question design.now row.now source.now) }
{
    let instances = source.instances.as_slice();
    let found = instance_fault(question, design, connected, source.name, row, instances)?;
    if let Some(fault) = found {
        return Ok(Some(fault));
    }
    Ok(own_fault(question, source.name, source.assigns.as_slice()))
}

/// The row at a place; an empty one where there is none.
fn row_at(rows: &[Items<Target>], place: usize) -> &[Target]
    ensures { result.now ≡ row_of rows.now place }
{
    match rows.get(place) {
        Some(row) => row.as_slice(),
        None => &[],
    }
}

/// The first fault of one question.
fn line_fault(
    question: Question,
    design: &Design,
    connected: &mut Connected,
    rows: &[Items<Target>],
    modules: &[Module],
) -> Result<Option<NetlistFault>, NoMemory>
    requires { AreSmall modules.now }
    ensures { IfOk result (λ f. f ≡ line_fault question design.now rows.now modules.now) }
{
    for (place, source) in modules.iter().enumerate() {
        let row = row_at(rows, place);
        if let Some(fault) = module_fault(question, design, connected, row, source)? {
            return Ok(Some(fault));
        }
    }
    Ok(None)
}

/// The first fault of the first question that has one.
fn first_fault(
    design: &Design,
    connected: &mut Connected,
    rows: &[Items<Target>],
    modules: &[Module],
) -> Result<Option<NetlistFault>, NoMemory>
    requires small { AreSmall modules.now }
    requires same { modules.now ≡ design.now.modules }
    ensures { IfOk result (λ f. f ≡ first_fault design.now rows.now) }
{
    let pins = line_fault(Question::Pins, design, connected, rows, modules)?;
    if let Some(fault) = pins {
        return Ok(Some(fault));
    }
    let powered = line_fault(Question::Powered, design, connected, rows, modules)?;
    if let Some(fault) = powered {
        return Ok(Some(fault));
    }
    let widths = line_fault(Question::Widths, design, connected, rows, modules)?;
    if let Some(fault) = widths {
        return Ok(Some(fault));
    }
    line_fault(Question::Cells, design, connected, rows, modules)
}

/// The first fault of a design's modules, with what the search needs.
fn fault_in(
    alloc: Global,
    count: u32,
    modules: &[Module],
    cells: &[Cell],
    rows: &[Items<Target>],
) -> Result<Option<NetlistFault>, NoMemory>
    requires { AreSmall modules.now }
    ensures { IfOk result (λ f. f ≡ first_fault (parts_of modules.now cells.now) rows.now) }
{
    let design = Design::new(alloc, modules, cells)?;
    let mut connected = Connected::new(alloc, count)?;
    first_fault(&design, &mut connected, rows, modules)
}

/// Asks whether ports and pins take what is connected to them, where `rows` says what each instance is of: in this
/// order whether a connection has no port or pin, is the second of its name or a constant at an output; whether one
/// names a power or ground pin; whether a connection or an assign joins different numbers of bits; whether a source may
/// have the cell. Takes n log n time and memory in proportion to the names, the netlist and the cells.
///
/// # Errors
///
/// The first of these faults, each in the order of the text; and where memory is refused.
pub fn check_connections(
    alloc: Global,
    names: &Names,
    netlist: &Netlist,
    library: &Library,
    rows: &[Items<Target>],
) -> Result<(), Refusal>
    requires named { AreNamed names.now netlist.now library.now }
    requires small { AreSmall netlist.now.modules }
    ensures ok { let s = structure_of names.now netlist.now library.now in AreTargets s rows.now → IfOk result (λ _. connections_report s ≡ None) }
    ensures err { let s = structure_of names.now netlist.now library.now in AreTargets s rows.now → IfErr result (IsStop names.now (connections_report s)) }
{
    let modules = netlist.modules.as_slice();
    let cells = library.cells.as_slice();
    let found = fault_in(alloc, names.count(), modules, cells, rows)?;
    match found {
        Some(fault) => Err(Refusal::from(fault)),
        None => Ok(()),
    }
}
