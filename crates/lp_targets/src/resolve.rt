ghost use Rattle.std.specs.Prelude.{◌≡◌, None, length, IfOk, IfErr};
ghost use Rattle.lp_order.specs.Order.{ReadsBelow};
ghost use Rattle.lp_targets.specs.Children.{children, cell_rows};
ghost use Rattle.lp_targets.specs.Structures.{structure_of, AreNamed};
ghost use Rattle.lp_targets.specs.Reports.{names_report, IsStop};
ghost use Rattle.lp_targets.specs.Targets.{AreTargets};
ghost use Rattle.lp_targets.specs.Numbered.{fault_numbered};

use crate::index::Index;
use crate::reserved::first_reserved;
use crate::rows::rows;
use crate::target::Target;
use crate::unknown::first_unknown;
use lp_model::{Library, Module, Netlist, NetlistFault, Refusal};
use lp_text::Names;
use sqlite_items::Items;
use std::alloc::Global;

/// The first reserved name, else the first instance of nothing.
fn fault_of(index: &Index, names: &Names, modules: &[Module]) -> Option<NetlistFault>
    ensures { result ≡ fault_numbered names.now index.now.modules index.now.cells modules.now }
{
    if let Some(name) = first_reserved(index, names, modules) {
        return Some(NetlistFault::ReservedName { name });
    }
    match first_unknown(index, modules) {
        Some(at) => Some(NetlistFault::UnknownModule { at }),
        None => None,
    }
}

/// What each instance of each module is of, by place: of modules or cells with one name the first, and a module before
/// a cell. Takes time and memory in proportion to the names, the netlist and the cells.
///
/// # Errors
///
/// The first reserved name; where there is none, the first instance whose target is no module and no cell; and where
/// memory is refused.
pub fn targets_of(
    alloc: Global,
    names: &Names,
    netlist: &Netlist,
    library: &Library,
) -> Result<Items<Items<Target>>, Refusal>
    requires { AreNamed names.now netlist.now library.now }
    ensures targets { IfOk result (λ rows. AreTargets (structure_of names.now netlist.now library.now) rows) }
    ensures count { IfOk result (λ rows. length rows ≡ length netlist.now.modules) }
    ensures closed { IfOk result (λ rows. ReadsBelow (length rows) (children rows)) }
    ensures cells { IfOk result (λ rows. ReadsBelow (length library.now.cells) (cell_rows rows)) }
    ensures ok { IfOk result (λ _. names_report (structure_of names.now netlist.now library.now) ≡ None) }
    ensures err { IfErr result (IsStop names.now (names_report (structure_of names.now netlist.now library.now))) }
{
    let modules = netlist.modules.as_slice();
    let index = Index::new(alloc, names.count(), modules, library.cells.as_slice())?;
    if let Some(fault) = fault_of(&index, names, modules) {
        return Err(Refusal::from(fault));
    }
    let rows = rows(alloc, &index, modules)?;
    Ok(rows)
}
