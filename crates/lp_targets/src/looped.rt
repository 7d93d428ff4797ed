ghost use Rattle.std.specs.Prelude.{◌≡◌, ◌<◌, true, length, map, reverse, Some, None};
ghost use Rattle.std.specs.Prelude.{slice_get, IfOk, IfErr, MatchOption};
ghost use Rattle.lp_text.specs.Texts.{distinct};
ghost use Rattle.lp_model.specs.NetlistView.{ModuleView, netlist_view};
ghost use Rattle.lp_model.specs.declared.library.Library.{Library};
ghost use Rattle.lp_order.specs.Order.{ReadsBelow, HasLoop, IsOrder};
ghost use Rattle.lp_loops.specs.Loops.{IsFirstLooped};
ghost use Rattle.lp_targets.specs.Structures.{structure_of};
ghost use Rattle.lp_targets.specs.Reports.{recursive_report, IsStop};
ghost use Rattle.lp_targets.specs.Targets.{AreTargets};
ghost use Rattle.lp_targets.specs.Children.{children};

use crate::order::children;
use crate::target::Target;
use lp_loops::first_looped;
use lp_model::{Module, Netlist, NetlistFault, Refusal};
use lp_order::{is_ordered, order_of};
use lp_text::{NameId, Names, NoMemory};
use sqlite_items::Items;
use std::alloc::Global;

/// The place of the first module that contains itself. Takes time and memory in proportion to the modules and their
/// instances.
///
/// # Errors
///
/// Only where memory is refused.
#[tactic(auto, using(crate::proofs::Closed::closed_children))]
pub fn first_recursive(alloc: Global, rows: &[Items<Target>]) -> Result<Option<usize>, NoMemory>
    requires { ReadsBelow (length rows.now) (children rows.now) }
    ensures { IfOk result (λ o. MatchOption o (¬ HasLoop (children rows.now)) (IsFirstLooped (children rows.now))) }
{
    let graph = children(alloc, rows)?;
    if is_ordered(alloc, &graph)? {
        return Ok(None);
    }
    first_looped(alloc, &graph)
}

/// The name of the module at a place.
fn name_at(modules: &[Module], place: usize) -> NameId
    requires { place < length modules.now }
    ensures { slice_get (map (λ m. m.name) modules.now) place ≡ Some result }
{
    modules[place].name
}

/// The places of the modules, each behind those of all modules that it contains, where `rows` says what each instance
/// is of. Takes time and memory in proportion to the modules and their instances.
///
/// # Errors
///
/// The first module that contains itself; and where memory is refused.
#[tactic(auto, using(crate::proofs::Closed::closed_children, crate::proofs::Refused::place_within))]
pub fn ordered_modules(
    alloc: Global,
    names: &Names,
    netlist: &Netlist,
    rows: &[Items<Target>],
) -> Result<Vec<usize>, Refusal>
    requires closed { ReadsBelow (length rows.now) (children rows.now) }
    requires one_each { length rows.now ≡ length netlist.now.modules }
    requires apart { distinct (map (λ (m : ModuleView). m.name) (netlist_view names.now netlist.now)) ≡ true }
    ensures order { IfOk result (λ keys. IsOrder (children rows.now) (reverse keys.items)) }
    ensures ok { (l : Library) → let s = structure_of names.now netlist.now l in AreTargets s rows.now → IfOk result (λ _. recursive_report s ≡ None) }
    ensures err { (l : Library) → let s = structure_of names.now netlist.now l in AreTargets s rows.now → IfErr result (IsStop names.now (recursive_report s)) }
{
    let graph = children(alloc, rows)?;
    if let Some(order) = order_of(alloc, &graph)? {
        return Ok(order);
    }
    match first_looped(alloc, &graph)? {
        Some(place) => {
            let target = name_at(netlist.modules.as_slice(), place);
            Err(Refusal::from(NetlistFault::Recursive { target }))
        }
        None => unreachable!(),
    }
}
