ghost use Rattle.std.specs.Prelude.{◌≡◌, ◌<◌, None, [], ◌∷◌, length, IfOk, IfErr, MatchOption, slice_get, slice_index_or, false, true};
ghost use Rattle.lp_model.specs.Agreement.{numbers_below};
ghost use Rattle.lp_model.specs.NetlistView.{netlist_numbers};
ghost use Rattle.lp_model.specs.declared.library.Library.{Library};
ghost use Rattle.lp_spec_design.specs.Netlists.{first, top_of};
ghost use Rattle.lp_targets.specs.Structures.{structure_of};
ghost use Rattle.lp_targets.specs.Reports.{top_report, IsStop};
ghost use Rattle.lp_targets.specs.Marks.{HasNoMarks, AddsMarks, AreMarks, targets_in, all_targets, is_free, count_free};

use lp_model::{Instance, Module, Netlist, NetlistFault, Refusal};
use lp_text::{Names, NoMemory};
use std::alloc::Global;

/// Whether a number is marked.
fn is_marked(marks: &[bool], number: u32) -> bool
    ensures { result ≡ slice_index_or marks.now number false }
{
    match marks.get(number as usize) {
        Some(marked) => *marked,
        None => false,
    }
}

/// No marks, with room for the numbers below `count`.
fn no_marks(alloc: Global, count: u32) -> Result<Vec<bool>, NoMemory>
    ensures { IfOk result (λ marks. HasNoMarks marks.items) }
{
    let marks = vec![in alloc; false; count as usize]?;
    Ok(marks)
}

/// Marks a number.
fn mark(marks: &mut Vec<bool>, number: u32) -> Result<(), NoMemory>
    ensures { IfOk result (λ _. AddsMarks marks.old.items marks.new.items (number ∷ [])) }
{
    let least = number as usize + 1;
    if marks.len() < least {
        marks.resize(least, false)?;
    }
    marks[number as usize] = true;
    Ok(())
}

/// Marks the targets of instances.
fn mark_row(marks: &mut Vec<bool>, instances: &[Instance]) -> Result<(), NoMemory>
    ensures { IfOk result (λ _. AddsMarks marks.old.items marks.new.items (targets_in instances.now)) }
{
    for instance in instances {
        mark(marks, instance.target.0)?;
    }
    Ok(())
}

/// Marks the targets of all instances.
fn mark_all(marks: &mut Vec<bool>, modules: &[Module]) -> Result<(), NoMemory>
    ensures { IfOk result (λ _. AddsMarks marks.old.items marks.new.items (all_targets modules.now)) }
{
    for module in modules {
        mark_row(marks, module.instances.as_slice())?;
    }
    Ok(())
}

/// How many modules have a name that is not marked.
fn count_free(marks: &[bool], modules: &[Module]) -> u32
    requires { length modules.now < 4294967295 }
    ensures { result ≡ count_free marks.now modules.now }
{
    let mut count: u32 = 0;
    for module in modules {
        if !is_marked(marks, module.name.0) {
            count += 1;
        }
    }
    count
}

/// The first module whose name is not marked.
fn first_free(marks: &[bool], modules: &[Module]) -> Option<usize>
    ensures { MatchOption result (first (is_free marks.now) modules.now ≡ None) (λ k. slice_get modules.now k ≡ first (is_free marks.now) modules.now) }
{
    let mut place = 0;
    for module in modules {
        if !is_marked(marks, module.name.0) {
            return Some(place);
        }
        place += 1;
    }
    None
}

/// The marks of all targets of instances.
fn target_marks(alloc: Global, count: u32, modules: &[Module]) -> Result<Vec<bool>, NoMemory>
    ensures { IfOk result (λ marks. AreMarks marks.items (all_targets modules.now)) }
{
    let mut marks = no_marks(alloc, count)?;
    mark_all(&mut marks, modules)?;
    Ok(marks)
}

/// The place of the one module that none instantiates. Takes time and memory in proportion to the names and the netlist.
///
/// # Errors
///
/// Where it is another number than one, and where memory is refused.
pub fn top_place(alloc: Global, names: &Names, netlist: &Netlist) -> Result<usize, Refusal>
    requires netlist { numbers_below (length names.now) (netlist_numbers netlist.now) ≡ true }
    requires few { length netlist.now.modules < 4294967295 }
    ensures place { (l : Library) → let s = structure_of names.now netlist.now l in IfOk result (λ top. slice_get s.modules top ≡ top_of s) }
    ensures ok { (l : Library) → IfOk result (λ _. top_report (structure_of names.now netlist.now l) ≡ None) }
    ensures err { (l : Library) → IfErr result (IsStop names.now (top_report (structure_of names.now netlist.now l))) }
{
    let modules = netlist.modules.as_slice();
    let marks = target_marks(alloc, names.count(), modules)?;
    let count = count_free(marks.as_slice(), modules);
    if count != 1 {
        return Err(Refusal::from(NetlistFault::Top { count }));
    }
    match first_free(marks.as_slice(), modules) {
        Some(place) => Ok(place),
        None => unreachable!(),
    }
}

/// Whether exactly one module is instantiated by none. Takes time and memory in proportion to the names and the netlist.
///
/// # Errors
///
/// Where it is another number, and where memory is refused.
pub fn one_top(alloc: Global, names: &Names, netlist: &Netlist) -> Result<(), Refusal>
    requires netlist { numbers_below (length names.now) (netlist_numbers netlist.now) ≡ true }
    requires few { length netlist.now.modules < 4294967295 }
    ensures ok { (l : Library) → IfOk result (λ _. top_report (structure_of names.now netlist.now l) ≡ None) }
    ensures err { (l : Library) → IfErr result (IsStop names.now (top_report (structure_of names.now netlist.now l))) }
{
    match top_place(alloc, names, netlist) {
        Ok(_) => Ok(()),
        Err(refusal) => Err(refusal),
    }
}
