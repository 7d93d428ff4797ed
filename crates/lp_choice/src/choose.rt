ghost use Rattle.std.specs.Prelude.{◌≡◌, ◌<◌, bytes_eq, length, IfOk, IfSome};
ghost use Rattle.std.specs.List.{list_any};
ghost use Rattle.lp_text.specs.Texts.{text_at};
ghost use Rattle.lp_text.specs.declared.names.NameId.{NameId};
ghost use Rattle.lp_model.specs.LibraryView.{library_view};
ghost use Rattle.lp_spec_fit.specs.Needs.{clamp_need, shifter_need, switch_need};
ghost use Rattle.lp_spec_fit.specs.Choice.{clamp_choice, shifter_choice, switch_choice};
ghost use Rattle.lp_choice.specs.Wanted.{clamp_steps, off_steps, of_two};
ghost use Rattle.lp_choice.specs.Chosen.{clamp_area, clamp_areas, is_listed, numbers, shift_area, shift_areas, switch_area, switch_areas};
ghost use Rattle.lp_choice.specs.Shifts.{shift_wanted};
ghost use Rattle.lp_choice.specs.Switches as switches;

use crate::clamps::clamp_fits;
use crate::least::least;
use crate::rails::are_same;
use crate::shifts::{Wanted, shift_fits, shift_wanted};
use crate::switches::{complement, switch_fits};
use crate::wanted::{clamp_function, off_function};
use lp_expr::Expr;
use lp_model::{Cell, CellId, IsoNeed, Library, ShiftNeed, SwitchNeed};
use lp_text::{NameId, Names, NoMemory};
use sqlite_items::Items;
use std::alloc::Global;

/// The cell that is taken for a clamp: of those that may be and fit, the first of least area. None exactly where no cell
/// may be and fits.
///
/// Takes a pass over the library.
///
/// # Errors
///
/// Only where memory is refused.
pub fn choose_iso(
    alloc: Global,
    names: &Names,
    library: &Library,
    need: &IsoNeed,
) -> Result<Option<CellId>, NoMemory>
    requires { length library.now.cells < 4294967295 }
    ensures { IfOk result (λ found. numbers found ≡ clamp_choice (clamp_need names.now need.now) (library_view names.now library.now)) }
{
    let areas = clamp_areas(alloc, names, library.cells.as_slice(), need)?;
    Ok(numbered(least(areas.as_slice())))
}

/// The cell at a place.
fn numbered(place: Option<usize>) -> Option<CellId>
    requires { IfSome place (λ k. k < 4294967295) }
    ensures { numbers result ≡ place }
{
    match place {
        Some(place) => Some(CellId(place as u32)),
        None => None,
    }
}

/// The areas of the cells that may be taken for a clamp and fit.
fn clamp_areas(
    alloc: Global,
    names: &Names,
    cells: &[Cell],
    need: &IsoNeed,
) -> Result<Vec<Option<u64>>, NoMemory>
    ensures areas { IfOk result (λ v. v.items ≡ clamp_areas names.now need.now cells.now) }
    ensures many { IfOk result (λ v. length v.items ≡ length cells.now) }
{
    let wanted = clamp_function(alloc, need.clamp, need.high)?;
    let off = off_function(alloc)?;
    let mut areas = Vec::new(alloc);
    for cell in cells {
        let area = clamp_area(alloc, names, need, &wanted, &off, cell)?;
        areas.push(area)?;
    }
    Ok(areas)
}

/// The area of a cell that may be taken for a clamp and fits.
fn clamp_area(
    alloc: Global,
    names: &Names,
    need: &IsoNeed,
    wanted: &Expr,
    off: &Expr,
    cell: &Cell,
) -> Result<Option<u64>, NoMemory>
    requires wanted { wanted.now ≡ of_two (clamp_steps need.now.clamp need.now.high) }
    requires off { off.now ≡ of_two off_steps }
    ensures { IfOk result (λ area. area ≡ clamp_area names.now need.now cell.now) }
{
    if is_listed(names, &need.list, cell.name)
        && clamp_fits(alloc, names, need, wanted, off, cell)?
    {
        Ok(Some(cell.area))
    } else {
        Ok(None)
    }
}

/// Whether a name is one of a list, where there is one.
fn is_listed(names: &Names, list: &Option<Items<NameId>>, name: NameId) -> bool
    ensures { result ≡ is_listed names.now list.now name }
{
    match list {
        Some(list) => is_there(names, list.as_slice(), name),
        None => true,
    }
}

/// Whether a name is one of a list.
fn is_there(names: &Names, list: &[NameId], name: NameId) -> bool
    ensures { result ≡ list_any (λ (m : NameId). bytes_eq (text_at names.now name.0) (text_at names.now m.0)) list.now }
{
    list.iter().any(|other| are_same(names, name, *other))
}

/// The cell that is taken for a level shifter: of those that may be and fit, the first of least area. None exactly where no
/// cell may be and fits.
///
/// Takes a pass over the library.
///
/// # Errors
///
/// Only where memory is refused.
pub fn choose_shift(
    alloc: Global,
    names: &Names,
    library: &Library,
    need: &ShiftNeed,
) -> Result<Option<CellId>, NoMemory>
    requires { length library.now.cells < 4294967295 }
    ensures { IfOk result (λ found. numbers found ≡ shifter_choice (shifter_need names.now need.now) (library_view names.now library.now)) }
{
    let areas = shift_areas(alloc, names, library.cells.as_slice(), need)?;
    Ok(numbered(least(areas.as_slice())))
}

/// The areas of the cells that may be taken for a level shifter and fit.
fn shift_areas(
    alloc: Global,
    names: &Names,
    cells: &[Cell],
    need: &ShiftNeed,
) -> Result<Vec<Option<u64>>, NoMemory>
    ensures areas { IfOk result (λ v. v.items ≡ shift_areas names.now need.now cells.now) }
    ensures many { IfOk result (λ v. length v.items ≡ length cells.now) }
{
    let wanted = shift_wanted(alloc)?;
    let mut areas = Vec::new(alloc);
    for cell in cells {
        let area = shift_area(alloc, names, need, &wanted, cell)?;
        areas.push(area)?;
    }
    Ok(areas)
}

/// The area of a cell that may be taken for a level shifter and fits.
fn shift_area(
    alloc: Global,
    names: &Names,
    need: &ShiftNeed,
    wanted: &Wanted,
    cell: &Cell,
) -> Result<Option<u64>, NoMemory>
    requires { wanted.now ≡ shift_wanted }
    ensures { IfOk result (λ area. area ≡ shift_area names.now need.now cell.now) }
{
    if is_listed(names, &need.list, cell.name) && shift_fits(alloc, names, need, wanted, cell)? {
        Ok(Some(cell.area))
    } else {
        Ok(None)
    }
}

/// The cell that is taken for a power switch: of those that may be and fit, the first of least area. None exactly where no
/// cell may be and fits.
///
/// Takes a pass over the library.
///
/// # Errors
///
/// Only where memory is refused.
pub fn choose_switch(
    alloc: Global,
    names: &Names,
    library: &Library,
    need: &SwitchNeed,
) -> Result<Option<CellId>, NoMemory>
    requires few { length library.now.cells < 4294967295 }
    requires control { length need.now.on.variables ≡ 1 }
    ensures { IfOk result (λ found. numbers found ≡ switch_choice (switch_need names.now need.now) (library_view names.now library.now)) }
{
    let areas = switch_areas(alloc, names, library.cells.as_slice(), need)?;
    Ok(numbered(least(areas.as_slice())))
}

/// The areas of the cells that may be taken for a power switch and fit.
fn switch_areas(
    alloc: Global,
    names: &Names,
    cells: &[Cell],
    need: &SwitchNeed,
) -> Result<Vec<Option<u64>>, NoMemory>
    requires { length need.now.on.variables ≡ 1 }
    ensures areas { IfOk result (λ v. v.items ≡ switch_areas names.now need.now cells.now) }
    ensures many { IfOk result (λ v. length v.items ≡ length cells.now) }
{
    let off = complement(alloc, &need.on)?;
    let mut areas = Vec::new(alloc);
    for cell in cells {
        let area = switch_area(alloc, names, need, &off, cell)?;
        areas.push(area)?;
    }
    Ok(areas)
}

/// The area of a cell that may be taken for a power switch and fits.
fn switch_area(
    alloc: Global,
    names: &Names,
    need: &SwitchNeed,
    off: &Expr,
    cell: &Cell,
) -> Result<Option<u64>, NoMemory>
    requires off { off.now ≡ switches.complement need.now.on }
    requires control { length need.now.on.variables ≡ 1 }
    ensures { IfOk result (λ area. area ≡ switch_area names.now need.now cell.now) }
{
    if is_listed(names, &need.list, cell.name) && switch_fits(alloc, names, off, cell)? {
        Ok(Some(cell.area))
    } else {
        Ok(None)
    }
}
