ghost use Rattle.std.specs.Prelude.{◌≡◌, ◌+◌, ◌<◌, ◌≤◌, [], ◌++◌, true, IfOk, IfErr, IsTrue, OnErr, OnOk, length, map};
ghost use Rattle.lp_text.specs.Limits.{most_names, most_names_before};
ghost use Rattle.std.specs.List.{flat_map};
ghost use Rattle.std.specs.Option.{option_map};
ghost use Rattle.lp_text.specs.Texts.{Grown, has_text, text_at, with_text};
ghost use Rattle.lp_model.specs.GroupsView.{group_view, groups_view};
ghost use Rattle.lp_model.specs.Agreement.{numbers_below};
ghost use Rattle.lp_model.specs.LibraryView.{cell_numbers, cell_view, library_numbers, library_view};
ghost use Rattle.lp_cells.specs.Cells.{GivesCells, IsLibrary, RefusesLibrary, cell_among, cell_names, cells_in, cells_of};
ghost use Rattle.lp_parts.specs.Views.{Adds};
ghost use Rattle.lp_cells.specs.Reasons.{repeated};

use crate::cell::cell_of;
use crate::judge::repeated;
use lp_model::{Cell, Group, Groups, Library, LibraryFault, Refusal};
use lp_parts::{inside_of, is_cell};
use lp_text::{NameId, Names, NamesFault, NoMemory};
use sqlite_items::Items;
use std::alloc::Global;

/// Adds the cell of a group, if it is one.
#[tactic(auto, using(lp_attributes::proofs::Below::below_more), unfolding(crate::specs::Cells::cell_at))]
fn push_cell(
    alloc: Global,
    names: &Names,
    all: &[Group],
    place: usize,
    head: &Group,
    more: &[Group],
    out: &mut Items<Cell>,
) -> Result<(), NoMemory>
    requires empty { IsTrue (has_text [] names.now) }
    requires below { numbers_below (length names.now) (flat_map cell_numbers out.old) ≡ true }
    ensures below { OnOk result (numbers_below (length names.now) (flat_map cell_numbers out.new) ≡ true) }
    ensures same { OnOk result (Adds (cell_view names.now) out.old out.new (cell_among names.now all.now place head.now more.now)) }
{
    if is_cell(names, all, head) {
        let groups = inside_of(names, place, more);
        out.push(cell_of(alloc, names, place, head, groups)?)?;
    }
    Ok(())
}

/// Adds the cells of a file.
fn push_cells(
    alloc: Global,
    names: &Names,
    all: &[Group],
    out: &mut Items<Cell>,
) -> Result<(), NoMemory>
    requires empty { IsTrue (has_text [] names.now) }
    requires below { numbers_below (length names.now) (flat_map cell_numbers out.old) ≡ true }
    ensures below { OnOk result (numbers_below (length names.now) (flat_map cell_numbers out.new) ≡ true) }
    ensures same { OnOk result (map (cell_view names.now) out.new ≡ map (cell_view names.now) out.old ++ cells_in (map (group_view names.now) all.now)) }
{
    for (place, head) in all.iter().enumerate() {
        push_cell(alloc, names, all, place, head, &all[place + 1..], out)?;
    }
    Ok(())
}

/// The cells of files, in their order.
fn cells_of(alloc: Global, names: &Names, files: &[Groups]) -> Result<Items<Cell>, NoMemory>
    requires empty { IsTrue (has_text [] names.now) }
    ensures same { IfOk result (λ out. map (cell_view names.now) out ≡ cells_of (map (groups_view names.now) files.now)) }
    ensures below { IfOk result (λ out. numbers_below (length names.now) (flat_map cell_numbers out) ≡ true) }
{
    let mut out = Items::new(alloc);
    for file in files {
        push_cells(alloc, names, file.groups.as_slice(), &mut out)?;
    }
    Ok(out)
}

/// The names of cells.
fn cell_ids(alloc: Global, cells: &[Cell]) -> Result<Vec<NameId>, NoMemory>
    ensures { IfOk result (λ ids. ids.items ≡ map (λ c. c.name) cells.now) }
{
    let mut ids = Vec::new(alloc);
    for cell in cells {
        ids.push(cell.name)?;
    }
    Ok(ids)
}

/// The name of the first cell whose name an earlier cell has.
fn twice(alloc: Global, names: &Names, cells: &[Cell]) -> Result<Option<NameId>, NoMemory>
    ensures { IfOk result (λ o. option_map (λ id. text_at names.now id.0) o ≡ repeated [] (cell_names (map (cell_view names.now) cells.now))) }
{
    let ids = cell_ids(alloc, cells)?;
    let all = ids.as_slice();
    repeated(alloc, names, all)
}

/// A library of these cells, or the refusal of a name that comes a second time.
fn with_cells(cells: Items<Cell>, twice: Option<NameId>) -> Result<Library, Refusal>
    ensures { GivesCells result cells twice }
{
    match twice {
        None => Ok(Library { cells }),
        Some(cell) => Err(Refusal::from(LibraryFault::DuplicateCell { cell })),
    }
}

/// The cells of files with the name that comes a second time, if any does.
fn checked_cells(
    alloc: Global,
    names: &Names,
    files: &[Groups],
) -> Result<(Items<Cell>, Option<NameId>), NoMemory>
    requires empty { IsTrue (has_text [] names.now) }
    ensures cells { IfOk result (λ r. map (cell_view names.now) r.0 ≡ cells_of (map (groups_view names.now) files.now)) }
    ensures below { IfOk result (λ r. numbers_below (length names.now) (flat_map cell_numbers r.0) ≡ true) }
    ensures twice { IfOk result (λ r. option_map (λ id. text_at names.now id.0) r.1 ≡ repeated [] (cell_names (map (cell_view names.now) r.0))) }
{
    let cells = cells_of(alloc, names, files)?;
    let twice = twice(alloc, names, cells.as_slice())?;
    Ok((cells, twice))
}

/// The library of files, where the empty text has a number.
fn library_of(alloc: Global, names: &Names, files: &[Groups]) -> Result<Library, Refusal>
    requires empty { IsTrue (has_text [] names.now) }
    ensures ok { IfOk result (λ l. IsLibrary (map (groups_view names.now) files.now) (library_view names.now l)) }
    ensures numbers { IfOk result (λ l. numbers_below (length names.now) (library_numbers l) ≡ true) }
    ensures err { IfErr result (RefusesLibrary names.now (map (groups_view names.now) files.now)) }
{
    match checked_cells(alloc, names, files) {
        Ok((cells, twice)) => with_cells(cells, twice),
        Err(NoMemory) => Err(Refusal::NoMemory),
    }
}

/// Gives the empty text a number.
fn intern_empty(names: &mut Names) -> Result<(), NoMemory>
    requires { length names.old < most_names }
    ensures ok { OnOk result (names.new ≡ with_text names.old []) }
    ensures err { OnErr result (names.new ≡ names.old) }
{
    match names.intern("") {
        Ok(_) => Ok(()),
        Err(NamesFault::NoMemory) => Err(NoMemory),
        Err(NamesFault::Full) => unreachable!(),
    }
}

/// The cells of Liberty files, in their order.
///
/// The files are those of [`lp_liberty`]'s reader. A cell that cannot be used is kept with its reason. The table has at
/// most 3,000,000,000 names, and gets the empty text.
///
/// # Errors
///
/// `DuplicateCell` (F03) with the name of the first cell whose name an earlier cell has. And where memory is refused.
pub fn library(alloc: Global, names: &mut Names, files: &[Groups]) -> Result<Library, Refusal>
    requires { length names.old ≤ most_names_before }
    ensures ok { IfOk result (λ l. IsLibrary (map (groups_view names.new) files.now) (library_view names.new l)) }
    ensures numbers { IfOk result (λ l. numbers_below (length names.new) (library_numbers l) ≡ true) }
    ensures err { IfErr result (RefusesLibrary names.new (map (groups_view names.new) files.now)) }
    ensures empty { OnOk result (names.new ≡ with_text names.old []) }
    ensures grown { Grown names.old names.new }
    ensures few { length names.new ≤ length names.old + 1 }
{
    match intern_empty(names) {
        Ok(()) => library_of(alloc, names, files),
        Err(NoMemory) => Err(Refusal::NoMemory),
    }
}
