ghost use Rattle.std.specs.Prelude.{◌≡◌, ◌<◌, length, map, true, IfOk};
ghost use Rattle.std.specs.List.{flat_map, list_all};
ghost use Rattle.lp_text.specs.Texts.{text_at};
ghost use Rattle.lp_model.specs.Agreement.{numbers_below};
ghost use Rattle.lp_model.specs.LibraryView.{cell_view};
ghost use Rattle.lp_model.specs.NetlistView.{instance_numbers, module_view, module_numbers};
ghost use Rattle.lp_accept.specs.Judged.{losing};
ghost use Rattle.lp_spec_plain_netlist.specs.Fits.{cell_named, is_plain_target, are_plain};

use lp_model::{Cell, Instance, Module};
use lp_plain_cells::loses_with_supply;
use lp_plain_index::CellIndex;
use lp_text::{NameId, Names, NoMemory};
use std::alloc::Global;

/// Which cells are lost exactly where their one supply is not on.
fn plain_cells(alloc: Global, names: &Names, cells: &[Cell]) -> Result<Vec<bool>, NoMemory>
    ensures { IfOk result (λ v. v.items ≡ losing names.now cells.now) }
{
    let mut plain = Vec::new(alloc);
    for cell in cells {
        plain.push(loses_with_supply(names, cell))?;
    }
    Ok(plain)
}

/// Whether a target is such a cell.
fn is_plain_at(index: &CellIndex<'_>, names: &Names, plain: &[bool], target: NameId) -> bool
    requires cells { numbers_below (length names.now) (map (λ c. c.name.0) index.now) ≡ true }
    requires below { target.0 < length names.now }
    requires plain { plain.now ≡ losing names.now index.now }
    ensures { result ≡ is_plain_target (cell_named (map (cell_view names.now) index.now) (text_at names.now target.0)) }
{
    match index.place(names, target) {
        Some(place) => plain[place as usize],
        None => false,
    }
}

/// Whether the targets of instances are such cells.
fn all_plain(index: &CellIndex<'_>, names: &Names, plain: &[bool], instances: &[Instance]) -> bool
    requires cells { numbers_below (length names.now) (map (λ c. c.name.0) index.now) ≡ true }
    requires below { numbers_below (length names.now) (flat_map instance_numbers instances.now) ≡ true }
    requires plain { plain.now ≡ losing names.now index.now }
    ensures { result ≡ list_all (λ x. is_plain_target (cell_named (map (cell_view names.now) index.now) (text_at names.now x.target.0))) instances.now }
{
    for instance in instances {
        if !is_plain_at(index, names, plain, instance.target) {
            return false;
        }
    }
    true
}

/// Whether the cell of each instance of a module is lost exactly where its one supply is not on. Each cell of the
/// libraries is judged once.
pub(crate) fn are_plain(
    alloc: Global,
    index: &CellIndex<'_>,
    names: &Names,
    source: &Module,
) -> Result<bool, NoMemory>
    requires cells { numbers_below (length names.now) (map (λ c. c.name.0) index.now) ≡ true }
    requires source { numbers_below (length names.now) (module_numbers source.now) ≡ true }
    ensures { IfOk result (λ b. b ≡ are_plain (map (cell_view names.now) index.now) (module_view names.now source.now)) }
{
    let plain = plain_cells(alloc, names, index.cells())?;
    Ok(all_plain(index, names, &plain, source.instances.as_slice()))
}
