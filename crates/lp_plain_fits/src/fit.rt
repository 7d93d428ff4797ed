ghost use Rattle.std.specs.Prelude.{◌≡◌, true, length, map, flat_map, IfOk};
ghost use Rattle.lp_model.specs.Agreement.{numbers_below};
ghost use Rattle.lp_model.specs.NetlistView.{module_view, module_numbers};
ghost use Rattle.lp_model.specs.LibraryView.{cell_view, cell_numbers};
ghost use Rattle.lp_spec_plain_netlist.specs.Fits.{is_fit};
ghost use Rattle.lp_plain_fits.specs.Numbered as numbered;

use crate::joined::are_joined;
use crate::nets::have_one_source;
use lp_model::Module;
use lp_plain_index::CellIndex;
use lp_text::{Names, NoMemory};
use std::alloc::Global;

/// The test by the numbers of names.
pub(crate) fn is_fit_numbered(
    alloc: Global,
    index: &CellIndex<'_>,
    names: &Names,
    source: &Module,
) -> Result<bool, NoMemory>
    ensures { IfOk result (λ b. b ≡ numbered.is_fit index.now source.now) }
{
    if index.numbered(source.name).is_some() {
        return Ok(false);
    }
    if !are_joined(index, source.instances.as_slice()) {
        return Ok(false);
    }
    have_one_source(alloc, index, names, source)
}

/// Whether a module has no cell's name, and every instance joins the pins of a cell that can
/// stand in a source, so that no net has two sources. Of cells with one name the first counts. Takes time in proportion
/// to the names of the table, the module, and the pins of the cells of its instances.
///
/// # Errors
///
/// Only where memory is refused.
pub fn is_fit(
    alloc: Global,
    index: &CellIndex<'_>,
    names: &Names,
    source: &Module,
) -> Result<bool, NoMemory>
    requires cells { numbers_below (length names.now) (flat_map cell_numbers index.now) ≡ true }
    requires source { numbers_below (length names.now) (module_numbers source.now) ≡ true }
    ensures { IfOk result (λ b. b ≡ is_fit (map (cell_view names.now) index.now) (module_view names.now source.now)) }
{
    let _count = names.count();
    is_fit_numbered(alloc, index, names, source)
}
