ghost use Rattle.std.specs.Prelude.{◌≡◌, ◌≤◌, ◌+◌, length, map, true, ◌*◌};
ghost use Rattle.lp_text.specs.declared.shelf.TheConstants.{LIMIT};
ghost use Rattle.std.specs.List.{flat_map};
ghost use Rattle.lp_model.specs.Agreement.{numbers_below};
ghost use Rattle.lp_model.specs.LibraryView.{cell_view, cell_numbers};
ghost use Rattle.lp_model.specs.NetlistView.{module_view, module_numbers};
ghost use Rattle.lp_plain_upf.specs.Upf.{IsIntent};
ghost use Rattle.lp_spec_plain_netlist.specs.Single.{is_single_module};
ghost use Rattle.lp_spec_plain_netlist.specs.Fits.{are_read};
ghost use Rattle.lp_accept.specs.Stages.{OrStop};
ghost use Rattle.lp_accept.specs.Judged.{Fitting, FitOrStop, NoIntent, SoundOrStop, JudgedOrStop};

use crate::plain::are_plain;
use crate::stop::{Stop, not_yet};
use lp_model::{Cell, Module};
use lp_plain_fits::is_fit;
use lp_plain_index::CellIndex;
use lp_plain_loops::has_loop;
use lp_plain_upf::{Intent, read_intent};
use lp_text::Names;
use std::alloc::Global;

/// Whether a module fits the cells.
fn check_fit(
    alloc: Global,
    index: &CellIndex<'_>,
    names: &Names,
    source: &Module,
) -> Result<(), Stop>
    requires cells { numbers_below (length names.now) (flat_map cell_numbers index.now) ≡ true }
    requires source { numbers_below (length names.now) (module_numbers source.now) ≡ true }
    ensures { FitOrStop (map (cell_view names.now) index.now) (module_view names.now source.now) result }
{
    if !is_fit(alloc, index, names, source)? {
        return Err(not_yet(alloc, names, 4));
    }
    Ok(())
}

/// The intent of a text.
fn read_power(alloc: Global, names: &Names, bytes: &[u8]) -> Result<Intent, Stop>
    ensures { OrStop (IsIntent bytes.now) (NoIntent bytes.now) result }
{
    match read_intent(alloc, bytes)? {
        Some(intent) => Ok(intent),
        None => Err(not_yet(alloc, names, 5)),
    }
}

/// Whether the cells of a module are lost exactly where their one supply is not on, and no node depends on itself.
fn check_sound(
    alloc: Global,
    index: &CellIndex<'_>,
    names: &Names,
    source: &Module,
) -> Result<(), Stop>
    requires cells { numbers_below (length names.now) (flat_map cell_numbers index.now) ≡ true }
    requires source { numbers_below (length names.now) (module_numbers source.now) ≡ true }
    requires single { is_single_module (module_view names.now source.now) ≡ true }
    requires read { are_read (map (cell_view names.now) index.now) (module_view names.now source.now) ≡ true }
    requires fits { Fitting (map (cell_view names.now) index.now) (module_view names.now source.now) }
    requires few { length names.now ≤ 17 * LIMIT + 1 }
    ensures { SoundOrStop (map (cell_view names.now) index.now) (module_view names.now source.now) result }
{
    let plain = are_plain(alloc, index, names, source)?;
    if !plain {
        return Err(not_yet(alloc, names, 7));
    }
    let looped = has_loop(alloc, index, names, source)?;
    if looped {
        return Err(not_yet(alloc, names, 7));
    }
    Ok(())
}

/// The intent of a module that fits the cells and has no loop.
pub(crate) fn judge(
    alloc: Global,
    names: &Names,
    cells: &[Cell],
    source: &Module,
    upf: &[u8],
) -> Result<Intent, Stop>
    requires cells { numbers_below (length names.now) (flat_map cell_numbers cells.now) ≡ true }
    requires source { numbers_below (length names.now) (module_numbers source.now) ≡ true }
    requires single { is_single_module (module_view names.now source.now) ≡ true }
    requires read { are_read (map (cell_view names.now) cells.now) (module_view names.now source.now) ≡ true }
    requires few { length names.now ≤ 17 * LIMIT + 1 }
    requires few_cells { length cells.now ≤ 17 * LIMIT + 1 }
    ensures { JudgedOrStop (map (cell_view names.now) cells.now) (module_view names.now source.now) upf.now result }
{
    let index = CellIndex::new(alloc, names.count(), cells)?;
    match check_fit(alloc, &index, names, source) {
        Ok(()) => {}
        Err(stop) => return Err(stop),
    }
    let intent = match read_power(alloc, names, upf) {
        Ok(intent) => intent,
        Err(stop) => return Err(stop),
    };
    match check_sound(alloc, &index, names, source) {
        Ok(()) => Ok(intent),
        Err(stop) => Err(stop),
    }
}
