ghost use Rattle.std.specs.Prelude.{◌≡◌, ◌<◌, true, length, map, IfOk};
ghost use Rattle.std.specs.Option.{option_map, option_copied};
ghost use Rattle.lp_text.specs.Texts.{place_of, text_at};
ghost use Rattle.lp_model.specs.Agreement.{numbers_below};
ghost use Rattle.lp_model.specs.LibraryView.{cell_view};
ghost use Rattle.lp_spec_plain_netlist.specs.Fits.{cell_named};
ghost use Rattle.lp_plain_index.specs.Cells.{cell_numbered};

use lp_model::Cell;
use lp_places::Places;
use lp_text::{NameId, Names, NoMemory};
use sqlite_items::at;
use std::alloc::Global;
use std::marker::Model;

/// The cells of libraries by the numbers of their names: contracts see the cells.
#[derive(Drop)]
pub struct CellIndex<'a> {
    cells: &'a [Cell],
    places: Places,
}

impl<'a> Model for CellIndex<'a> {
    ghost use Rattle.std.specs.Prelude.{◌≡◌, List, map};
    ghost use Rattle.lp_model.specs.declared.library.Cell.{Cell};

    ghost Value = { List Cell };

    ghost view = { λ i. i.cells.now };

    ghost invariant = { λ i. i.places ≡ map (λ c. c.name.0) i.cells.now };
}

impl<'a> CellIndex<'a> {
    /// An index of fewer than 4,294,967,295 cells. `count` is the number of names of their table. Of cells with one
    /// name the first counts. Takes time and memory in proportion to the names and the cells.
    ///
    /// # Errors
    ///
    /// Only where memory is refused.
    pub fn new(alloc: Global, count: u32, cells: &'a [Cell]) -> Result<CellIndex<'a>, NoMemory>
        requires { length cells.now < 4294967295 }
        ensures { IfOk result (λ i. i ≡ cells.now) }
    {
        let mut places = Places::new(alloc, count)?;
        for cell in cells {
            places.push(cell.name.0)?;
        }
        Ok(CellIndex { cells, places })
    }

    /// The cell of a name, if there is one. Takes constant time.
    pub fn find(&self, names: &Names, name: NameId) -> Option<&'a Cell>
        requires cells { numbers_below (length names.now) (map (λ c. c.name.0) self.now) ≡ true }
        requires name { name.0 < length names.now }
        ensures { option_map (λ c. cell_view names.now c.now) result ≡ cell_named (map (cell_view names.now) self.now) (text_at names.now name.0) }
    {
        let place = self.place(names, name)?;
        at(self.cells, place as usize)
    }

    /// The place of that cell among the cells. Takes constant time.
    pub fn place(&self, names: &Names, name: NameId) -> Option<u32>
        requires cells { numbers_below (length names.now) (map (λ c. c.name.0) self.now) ≡ true }
        requires name { name.0 < length names.now }
        ensures { result ≡ place_of (text_at names.now name.0) (map (λ c. text_at names.now c.name.0) self.now) }
    {
        let _count = names.count();
        self.places.find(name.0)
    }

    /// The cell of a name, by its number alone. Takes constant time.
    pub fn numbered(&self, name: NameId) -> Option<&'a Cell>
        ensures { option_copied result ≡ cell_numbered self.now name.0 }
    {
        let place = self.places.find(name.0)?;
        at(self.cells, place as usize)
    }

    /// The cells.
    pub fn cells(&self) -> &'a [Cell]
        ensures { result.now ≡ self.now }
    {
        self.cells
    }
}
