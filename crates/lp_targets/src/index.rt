ghost use Rattle.std.specs.Prelude.{◌≡◌, ◌<◌, [], length, IfOk};
ghost use Rattle.lp_places.specs.Places.{has_number};
ghost use Rattle.lp_targets.specs.Numbered.{module_numbers, cell_numbers, target_numbered};

use crate::target::Target;
use lp_model::{Cell, Module};
use lp_places::Places;
use lp_text::{NameId, NoMemory};
use std::alloc::Global;

/// The modules of a netlist and the cells of its library, by the numbers of their names.
#[derive(Drop)]
pub(crate) struct Index {
    modules: Places,
    cells: Places,
}

/// The modules.
fn module_places(alloc: Global, count: u32, modules: &[Module]) -> Result<Places, NoMemory>
    requires { length modules.now < 4294967295 }
    ensures { IfOk result (λ p. p ≡ module_numbers modules.now) }
{
    let mut places = Places::new(alloc, count)?;
    for module in modules {
        places.push(module.name.0)?;
    }
    Ok(places)
}

/// The cells.
fn cell_places(alloc: Global, count: u32, cells: &[Cell]) -> Result<Places, NoMemory>
    requires { length cells.now < 4294967295 }
    ensures { IfOk result (λ p. p ≡ cell_numbers cells.now) }
{
    let mut places = Places::new(alloc, count)?;
    for cell in cells {
        places.push(cell.name.0)?;
    }
    Ok(places)
}

impl Index {
    /// The index of modules and cells. `count` is the number of names of their table. Of those with one name the first
    /// counts. Takes time and memory in proportion to the names, the modules and the cells.
    ///
    /// # Errors
    ///
    /// Only where memory is refused.
    pub fn new(
        alloc: Global,
        count: u32,
        modules: &[Module],
        cells: &[Cell],
    ) -> Result<Index, NoMemory>
        requires modules { length modules.now < 4294967295 }
        requires cells { length cells.now < 4294967295 }
        ensures modules { IfOk result (λ i. i.modules ≡ module_numbers modules.now) }
        ensures cells { IfOk result (λ i. i.cells ≡ cell_numbers cells.now) }
    {
        Ok(Index {
            modules: module_places(alloc, count, modules)?,
            cells: cell_places(alloc, count, cells)?,
        })
    }

    /// Whether a cell has the name. Takes constant time.
    pub fn has_cell(&self, name: NameId) -> bool
        ensures { result ≡ has_number name.0 self.now.cells }
    {
        self.cells.find(name.0).is_some()
    }

    /// What an instance of that target is of. Takes constant time.
    pub fn target(&self, name: NameId) -> Option<Target>
        ensures { result ≡ target_numbered self.now.modules self.now.cells name.0 }
    {
        match self.modules.find(name.0) {
            Some(place) => Some(Target::OfModule(place)),
            None => self.cell(name),
        }
    }

    fn cell(&self, name: NameId) -> Option<Target>
        ensures { result ≡ target_numbered [] self.now.cells name.0 }
    {
        match self.cells.find(name.0) {
            Some(place) => Some(Target::OfCell(place)),
            None => None,
        }
    }
}
