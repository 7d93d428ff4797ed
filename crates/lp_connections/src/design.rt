ghost use Rattle.std.specs.Prelude.{◌≡◌, ◌<◌, map, length, slice_get, IfOk, OnSome};
ghost use Rattle.std.specs.Option.{option_copied};
ghost use Rattle.lp_model.specs.declared.netlist.Module.{Module};
ghost use Rattle.lp_connections.specs.Limits.{AreSmall};
ghost use Rattle.lp_connections.specs.Parts.{parts_of, port_names, names_in, is_there, port_placed, position_of, port_named, has_pin, has_output, has_pg};

use crate::cell_names::{CellNames, names_in};
use crate::rows::NameRow;
use lp_model::{Cell, Module, Port};
use lp_targets::Target;
use lp_text::{NameId, NoMemory};
use sqlite_items::at;
use std::alloc::Global;
use std::marker::Model;

/// The modules of a netlist and the cells of its library, with their ports and pins sorted by name: contracts see the
/// modules and the cells.
#[derive(Drop)]
pub(crate) struct Design<'a> {
    modules: &'a [Module],
    cells: &'a [Cell],
    rows: Vec<NameRow>,
    names: Vec<CellNames>,
}

impl<'a> Model for Design<'a> {
    ghost use Rattle.lp_connections.specs.Parts.{Parts, IsNamed};

    ghost Value = { Parts };

    ghost view = { λ d. record { modules = d.modules.now; cells = d.cells.now } };

    ghost invariant = { λ d. IsNamed d.rows.items d.names.items d.modules.now d.cells.now };
}

/// The names of a module's ports.
fn port_row(alloc: Global, ports: &[Port]) -> Result<NameRow, NoMemory>
    requires { length ports.now < 4294967295 }
    ensures { IfOk result (λ r. r ≡ port_names ports.now) }
{
    let mut numbers = Vec::with_capacity(alloc, ports.len())?;
    for port in ports {
        numbers.push(port.name.0)?;
    }
    NameRow::new(alloc, numbers)
}

/// The names of each module's ports.
fn port_rows(alloc: Global, modules: &[Module]) -> Result<Vec<NameRow>, NoMemory>
    requires { AreSmall modules.now }
    ensures { IfOk result (λ rows. rows.items ≡ map (λ (m : Module). port_names m.ports) modules.now) }
{
    let mut rows = Vec::new(alloc);
    for source in modules {
        let row = port_row(alloc, source.ports.as_slice())?;
        rows.push(row)?;
    }
    Ok(rows)
}

/// The names of each cell's pins.
fn cell_rows(alloc: Global, cells: &[Cell]) -> Result<Vec<CellNames>, NoMemory>
    ensures { IfOk result (λ rows. rows.items ≡ map names_in cells.now) }
{
    let mut rows = Vec::new(alloc);
    for cell in cells {
        let row = names_in(alloc, cell)?;
        rows.push(row)?;
    }
    Ok(rows)
}

impl<'a> Design<'a> {
    /// Takes n log n time and memory in proportion to the ports and the pins.
    pub fn new(
        alloc: Global,
        modules: &'a [Module],
        cells: &'a [Cell],
    ) -> Result<Design<'a>, NoMemory>
        requires { AreSmall modules.now }
        ensures { IfOk result (λ d. d ≡ parts_of modules.now cells.now) }
    {
        let rows = port_rows(alloc, modules)?;
        let names = cell_rows(alloc, cells)?;
        Ok(Design {
            modules,
            cells,
            rows,
            names,
        })
    }

    /// Whether a target is a module or a cell of the design.
    pub fn has(&self, target: &Target) -> bool
        ensures { result ≡ is_there self.now target.now }
    {
        match target {
            Target::OfModule(place) => at(self.modules, *place as usize).is_some(),
            Target::OfCell(place) => at(self.cells, *place as usize).is_some(),
        }
    }

    /// The cell at a place.
    pub fn cell(&self, place: u32) -> Option<&'a Cell>
        ensures { option_copied result ≡ slice_get self.now.cells place }
    {
        at(self.cells, place as usize)
    }

    /// The port of a module at a position, from 0.
    pub fn port_in(&self, place: u32, position: usize) -> Option<&'a Port>
        ensures port { option_copied result ≡ port_placed self.now place position }
        ensures few { OnSome result (position < 4294967294) }
    {
        let source = at(self.modules, place as usize)?;
        at(source.ports.as_slice(), position)
    }

    /// The position of the first port of a name.
    fn position(&self, place: u32, name: NameId) -> Option<u32>
        ensures { result ≡ position_of self.now place name.0 }
    {
        let row = at(self.rows.as_slice(), place as usize)?;
        row.find(name.0)
    }

    /// The first port of a name. Takes time by the logarithm of the ports.
    pub fn port(&self, place: u32, name: NameId) -> Option<&'a Port>
        ensures { option_copied result ≡ port_named self.now place name.0 }
    {
        let position = self.position(place, name)?;
        self.port_in(place, position as usize)
    }

    /// Whether a cell has a pin of a name.
    pub fn has_pin(&self, place: u32, name: NameId) -> bool
        ensures { result ≡ has_pin self.now place name.0 }
    {
        match at(self.names.as_slice(), place as usize) {
            Some(names) => names.pins.has(name.0) || names.pgs.has(name.0),
            None => false,
        }
    }

    /// Whether a cell has an output of a name.
    pub fn has_output(&self, place: u32, name: NameId) -> bool
        ensures { result ≡ has_output self.now place name.0 }
    {
        match at(self.names.as_slice(), place as usize) {
            Some(names) => names.outputs.has(name.0),
            None => false,
        }
    }

    /// Whether a cell has a power or ground pin of a name.
    pub fn has_pg(&self, place: u32, name: NameId) -> bool
        ensures { result ≡ has_pg self.now place name.0 }
    {
        match at(self.names.as_slice(), place as usize) {
            Some(names) => names.pgs.has(name.0),
            None => false,
        }
    }
}
