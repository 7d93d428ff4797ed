ghost use Rattle.std.specs.Prelude.{◌≡◌, slice_get, slice_index_or};
ghost use Rattle.std.specs.Option.{option_copied};
ghost use Rattle.lp_templates.specs.Sizes.{joined, no_size, own_of, one_cell};

use lp_model::{Cell, Module};
use lp_targets::Size;
use sqlite_items::at;
use std::marker::Model;

/// The modules of a netlist with their sizes, and the cells of its library: contracts see the three lists.
#[derive(Drop)]
pub(crate) struct Design<'a> {
    modules: &'a [Module],
    cells: &'a [Cell],
    sizes: &'a [Size],
}

impl<'a> Model for Design<'a> {
    ghost use Rattle.lp_templates.specs.Stocks.{Stock};

    ghost Value = { Stock };

    ghost view = { λ d. record { modules = d.modules.now; cells = d.cells.now; sizes = d.sizes.now } };
}

impl<'a> Design<'a> {
    pub fn new(modules: &'a [Module], cells: &'a [Cell], sizes: &'a [Size]) -> Design<'a>
        ensures { result ≡ record { modules = modules.now; cells = cells.now; sizes = sizes.now } }
    {
        Design {
            modules,
            cells,
            sizes,
        }
    }

    /// The module at a place.
    pub fn inner(&self, place: u32) -> Option<&'a Module>
        ensures { option_copied result ≡ slice_get self.now.modules place }
    {
        at(self.modules, place as usize)
    }

    /// The cell at a place.
    pub fn cell(&self, place: u32) -> Option<&'a Cell>
        ensures { option_copied result ≡ slice_get self.now.cells place }
    {
        at(self.cells, place as usize)
    }

    /// The size of the module at a place.
    pub fn size(&self, place: u32) -> Size
        ensures { result ≡ slice_index_or self.now.sizes place no_size }
    {
        match self.sizes.get(place as usize) {
            Some(size) => *size,
            None => Size {
                nodes: 0,
                cells: 0,
                instances: 0,
            },
        }
    }
}

/// Two sizes together, each count up to what 32 bits hold.
pub(crate) fn joined(a: Size, b: Size) -> Size
    ensures { result ≡ joined a b }
{
    Size {
        nodes: a.nodes.saturating_add(b.nodes),
        cells: a.cells.saturating_add(b.cells),
        instances: a.instances.saturating_add(b.instances),
    }
}

/// A module without its instances.
pub(crate) fn own_size(nodes: u32) -> Size
    ensures { result ≡ own_of nodes }
{
    Size {
        nodes,
        cells: 0,
        instances: 1,
    }
}

/// A cell instance.
pub(crate) fn cell_size() -> Size
    ensures { result ≡ one_cell }
{
    Size {
        nodes: 0,
        cells: 1,
        instances: 0,
    }
}
