ghost use Rattle.std.specs.Prelude.{◌≡◌, map, IfOk};
ghost use Rattle.lp_layout.specs.Shapes.{held_shape};

use crate::number::byte;
use lp_model::{Cell, CellShape};
use lp_text::NoMemory;
use sqlite_items::Items;
use std::alloc::Global;

/// What is kept of a cell.
fn shape_of(alloc: Global, cell: &Cell) -> Result<CellShape, NoMemory>
    ensures { IfOk result (λ r. r ≡ held_shape cell.now) }
{
    let mut pins = Items::new(alloc);
    for pin in cell.pins.as_slice() {
        pins.push(pin.direction)?;
    }
    let pgs = byte(cell.pgs.len());
    let state = cell.state.is_some();
    Ok(CellShape { pins, pgs, state })
}

/// What is kept of cells.
pub(crate) fn shapes_of(alloc: Global, cells: &[Cell]) -> Result<Items<CellShape>, NoMemory>
    ensures { IfOk result (λ r. r ≡ map held_shape cells.now) }
{
    let mut shapes = Items::new(alloc);
    for cell in cells {
        let shape = shape_of(alloc, cell)?;
        shapes.push(shape)?;
    }
    Ok(shapes)
}
