ghost use Rattle.std.specs.Prelude.{◌≡◌, ◌++◌, map, is_some, OnOk, IfOk};
ghost use Rattle.lp_drivers.specs.Cells.{is_output, pins_driving};

use lp_model::{Cell, Direction, Library, PgPin, Pin};
use lp_text::NoMemory;
use sqlite_items::Items;
use std::alloc::Global;

/// Puts whether each signal pin drives behind others.
fn put_signals(row: &mut Items<bool>, pins: &[Pin]) -> Result<(), NoMemory>
    ensures { OnOk result (row.new ≡ row.old ++ map (λ q. is_output q.direction) pins.now) }
{
    for pin in pins {
        row.push(matches!(pin.direction, Direction::Output))?;
    }
    Ok(())
}

/// Puts whether the cell drives each power and ground pin behind others.
fn put_supplies(row: &mut Items<bool>, pins: &[PgPin]) -> Result<(), NoMemory>
    ensures { OnOk result (row.new ≡ row.old ++ map (λ g. is_some g.switched) pins.now) }
{
    for pin in pins {
        row.push(pin.switched.is_some())?;
    }
    Ok(())
}

/// Which pins of a cell drive: signal pins, then power and ground pins.
fn driving(alloc: Global, cell: &Cell) -> Result<Items<bool>, NoMemory>
    ensures { IfOk result (λ row. row ≡ pins_driving cell.now) }
{
    let mut row = Items::new(alloc);
    put_signals(&mut row, cell.pins.as_slice())?;
    put_supplies(&mut row, cell.pgs.as_slice())?;
    Ok(row)
}

/// Which pins of each cell drive.
pub(crate) fn all_driving(alloc: Global, library: &Library) -> Result<Items<Items<bool>>, NoMemory>
    ensures { IfOk result (λ rows. rows ≡ map pins_driving library.now.cells) }
{
    let mut rows = Items::new(alloc);
    for cell in library.cells.as_slice() {
        let row = driving(alloc, cell)?;
        rows.push(row)?;
    }
    Ok(rows)
}
