ghost use Rattle.std.specs.Prelude.{◌≡◌, [], map, IfOk, OnOk};
ghost use Rattle.std.specs.Option.{option_copied};
ghost use Rattle.lp_spec_design.specs.Graph.{and_more};
ghost use Rattle.lp_spec_layout.specs.Feeds.{driven, row_feeds};
ghost use Rattle.lp_layout.specs.Held.{held_feed};
ghost use Rattle.lp_layout.specs.Wires.{fed};
ghost use Rattle.lp_layout.specs.Fed.{drives_out, drives_of, placed_pin};

use crate::number::{byte, place, word};
use crate::wires::Wires;
use lp_model::{Cell, Direction, PinNet};
use lp_text::NoMemory;
use sqlite_items::{Items, at};
use std::alloc::Global;

fn drives_out(direction: Direction) -> bool
    ensures { result ≡ drives_out direction }
{
    match direction {
        Direction::Input => false,
        Direction::Output => true,
    }
}

/// Which pins of a cell drive what is connected to them.
fn drives_of(alloc: Global, cell: &Cell) -> Result<Items<bool>, NoMemory>
    ensures { IfOk result (λ r. r ≡ drives_of cell.now) }
{
    let mut drives = Items::new(alloc);
    for pin in cell.pins.as_slice() {
        drives.push(drives_out(pin.direction))?;
    }
    for pg in cell.pgs.as_slice() {
        drives.push(pg.switched.is_some())?;
    }
    Ok(drives)
}

/// Which pins of each cell drive what is connected to them.
pub(crate) fn drives_in(alloc: Global, cells: &[Cell]) -> Result<Vec<Items<bool>>, NoMemory>
    ensures { IfOk result (λ v. v.items ≡ map drives_of cells.now) }
{
    let mut table = Vec::new(alloc);
    for cell in cells {
        let drives = drives_of(alloc, cell)?;
        table.push(drives)?;
    }
    Ok(table)
}

/// A pin that drives what is connected to it.
fn drive_pin(wires: &mut Wires, start: usize, leaf: usize, pin: usize, net: PinNet)
    ensures { wires.new ≡ fed wires.old (map held_feed (and_more (driven start leaf pin net) [])) }
{
    if let PinNet::Node(node) = net {
        wires.drive(place(start, node.0 as usize), byte(pin), word(leaf));
    }
}

/// A pin of a cell instance, where it drives what is connected to it.
fn drive_at(
    wires: &mut Wires,
    drives: bool,
    start: usize,
    leaf: usize,
    pin: usize,
    net: Option<&PinNet>,
)
    ensures { wires.new ≡ fed wires.old (map held_feed (placed_pin start leaf pin drives (option_copied net.entry))) }
{
    match net {
        Some(net) => {
            if drives {
                drive_pin(wires, start, leaf, pin, *net);
            }
        }
        None => {}
    }
}

/// The pins of a cell instance that drive what is connected to them.
pub(crate) fn drive_row(
    wires: &mut Wires,
    drives: &[bool],
    start: usize,
    leaf: usize,
    row: &[PinNet],
)
    ensures { wires.new ≡ fed wires.old (map held_feed (row_feeds drives.now start leaf row.now)) }
{
    for (pin, drives) in drives.iter().enumerate() {
        drive_at(wires, *drives, start, leaf, pin, at(row, pin));
    }
}
