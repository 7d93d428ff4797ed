ghost use Rattle.std.specs.Prelude.{◌≡◌, true, IfOk};
ghost use Rattle.lp_connections.specs.Parts.{is_outward, pin_names, output_names, pg_names, names_in};

use crate::sets::NumberSet;
use lp_model::{Cell, Direction, PgPin, Pin};
use lp_text::NoMemory;
use std::alloc::Global;

/// The names of a cell's signal pins, of those that are outputs, and of its power and ground pins.
#[derive(Drop)]
pub(crate) struct CellNames {
    pub pins: NumberSet,
    pub outputs: NumberSet,
    pub pgs: NumberSet,
}

/// Whether what has the direction is driven from inside.
pub(crate) fn is_outward(direction: Direction) -> bool
    ensures { result ≡ is_outward direction }
{
    match direction {
        Direction::Input => false,
        Direction::Output => true,
    }
}

fn pin_names(alloc: Global, pins: &[Pin]) -> Result<NumberSet, NoMemory>
    ensures { IfOk result (λ s. s ≡ pin_names pins.now) }
{
    let mut numbers = Vec::with_capacity(alloc, pins.len())?;
    for pin in pins {
        numbers.push(pin.name.0)?;
    }
    NumberSet::new(alloc, numbers)
}

fn output_names(alloc: Global, pins: &[Pin]) -> Result<NumberSet, NoMemory>
    ensures { IfOk result (λ s. s ≡ output_names pins.now) }
{
    let mut numbers = Vec::new(alloc);
    for pin in pins {
        if is_outward(pin.direction) {
            numbers.push(pin.name.0)?;
        }
    }
    NumberSet::new(alloc, numbers)
}

fn pg_names(alloc: Global, pgs: &[PgPin]) -> Result<NumberSet, NoMemory>
    ensures { IfOk result (λ s. s ≡ pg_names pgs.now) }
{
    let mut numbers = Vec::with_capacity(alloc, pgs.len())?;
    for pg in pgs {
        numbers.push(pg.name.0)?;
    }
    NumberSet::new(alloc, numbers)
}

/// The names of a cell's pins.
pub(crate) fn names_in(alloc: Global, cell: &Cell) -> Result<CellNames, NoMemory>
    ensures { IfOk result (λ k. k ≡ names_in cell.now) }
{
    Ok(CellNames {
        pins: pin_names(alloc, cell.pins.as_slice())?,
        outputs: output_names(alloc, cell.pins.as_slice())?,
        pgs: pg_names(alloc, cell.pgs.as_slice())?,
    })
}
