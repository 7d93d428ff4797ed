ghost use Rattle.std.specs.Prelude.{◌≡◌, ◌<◌, Some, filter, length, option_copied, IfOk, IfSome};
ghost use Rattle.std.specs.List.{list_any, position};
ghost use Rattle.lp_model.specs.LibraryView.{pin_view};
ghost use Rattle.lp_spec_pins.specs.Pins.{only};
ghost use Rattle.lp_choice.specs.Switches.{complement, has_side, have_sides, is_driven, is_switch, only_switched, pins_switch, switch_fits};

use crate::functions::is_function;
use crate::parts::{Part, only_pin};
use lp_expr::{Expr, Step};
use lp_model::{Cell, PgKind, PgPin, Pin, PinUse, Switched};
use lp_text::{Names, NoMemory};
use std::alloc::Global;

/// That a function is 0.
pub(crate) fn complement(alloc: Global, e: &Expr) -> Result<Expr, NoMemory>
    ensures { IfOk result (λ f. f ≡ complement e.now) }
{
    let variables = Vec::from_slice(alloc, e.variables())?;
    let mut steps = Vec::from_slice(alloc, e.steps())?;
    steps.push(Step::Not)?;
    Ok(Expr::new(alloc, variables, steps)?)
}

/// Whether a cell fits a switch that is to be off where a function of its control is 1, apart from its name.
pub(crate) fn switch_fits(
    alloc: Global,
    names: &Names,
    off: &Expr,
    cell: &Cell,
) -> Result<bool, NoMemory>
    requires { length off.now.variables ≡ 1 }
    ensures { IfOk result (λ b. b ≡ switch_fits names.now off.now cell.now) }
{
    if !is_switch(cell) {
        return Ok(false);
    }
    let pgs = cell.pgs.as_slice();
    let control = only_pin(cell.pins.as_slice(), Part::Control);
    let switched = only_switched(pgs);
    match (control, switched) {
        (Some(control), Some(switched)) => pins_switch(alloc, names, off, pgs, control, switched),
        _ => Ok(false),
    }
}

/// Whether it does with this control and this switched pin.
fn pins_switch(
    alloc: Global,
    names: &Names,
    off: &Expr,
    pgs: &[PgPin],
    control: &Pin,
    switched: &Switched,
) -> Result<bool, NoMemory>
    requires { length off.now.variables ≡ 1 }
    ensures { IfOk result (λ b. b ≡ pins_switch names.now off.now pgs.now (Some control.now) (Some switched.now)) }
{
    if !matches!(control.use_of, PinUse::Switch)
        || control.power != switched.passes
        || !have_sides(switched.passes, pgs)
    {
        return Ok(false);
    }
    is_function(alloc, names, &[control.name], off, &switched.off)
}

/// Whether a cell switches and has no state.
fn is_switch(cell: &Cell) -> bool
    ensures { result ≡ is_switch cell.now }
{
    cell.unusable.is_none() && cell.roles.switch && cell.state.is_none()
}

/// Whether each power and ground pin has a side, where the switch passes the pin of a place on.
fn have_sides(passes: u8, pgs: &[PgPin]) -> bool
    ensures { result ≡ have_sides passes 0 pgs.now }
{
    for place in 0..pgs.len() {
        if !has_side(passes, place, &pgs[place]) {
            return false;
        }
    }
    true
}

/// Whether the pin of a place has a side.
fn has_side(passes: u8, place: usize, pg: &PgPin) -> bool
    ensures { result ≡ has_side passes place pg.now }
{
    match pg.kind {
        PgKind::PrimaryPower => place == passes as usize,
        PgKind::BackupPower => false,
        PgKind::InternalPower => pg.switched.is_some(),
        _ => true,
    }
}

/// How a cell drives the one pin that it drives.
fn only_switched<'a>(pgs: &'a [PgPin]) -> Option<&'a Switched>
    ensures { option_copied result ≡ only_switched pgs.now }
{
    match only_driven(pgs) {
        Some(pg) => pg.switched.as_ref(),
        None => None,
    }
}

/// The one pin that a cell drives.
fn only_driven<'a>(pgs: &'a [PgPin]) -> Option<&'a PgPin>
    ensures { option_copied result ≡ only (filter is_driven pgs.now) }
{
    match first_driven(pgs) {
        None => None,
        Some(first) => {
            let found = &pgs[first];
            if is_some_driven(&pgs[first + 1..]) {
                None
            } else {
                Some(found)
            }
        }
    }
}

/// The place of the first pin that a cell drives.
fn first_driven(pgs: &[PgPin]) -> Option<usize>
    ensures first { result ≡ position is_driven pgs.now }
    ensures within { IfSome result (λ place. place < length pgs.now) }
{
    pgs.iter().position(|pg| pg.switched.is_some())
}

/// Whether a cell drives one of these pins.
fn is_some_driven(pgs: &[PgPin]) -> bool
    ensures { result ≡ list_any is_driven pgs.now }
{
    pgs.iter().any(|pg| pg.switched.is_some())
}
