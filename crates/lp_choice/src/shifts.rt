ghost use Rattle.std.specs.Prelude.{◌≡◌, Some, length, IfOk};
ghost use Rattle.lp_spec_fit.specs.Fits as fits;
ghost use Rattle.lp_choice.specs.Rails.{placed_origins};
ghost use Rattle.lp_choice.specs.Shifts.{is_shifter, may_pass, only_shifts, pins_shift, shift_fits, shift_origin, shift_power, shift_wanted, shifts_out};

use crate::clamps::{are_joined, by_kind, relates};
use crate::down::down_agrees;
use crate::functions::has_function;
use crate::parts::{Part, only_pin};
use crate::voltages::{may_be_lower, takes_all};
use crate::wanted::{either_off_function, off_function};
use lp_expr::Expr;
use lp_model::{Cell, PgPin, Pin, Roles, ShiftNeed, Shifter, VoltagePair};
use lp_text::{NameId, Names, NoMemory};
use std::alloc::Global;

/// The functions that a shifter has to have.
#[derive(Drop)]
pub(crate) struct Wanted {
    /// Of the data: the data.
    pub(crate) passes: Expr,
    /// Of the output supply: that it is not on.
    pub(crate) off: Expr,
    /// Of both supplies: that one of them is not on.
    pub(crate) either_off: Expr,
}

/// The functions that a shifter has to have.
pub(crate) fn shift_wanted(alloc: Global) -> Result<Wanted, NoMemory>
    ensures { IfOk result (λ w. w ≡ shift_wanted) }
{
    let passes = Expr::variable(alloc, NameId(0))?;
    let off = off_function(alloc)?;
    let either_off = either_off_function(alloc)?;
    Ok(Wanted {
        passes,
        off,
        either_off,
    })
}

/// Whether a cell fits a level shifter, apart from its name.
pub(crate) fn shift_fits(
    alloc: Global,
    names: &Names,
    need: &ShiftNeed,
    wanted: &Wanted,
    cell: &Cell,
) -> Result<bool, NoMemory>
    requires { wanted.now ≡ shift_wanted }
    ensures { IfOk result (λ b. b ≡ shift_fits names.now need.now cell.now) }
{
    if !is_shifter(cell) || !takes_pairs(need.pairs.as_slice(), cell.roles.shifter) {
        return Ok(false);
    }
    let pins = cell.pins.as_slice();
    let data = only_pin(pins, Part::ShiftedData);
    let output = only_pin(pins, Part::Output);
    match (data, output) {
        (Some(data), Some(output)) => pins_shift(
            alloc,
            names,
            need,
            wanted,
            cell.pgs.as_slice(),
            data,
            output,
        ),
        _ => Ok(false),
    }
}

/// Whether it does with these pins.
fn pins_shift(
    alloc: Global,
    names: &Names,
    need: &ShiftNeed,
    wanted: &Wanted,
    pgs: &[PgPin],
    given: &Pin,
    output: &Pin,
) -> Result<bool, NoMemory>
    requires { wanted.now ≡ shift_wanted }
    ensures { IfOk result (λ b. b ≡ pins_shift names.now need.now pgs.now (Some given.now) (Some output.now)) }
{
    if !may_pass(need, given.power, output.power) {
        return Ok(false);
    }
    let inputs = [given.name];
    if !has_function(alloc, names, &inputs, &wanted.passes, &output.function)? {
        return Ok(false);
    }
    let origins = shift_origins(alloc, need, given.power, output.power, pgs)?;
    shifts_out(alloc, names, need, wanted, pgs, origins.as_slice(), output)
}

/// Whether data and output relate to different power pins, by their places, or the input supply is never too low for the
/// output supply.
fn may_pass(need: &ShiftNeed, given: u8, output: u8) -> bool
    ensures { result ≡ may_pass need.now given output }
{
    given != output || !may_be_lower(need.pairs.as_slice(), need.margin)
}

/// Whether its output is that of a shifter whose power and ground pins have these origins.
fn shifts_out(
    alloc: Global,
    names: &Names,
    need: &ShiftNeed,
    wanted: &Wanted,
    pgs: &[PgPin],
    origins: &[Option<u64>],
    output: &Pin,
) -> Result<bool, NoMemory>
    requires wanted { wanted.now ≡ shift_wanted }
    requires origins { length origins.now ≡ length pgs.now }
    ensures { IfOk result (λ b. b ≡ shifts_out names.now need.now pgs.now origins.now output.now) }
{
    if !relates(origins, need.output, output) || !are_joined(origins) {
        return Ok(false);
    }
    let power = need.output.power.0 as u64;
    let gnd = need.output.gnd.0 as u64;
    let sets = [
        need.input.power.0 as u64,
        need.input.gnd.0 as u64,
        power,
        gnd,
    ];
    let down = &output.power_down;
    if down_agrees(alloc, names, pgs, origins, &sets, &wanted.either_off, down)? {
        return Ok(true);
    }
    down_agrees(alloc, names, pgs, origins, &[power, gnd], &wanted.off, down)
}

/// Whether a cell only shifts, and has two pins.
fn is_shifter(cell: &Cell) -> bool
    ensures { result ≡ is_shifter cell.now }
{
    cell.unusable.is_none()
        && only_shifts(&cell.roles)
        && cell.state.is_none()
        && cell.pins.len() == 2
}

/// Whether shifting is the one part of a cell.
fn only_shifts(roles: &Roles) -> bool
    ensures { result ≡ only_shifts roles.now }
{
    roles.shifter.is_some() && !roles.iso && roles.retention.is_none() && !roles.switch
}

/// Whether a shifter takes each pair of voltages.
fn takes_pairs(pairs: &[VoltagePair], shifter: Option<Shifter>) -> bool
    ensures { result ≡ fits.takes_pairs pairs.now shifter }
{
    match shifter {
        Some(shifter) => takes_all(pairs, shifter),
        None => false,
    }
}

/// The origins of the power and ground pins of a shifter whose data and output relate to the power pins of these places.
fn shift_origins(
    alloc: Global,
    need: &ShiftNeed,
    given: u8,
    output: u8,
    pgs: &[PgPin],
) -> Result<Vec<Option<u64>>, NoMemory>
    ensures { IfOk result (λ v. v.items ≡ placed_origins (shift_origin need.now given output) 0 pgs.now) }
{
    let mut origins = Vec::new(alloc);
    for place in 0..pgs.len() {
        let power = shift_power(need, given, output, place);
        origins.push(by_kind(power, power, need.output, pgs[place].kind))?;
    }
    Ok(origins)
}

/// The origin of the power pin of a place.
fn shift_power(need: &ShiftNeed, given: u8, output: u8, place: usize) -> Option<u64>
    ensures { result ≡ shift_power need.now given output place }
{
    if place == output as usize {
        Some(need.output.power.0 as u64)
    } else if place == given as usize {
        Some(need.input.power.0 as u64)
    } else {
        None
    }
}
