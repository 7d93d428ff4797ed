ghost use Rattle.std.specs.Prelude.{◌≡◌, ◌≤◌, length, map, take};
ghost use Rattle.lp_tern.specs.declared.tern.Tern.TheVariants.{X};
ghost use Rattle.lp_expr.specs.Formula.{value_of};
ghost use Rattle.lp_behaviour.specs.Signals.{level_at, signal_value};
ghost use Rattle.lp_behaviour.specs.Functions.{function_value, output_value, power_down_of, variable_values};

use crate::signal::{place_of_input, place_of_pg, value_in_state};
use lp_expr::{Expr, value};
use lp_model::Cell;
use lp_tern::{Tern, choose};
use lp_text::NameId;

/// As many variables as an expression has at most.
const VARIABLES: usize = 12;

/// The value of an output of a cell, where its pins have these values, by their places, and its state
/// is `state`: the value on which all replacements of unknown pins and of the state agree, else X. The
/// state may be any value where the cell has none.
///
/// Takes no memory. A pin without a function gives X, and so does a place without a pin.
pub fn cell_output(cell: &Cell, pin: usize, pins: &[Tern], state: Tern) -> Tern
    requires values { length pins.now ≡ length cell.now.pins }
    ensures { result ≡ output_value cell.now pin pins.now state }
{
    match cell.pins.get(pin) {
        Some(output) => match &output.function {
            Some(function) => evaluate(cell, function, pins, state),
            None => Tern::X,
        },
        None => Tern::X,
    }
}

/// The value of a `power_down_function` of a cell, where its power and ground pins have these levels,
/// by their places: the value on which all replacements of unknown levels agree, else X.
///
/// Takes no memory. Each level is replaced by itself, also where two pins have one supply.
pub fn power_down_value(cell: &Cell, e: &Expr, levels: &[Tern]) -> Tern
    requires values { length levels.now ≡ length cell.now.pgs }
    ensures { result ≡ power_down_of cell.now levels.now e.now }
{
    let names = e.variables();
    let values = levels_of(cell, names, levels);
    value(e, &values[..names.len()])
}

/// The levels of power and ground pins, by their names.
fn levels_of(cell: &Cell, names: &[NameId], levels: &[Tern]) -> [Tern; VARIABLES]
    requires few { length names.now ≤ 12 }
    requires values { length levels.now ≡ length cell.now.pgs }
    ensures { take (length names.now) result ≡ map (level_at cell.now levels.now) names.now }
{
    let mut values = [Tern::X; VARIABLES];
    for i in 0..names.len() {
        values[i] = level_of_name(cell, levels, names[i]);
    }
    values
}

/// The level of the power or ground pin with a name.
fn level_of_name(cell: &Cell, levels: &[Tern], name: NameId) -> Tern
    requires { length levels.now ≡ length cell.now.pgs }
    ensures { result ≡ level_at cell.now levels.now name }
{
    match place_of_pg(cell.pgs.as_slice(), name) {
        Some(place) => levels[place],
        None => Tern::X,
    }
}

/// The value of a function of a cell's pins and its state.
pub(crate) fn evaluate(cell: &Cell, e: &Expr, pins: &[Tern], state: Tern) -> Tern
    requires values { length pins.now ≡ length cell.now.pins }
    ensures { result ≡ function_value cell.now pins.now state e.now }
{
    match state {
        Tern::Zero => evaluate_at(cell, e, pins, false),
        Tern::One => evaluate_at(cell, e, pins, true),
        Tern::X => evaluate_unknown(cell, e, pins),
    }
}

/// The value of a function where the state is unknown.
fn evaluate_unknown(cell: &Cell, e: &Expr, pins: &[Tern]) -> Tern
    requires values { length pins.now ≡ length cell.now.pins }
    ensures { result ≡ function_value cell.now pins.now X e.now }
{
    let low = evaluate_at(cell, e, pins, false);
    match &cell.state {
        None => low,
        Some(_) => choose(Tern::X, evaluate_at(cell, e, pins, true), low),
    }
}

/// The value of a function where the state is a bit.
fn evaluate_at(cell: &Cell, e: &Expr, pins: &[Tern], bit: bool) -> Tern
    requires values { length pins.now ≡ length cell.now.pins }
    ensures { result ≡ value_of e.now (variable_values cell.now pins.now bit e.now) }
{
    let names = e.variables();
    let values = values_of(cell, names, pins, bit);
    value(e, &values[..names.len()])
}

/// The values of signals, by their names.
fn values_of(cell: &Cell, names: &[NameId], pins: &[Tern], bit: bool) -> [Tern; VARIABLES]
    requires few { length names.now ≤ 12 }
    requires values { length pins.now ≡ length cell.now.pins }
    ensures { take (length names.now) result ≡ map (signal_value cell.now pins.now bit) names.now }
{
    let mut values = [Tern::X; VARIABLES];
    for i in 0..names.len() {
        values[i] = value_of_name(cell, pins, bit, names[i]);
    }
    values
}

/// The value of the signal with a name.
fn value_of_name(cell: &Cell, pins: &[Tern], bit: bool, name: NameId) -> Tern
    requires { length pins.now ≡ length cell.now.pins }
    ensures { result ≡ signal_value cell.now pins.now bit name }
{
    match place_of_input(cell.pins.as_slice(), name) {
        Some(place) => pins[place],
        None => value_in_state(&cell.state, bit, name),
    }
}
