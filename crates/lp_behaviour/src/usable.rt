ghost use Rattle.std.specs.Prelude.{◌≡◌, ◌↔◌, ◌≤◌, ◌&&◌, IsTrue, length};
ghost use Rattle.std.specs.List.{list_all};
ghost use Rattle.lp_behaviour.specs.Usable as usable;

use crate::signal::{place_of_input, place_of_pg};
use lp_expr::Expr;
use lp_model::{Action, Cell, PgPin, Pin, PinUse, RetClass, StateGroup};
use lp_text::NameId;

/// Whether a cell keeps what every cell that may be used does: at most 8 power and ground pins, at most
/// 240 signal pins, functions whose variables all stand for an input pin or the state, related pins that it
/// has, and retention pins with the actions of their class alone.
pub fn is_usable(cell: &Cell) -> bool
    ensures { IsTrue result ↔ usable.IsUsable cell.now }
{
    passes(cell)
}

/// Whether the parts of a cell pass their tests.
fn passes(cell: &Cell) -> bool
    ensures { result ≡ usable.passes cell.now }
{
    cell.pgs.len() <= 8
        && cell.pins.len() <= 240
        && are_usable_pgs(cell, cell.pgs.as_slice())
        && are_usable_pins(cell, cell.pins.as_slice())
        && is_usable_state(cell, &cell.state)
        && is_function_of_pgs(cell, &cell.roles.retention)
}

/// Whether each power or ground pin is usable.
fn are_usable_pgs(cell: &Cell, pgs: &[PgPin]) -> bool
    ensures { result ≡ list_all (usable.is_usable_pg cell.now) pgs.now }
{
    pgs.iter().all(|pg| is_usable_pg(cell, pg))
}

/// Whether each signal pin is usable.
fn are_usable_pins(cell: &Cell, pins: &[Pin]) -> bool
    ensures { result ≡ list_all (usable.is_usable_pin cell.now) pins.now }
{
    pins.iter().all(|pin| is_usable_pin(cell, pin))
}

/// Whether a switched pin has a function, and passes on a pin of the cell.
fn is_usable_pg(cell: &Cell, pg: &PgPin) -> bool
    ensures { result ≡ usable.is_usable_pg cell.now pg.now }
{
    match &pg.switched {
        Some(switched) => {
            is_signal_function(cell, &switched.off) && usize::from(switched.passes) < cell.pgs.len()
        }
        None => true,
    }
}

/// Whether a signal pin has functions and related pins, and acts by its class.
fn is_usable_pin(cell: &Cell, pin: &Pin) -> bool
    ensures { result ≡ usable.is_usable_pin cell.now pin.now }
{
    is_function_of_signals(cell, &pin.function)
        && is_function_of_pgs(cell, &pin.power_down)
        && usize::from(pin.power) < cell.pgs.len()
        && is_related(cell, pin.gnd)
        && acts_by_class(pin.use_of)
}

/// Whether a save and a restore action are those of a class.
fn acts(class: RetClass, save: Option<Action>, restore: Option<Action>) -> bool
    ensures { result ≡ usable.acts class save restore }
{
    match class {
        RetClass::Save => save.is_some() && restore.is_none(),
        RetClass::Restore => save.is_none() && restore.is_some(),
        RetClass::Both => save.is_some() && restore.is_some(),
    }
}

/// Whether a pin has the actions of its class, where it is a retention pin.
fn acts_by_class(use_of: PinUse) -> bool
    ensures { result ≡ usable.acts_by_class use_of }
{
    match use_of {
        PinUse::Retain(class, save, restore) => acts(class, save, restore),
        _ => true,
    }
}

/// Whether a related ground pin, if there is one, is a pin of the cell.
fn is_related(cell: &Cell, gnd: Option<u8>) -> bool
    ensures { result ≡ usable.is_below_if_any (length cell.now.pgs) gnd }
{
    match gnd {
        Some(place) => usize::from(place) < cell.pgs.len(),
        None => true,
    }
}

/// Whether a state has functions.
fn is_usable_state(cell: &Cell, state: &Option<StateGroup>) -> bool
    ensures { result ≡ usable.is_usable_state cell.now state.now }
{
    match state {
        Some(group) => {
            is_signal_function(cell, &group.next)
                && is_signal_function(cell, &group.clock)
                && is_signal_function(cell, &group.clear)
                && is_signal_function(cell, &group.preset)
                && is_pg_function(cell, &group.power_down)
        }
        None => true,
    }
}

/// Whether the variables of a function of signals, if there is one, all stand for something.
fn is_function_of_signals(cell: &Cell, e: &Option<Expr>) -> bool
    ensures { result ≡ usable.is_function_if_any (usable.is_signal cell.now) e.now }
{
    match e {
        Some(e) => is_signal_function(cell, e),
        None => true,
    }
}

/// The same of a function of the power and ground pins.
fn is_function_of_pgs(cell: &Cell, e: &Option<Expr>) -> bool
    ensures { result ≡ usable.is_function_if_any (usable.is_pg cell.now) e.now }
{
    match e {
        Some(e) => is_pg_function(cell, e),
        None => true,
    }
}

/// Whether the variables of a function are input pins or the state.
fn is_signal_function(cell: &Cell, e: &Expr) -> bool
    ensures { result ≡ usable.is_function (usable.is_signal cell.now) e.now }
{
    are_signals(cell, e.variables())
}

/// Whether the variables of a function are power or ground pins.
fn is_pg_function(cell: &Cell, e: &Expr) -> bool
    ensures { result ≡ usable.is_function (usable.is_pg cell.now) e.now }
{
    are_pgs(cell, e.variables())
}

/// Whether each name is that of an input pin, of the state or of its inverse.
fn are_signals(cell: &Cell, names: &[NameId]) -> bool
    ensures { result ≡ list_all (usable.is_signal cell.now) names.now }
{
    names.iter().all(|name| is_signal(cell, *name))
}

/// Whether each name is that of a power or ground pin.
fn are_pgs(cell: &Cell, names: &[NameId]) -> bool
    ensures { result ≡ list_all (usable.is_pg cell.now) names.now }
{
    names.iter().all(|name| is_pg(cell, *name))
}

/// Whether a name is that of an input pin, of the state or of its inverse.
fn is_signal(cell: &Cell, name: NameId) -> bool
    ensures { result ≡ usable.is_signal cell.now name }
{
    place_of_input(cell.pins.as_slice(), name).is_some() || is_state_name(&cell.state, name)
}

/// Whether a name is that of the state or of its inverse.
fn is_state_name(state: &Option<StateGroup>, name: NameId) -> bool
    ensures { result ≡ usable.is_state_name state.now name }
{
    match state {
        Some(group) => group.var.0 == name.0 || group.inverse.0 == name.0,
        None => false,
    }
}

/// Whether a name is that of a power or ground pin.
fn is_pg(cell: &Cell, name: NameId) -> bool
    ensures { result ≡ usable.is_pg cell.now name }
{
    place_of_pg(cell.pgs.as_slice(), name).is_some()
}
