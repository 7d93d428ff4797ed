ghost use Rattle.std.specs.Prelude.{◌≡◌, ◌≤◌, length};
ghost use Rattle.lp_behaviour.specs.Registers.{forced_of, group_next, loaded_by, next_value};
ghost use Rattle.lp_behaviour.specs.Functions.{function_value};
ghost use Rattle.lp_tern.specs.Values.{choose_of};

use crate::function::evaluate;
use lp_model::{Cell, StateGroup, StateKind};
use lp_tern::{Tern, choose, rise};

/// The state of a cell after the present event, if its supply is on: from the values of its pins before
/// the event and in it, by their places, and from the state `q` during it.
///
/// Takes no memory. A cell without state gives X.
pub fn state_next(cell: &Cell, last: &[Tern], now: &[Tern], q: Tern) -> Tern
    requires last { length last.now ≡ length cell.now.pins }
    requires now { length now.now ≡ length cell.now.pins }
    ensures { result ≡ next_value cell.now last.now now.now q }
{
    match &cell.state {
        Some(group) => next_of_group(cell, group, last, now, q),
        None => Tern::X,
    }
}

/// The next state by a state group.
fn next_of_group(cell: &Cell, group: &StateGroup, last: &[Tern], now: &[Tern], q: Tern) -> Tern
    requires last { length last.now ≡ length cell.now.pins }
    requires now { length now.now ≡ length cell.now.pins }
    ensures { result ≡ group_next cell.now group.now last.now now.now q }
{
    let loaded = load(cell, group, last, now, q);
    let clear = evaluate(cell, &group.clear, now, q);
    let preset = evaluate(cell, &group.preset, now, q);
    force(clear, preset, loaded)
}

/// What the data makes of the state.
fn load(cell: &Cell, group: &StateGroup, last: &[Tern], now: &[Tern], q: Tern) -> Tern
    requires last { length last.now ≡ length cell.now.pins }
    requires now { length now.now ≡ length cell.now.pins }
    ensures { result ≡ loaded_by group.now.kind cell.now group.now last.now now.now q }
{
    let clock = evaluate(cell, &group.clock, now, q);
    match group.kind {
        StateKind::Flop => {
            let risen = rise(evaluate(cell, &group.clock, last, q), clock);
            load_if(risen, cell, group, last, q)
        }
        StateKind::Latch => load_if(clock, cell, group, now, q),
    }
}

/// The data of these pins where the control is 1, `q` where it is 0.
fn load_if(control: Tern, cell: &Cell, group: &StateGroup, pins: &[Tern], q: Tern) -> Tern
    requires values { length pins.now ≡ length cell.now.pins }
    ensures { result ≡ choose_of control (function_value cell.now pins.now q group.now.next) q }
{
    // Most registers do not load in most events.
    if control == Tern::Zero {
        return q;
    }
    choose(control, evaluate(cell, &group.next, pins, q), q)
}

/// What clear and preset make of a value.
fn force(clear: Tern, preset: Tern, value: Tern) -> Tern
    ensures { result ≡ forced_of clear preset value }
{
    match (clear, preset) {
        (_, Tern::Zero) => choose(clear, Tern::Zero, value),
        (Tern::Zero, _) => choose(preset, Tern::One, value),
        _ => Tern::X,
    }
}
