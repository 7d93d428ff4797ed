ghost use Rattle.std.specs.Prelude.{◌≡◌};
ghost use Rattle.std.specs.List.{list_all};
ghost use Rattle.std.specs.Option.{option_map};
ghost use Rattle.lp_model.specs.LibraryView.{cell_view, expr_view, state_view};
ghost use Rattle.lp_spec_plain.specs.Cells as cells;
ghost use Rattle.lp_plain_cells.specs.Rails.{is_lost_pin};

use crate::down::follows;
use lp_expr::Expr;
use lp_model::{Cell, Pin, StateGroup};
use lp_text::Names;

/// Whether a cell loses its outputs and its state exactly where its power or its ground is not on, all power
/// pins being on together, and all ground pins. What the cell is else, and what its pins relate to, is not asked.
///
/// Takes no memory, and for each function time in proportion to its variables times the power and ground
/// pins.
#[tactic(auto, using(crate::proofs::Seen::all_lost))]
pub fn loses_with_supply(names: &Names, cell: &Cell) -> bool
    ensures { result ≡ cells.loses_with_supply (cell_view names.now cell.now) }
{
    are_lost(names, cell, cell.pins.as_slice()) && is_state_lost(names, cell, &cell.state)
}

/// Whether each output is lost exactly where the power or the ground is not on.
fn are_lost(names: &Names, cell: &Cell, pins: &[Pin]) -> bool
    ensures { result ≡ list_all (is_lost_pin names.now cell.now) pins.now }
{
    pins.iter()
        .all(|pin| is_lost(names, cell, &pin.function, &pin.power_down))
}

/// Whether what has a function is lost exactly where the power or the ground is not on.
fn is_lost(names: &Names, cell: &Cell, function: &Option<Expr>, down: &Option<Expr>) -> bool
    ensures { let seen = option_map (expr_view names.now) in result ≡ cells.follows (cell_view names.now cell.now) (seen function.now) (seen down.now) }
{
    match (function, down) {
        (None, _) => true,
        (Some(_), None) => false,
        (Some(_), Some(down)) => follows(names, cell, down),
    }
}

/// Whether a state, if there is one, is lost exactly where the power or the ground is not on.
fn is_state_lost(names: &Names, cell: &Cell, state: &Option<StateGroup>) -> bool
    ensures { result ≡ cells.is_plain_state (cell_view names.now cell.now) (option_map (state_view names.now) state.now) }
{
    match state {
        Some(group) => follows(names, cell, &group.power_down),
        None => true,
    }
}
