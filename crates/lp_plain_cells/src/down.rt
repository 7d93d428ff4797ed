ghost use Rattle.std.specs.Prelude.{◌≡◌, ℕ, ◌≤◌, length, map, take, is_some};
ghost use Rattle.std.specs.List.{list_all};
ghost use Rattle.lp_expr.specs.Places as places;
ghost use Rattle.lp_model.specs.LibraryView.{cell_view, expr_view};
ghost use Rattle.lp_spec_plain.specs.Cells.{follows_supply, is_down_with};
ghost use Rattle.lp_plain_cells.specs.Rails.{is_down_always, pg_found, value_named};

use crate::rails::{OnState, level_of_name, pg_named};
use lp_expr::{Expr, value};
use lp_model::Cell;
use lp_tern::Tern;
use lp_text::{NameId, Names};

/// As many variables as an expression has at most.
const VARIABLES: usize = 12;

/// Whether a power-down function of the cell's power and ground pins is 1 exactly where its power or its
/// ground is not on.
pub(crate) fn follows(names: &Names, cell: &Cell, e: &Expr) -> bool
    ensures { result ≡ follows_supply (cell_view names.now cell.now) (expr_view names.now e.now) }
{
    are_pgs(names, cell, e.variables()) && is_down_at_each(names, cell, e)
}

/// Whether the function is 1 exactly where the power or the ground is not on, in all four cases.
fn is_down_at_each(names: &Names, cell: &Cell, e: &Expr) -> bool
    ensures { result ≡ is_down_always (cell_view names.now cell.now) (expr_view names.now e.now) }
{
    is_down(names, cell, e, true, true)
        && is_down(names, cell, e, true, false)
        && is_down(names, cell, e, false, true)
        && is_down(names, cell, e, false, false)
}

/// Whether each name is that of a power or ground pin.
fn are_pgs(names: &Names, cell: &Cell, variables: &[NameId]) -> bool
    ensures { result ≡ list_all (λ (v : NameId). is_some (pg_found names.now cell.now.pgs v)) variables.now }
{
    let pgs = cell.pgs.as_slice();
    variables
        .iter()
        .all(|name| pg_named(names, pgs, *name).is_some())
}

/// Whether the function, where the power and the ground are on or not, is 1 exactly where one of them is not on.
fn is_down(names: &Names, cell: &Cell, e: &Expr, power: bool, gnd: bool) -> bool
    ensures { result ≡ is_down_with (cell_view names.now cell.now) (expr_view names.now e.now) power gnd }
{
    let variables = e.variables();
    let on = OnState { power, gnd };
    let levels = levels_of(names, cell, variables, on);
    is_one(value(e, &levels[..variables.len()])) != on.is_whole()
}

/// Whether a value is 1.
fn is_one(value: Tern) -> bool
    ensures { result ≡ places.is_one value }
{
    value == Tern::One
}

/// The levels of the power and ground pins with these names, 0 for a name that is none.
fn levels_of(names: &Names, cell: &Cell, variables: &[NameId], on: OnState) -> [Tern; VARIABLES]
    requires { length variables.now ≤ 12 }
    ensures { take (length variables.now) result ≡ map (value_named names.now cell.now on.power on.gnd) variables.now }
{
    let mut levels = [Tern::X; VARIABLES];
    for i in 0..variables.len() {
        levels[i] = level_of_name(names, cell, on, variables[i]);
    }
    levels
}
