ghost use Rattle.std.specs.Prelude.{◌≡◌, length, true, IfOk, IsTrue, map};
ghost use Rattle.std.specs.List.{find};
ghost use Rattle.std.specs.Option.{option_copied, option_map};
ghost use Rattle.lp_model.specs.GroupsView.{group_view};
ghost use Rattle.lp_model.specs.Agreement.{numbers_below, option_numbers};
ghost use Rattle.lp_model.specs.LibraryView.{expr_numbers, expr_view, roles_numbers, roles_view};
ghost use Rattle.lp_attributes.specs.Attributes.{values_of};
ghost use Rattle.lp_attributes.specs.Expressions.{are_known};
ghost use Rattle.lp_parts.specs.Roles.{copy_of, is_condition, is_retention, is_switch, range_if_any, retention_of, roles_of, shifter_of};
ghost use Rattle.lp_parts.specs.Views.{by_texts};

use crate::function::over_if_any;
use crate::source::is_part;
use lp_attributes::{has, range, says, shifter_kind, value, values};
use lp_expr::Expr;
use lp_model::{Group, Roles, Shifter, VoltageRange};
use lp_table::Table;
use lp_text::{Names, NoMemory, Word};
use std::alloc::Global;

/// Whether a cell is a switch cell.
pub fn is_switch(alloc: Global, names: &Names, head: &Group) -> Result<bool, NoMemory>
    ensures { IfOk result (λ b. b ≡ is_switch (group_view names.now head.now)) }
{
    says(alloc, names, head, "switch_cell_type", "coarse_grain")
}

/// A range that may be missing; none too where it does not read.
fn range_if_any(names: &Names, head: &Group, word: &str) -> Option<VoltageRange>
    ensures { result ≡ range_if_any (values_of word.now (group_view names.now head.now)) }
{
    match values(names, head, word) {
        None => None,
        Some(values) => range(names, values),
    }
}

/// The type and ranges of a level shifter.
fn shifter_of(alloc: Global, names: &Names, head: &Group) -> Result<Option<Shifter>, NoMemory>
    ensures { IfOk result (λ s. s ≡ shifter_of (group_view names.now head.now)) }
{
    if !says(alloc, names, head, "is_level_shifter", "true")? {
        return Ok(None);
    }
    Ok(Some(Shifter {
        input: range_if_any(names, head, "input_voltage_range"),
        output: range_if_any(names, head, "output_voltage_range"),
        kind: shifter_kind(&value(alloc, names, head, "level_shifter_type")?),
    }))
}

/// Whether a group is a retention condition of a cell.
#[tactic(auto, unfolding(crate::specs::Roles::is_condition))]
fn is_condition(names: &Names, place: usize, group: &Group) -> bool
    ensures { result ≡ is_condition place (group_view names.now group.now) }
{
    is_part(names, place, group, "retention_condition")
}

/// The first retention condition of a cell.
fn condition_of<'a>(names: &Names, place: usize, groups: &'a [Group]) -> Option<&'a Group>
    ensures { option_map (group_view names.now) (option_copied result) ≡ find (is_condition place) (map (group_view names.now) groups.now) }
{
    for group in groups {
        if is_condition(names, place, group) {
            return Some(group);
        }
    }
    None
}

/// The function of the saved copy, none where it is missing.
pub fn copy_of(
    alloc: Global,
    names: &Names,
    place: usize,
    groups: &[Group],
) -> Result<Option<Word>, NoMemory>
    ensures { IfOk result (λ o. o ≡ copy_of place (map (group_view names.now) groups.now)) }
{
    match condition_of(names, place, groups) {
        None => Ok(None),
        Some(group) => value(alloc, names, group, "power_down_function"),
    }
}

/// Whether a cell is a retention cell.
pub fn is_retention(names: &Names, head: &Group) -> bool
    ensures { result ≡ is_retention (group_view names.now head.now) }
{
    has(names, head, "retention_cell")
}

/// The function of the saved copy of a retention cell.
fn retention_of(
    alloc: Global,
    names: &Names,
    place: usize,
    pgs: &Table,
    head: &Group,
    groups: &[Group],
) -> Result<Option<Expr>, NoMemory>
    requires known { IsTrue (are_known names.now pgs.now) }
    ensures same { IfOk result (λ o. option_map (expr_view names.now) o ≡ by_texts (retention_of place pgs.now) names.now head.now groups.now) }
    ensures below { IfOk result (λ o. numbers_below (length names.now) (option_numbers expr_numbers o) ≡ true) }
{
    if !is_retention(names, head) {
        return Ok(None);
    }
    let copy = copy_of(alloc, names, place, groups)?;
    if copy.is_none() {
        return Ok(None);
    }
    Ok(Some(over_if_any(alloc, names, pgs, &copy)?))
}

/// What a cell is for.
pub fn roles_of(
    alloc: Global,
    names: &Names,
    place: usize,
    pgs: &Table,
    head: &Group,
    groups: &[Group],
) -> Result<Roles, NoMemory>
    requires known { IsTrue (are_known names.now pgs.now) }
    ensures same { IfOk result (λ r. roles_view names.now r ≡ roles_of place pgs.now (group_view names.now head.now) (map (group_view names.now) groups.now)) }
    ensures below { IfOk result (λ r. numbers_below (length names.now) (roles_numbers r) ≡ true) }
{
    Ok(Roles {
        shifter: shifter_of(alloc, names, head)?,
        iso: says(alloc, names, head, "is_isolation_cell", "true")?,
        switch: is_switch(alloc, names, head)?,
        retention: retention_of(alloc, names, place, pgs, head, groups)?,
    })
}
