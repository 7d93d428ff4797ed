ghost use Rattle.std.specs.Prelude.{◌≡◌, map};
ghost use Rattle.std.specs.List.{list_any};
ghost use Rattle.lp_model.specs.GroupsView.{group_view};
ghost use Rattle.lp_attributes.specs.Attributes.{values_of};
ghost use Rattle.lp_parts.specs.Names.{is_state};
ghost use Rattle.lp_cells.specs.Reasons.{has_bad_range, has_condition, has_two, is_bad_range, is_construct, is_left_out};

use lp_attributes::{has, range, values};
use lp_model::Group;
use lp_parts::{is_part, is_pin, is_state, is_word, stands_in};
use lp_text::Names;

/// Whether a range is there and does not read.
fn is_bad_range(names: &Names, head: &Group, word: &str) -> bool
    ensures { result ≡ is_bad_range (values_of word.now (group_view names.now head.now)) }
{
    match values(names, head, word) {
        None => false,
        Some(values) => range(names, values).is_none(),
    }
}

/// Whether a range of a cell does not read.
pub(crate) fn has_bad_range(names: &Names, head: &Group) -> bool
    ensures { result ≡ has_bad_range (group_view names.now head.now) }
{
    is_bad_range(names, head, "input_voltage_range")
        || is_bad_range(names, head, "output_voltage_range")
}

/// Whether a cell has two state groups.
#[tactic(auto, using(crate::proofs::Second::has_second_whole))]
pub(crate) fn has_two_states(names: &Names, place: usize, groups: &[Group]) -> bool
    ensures { result ≡ has_two (is_state place) (map (group_view names.now) groups.now) }
{
    let mut met = false;
    for group in groups {
        if is_state(names, place, group) {
            if met {
                return true;
            }
            met = true;
        }
    }
    false
}

/// Whether a group is a construct that is not taken.
fn is_left_out(names: &Names, group: &Group) -> bool
    ensures { result ≡ is_left_out (group_view names.now group.now).word }
{
    is_word(names, group, "statetable")
        || is_word(names, group, "bus")
        || is_word(names, group, "bundle")
        || is_word(names, group, "ff_bank")
        || is_word(names, group, "latch_bank")
}

/// Whether a group has a condition on its control signals.
pub(crate) fn has_condition(names: &Names, group: &Group) -> bool
    ensures { result ≡ has_condition (group_view names.now group.now) }
{
    has(names, group, "save_condition")
        || has(names, group, "restore_condition")
        || has(names, group, "required_condition")
}

/// Whether a group is a construct that is not taken, or has one.
fn is_construct(names: &Names, place: usize, group: &Group) -> bool
    ensures { result ≡ is_construct place (group_view names.now group.now) }
{
    if is_pin(names, place, group) {
        return has_condition(names, group) || has(names, group, "three_state");
    }
    if is_state(names, place, group) || is_part(names, place, group, "retention_condition") {
        return has_condition(names, group);
    }
    stands_in(place, group) && is_left_out(names, group)
}

/// Whether a group of a cell is a construct that is not taken, or has one.
pub(crate) fn any_construct(names: &Names, place: usize, groups: &[Group]) -> bool
    ensures { result ≡ list_any (is_construct place) (map (group_view names.now) groups.now) }
{
    for group in groups {
        if is_construct(names, place, group) {
            return true;
        }
    }
    false
}
