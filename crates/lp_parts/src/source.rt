ghost use Rattle.std.specs.Prelude.{◌≡◌, ◌<◌, Some, [], IsTrue, length, map};
ghost use Rattle.lp_text.specs.Texts.{has_text, same_text, text_at};
ghost use Rattle.lp_model.specs.GroupsView.{group_view};
ghost use Rattle.lp_parts.specs.Source.{arg_at, inside, is_at, is_behind, is_cell, is_in_library, is_library, is_part};

use lp_attributes::{known, text_of};
use lp_model::Group;
use lp_text::{NameId, Names};

/// Whether a group stands in the group of a number.
pub fn stands_in(place: usize, group: &Group) -> bool
    ensures { result ≡ is_at place group.now.parent }
{
    match group.parent {
        None => false,
        Some(parent) => parent as usize == place,
    }
}

/// Whether a group is of a word.
pub fn is_word(names: &Names, group: &Group, word: &str) -> bool
    ensures { result ≡ same_text (group_view names.now group.now).word word.now }
{
    text_of(names, group.word) == word
}

/// Whether a group is of a word and stands in the group of a number.
pub fn is_part(names: &Names, place: usize, group: &Group, word: &str) -> bool
    ensures { result ≡ is_part place word.now (group_view names.now group.now) }
{
    stands_in(place, group) && is_word(names, group, word)
}

/// The number of the empty text.
fn empty(names: &Names) -> NameId
    requires { IsTrue (has_text [] names.now) }
    ensures below { result.0 < length names.now }
    ensures same { text_at names.now result.0 ≡ [] }
{
    match names.find("") {
        Some(empty) => empty,
        None => NameId(0),
    }
}

/// The name of an argument of a group, the empty text where it is missing.
pub fn arg_of(names: &Names, group: &Group, n: usize) -> NameId
    requires { IsTrue (has_text [] names.now) }
    ensures below { result.0 < length names.now }
    ensures same { text_at names.now result.0 ≡ arg_at n (group_view names.now group.now) }
{
    match group.args.get(n) {
        None => empty(names),
        Some(arg) => known(names, *arg),
    }
}

/// Whether a group goes on inside of the group of a number.
fn is_behind(place: usize, group: &Group) -> bool
    ensures { result ≡ is_behind place group.now.parent }
{
    match group.parent {
        None => false,
        Some(parent) => place <= parent as usize,
    }
}

/// The groups inside of the group of a number, among those that follow it.
pub fn inside_of<'a>(names: &Names, place: usize, groups: &'a [Group]) -> &'a [Group]
    ensures { map (group_view names.now) result.now ≡ inside place (map (group_view names.now) groups.now) }
{
    let _names = names;
    for (index, group) in groups.iter().enumerate() {
        if !is_behind(place, group) {
            return &groups[..index];
        }
    }
    groups
}

/// Whether a group is named library and stands at the top.
fn is_library(names: &Names, group: &Group) -> bool
    ensures { result ≡ is_library (Some (group_view names.now group.now)) }
{
    is_word(names, group, "library") && group.parent.is_none()
}

/// Whether the group of this number is a library.
fn is_in_library(names: &Names, all: &[Group], parent: Option<u32>) -> bool
    ensures { result ≡ is_in_library (map (group_view names.now) all.now) parent }
{
    match parent {
        None => false,
        Some(parent) => match all.get(parent as usize) {
            None => false,
            Some(group) => is_library(names, group),
        },
    }
}

/// Whether a group is a cell of a library.
pub fn is_cell(names: &Names, all: &[Group], group: &Group) -> bool
    ensures { result ≡ is_cell (map (group_view names.now) all.now) (group_view names.now group.now) }
{
    is_word(names, group, "cell") && is_in_library(names, all, group.parent)
}
