ghost use Rattle.std.specs.Prelude.{◌≡◌, ◌+◌, ◌<◌, ◌≤◌, None, true, length, map, IfOk, IfErr};
ghost use Rattle.lp_text.specs.Limits.{most_names_before};
ghost use Rattle.std.specs.List.{flat_map};
ghost use Rattle.lp_text.specs.Places.{place_in};
ghost use Rattle.lp_text.specs.Texts.{Grown};
ghost use Rattle.lp_model.specs.Agreement.{numbers_below};
ghost use Rattle.lp_model.specs.GroupsView.{group_numbers, group_view, groups_numbers};
ghost use Rattle.lp_model.specs.Refusals.{library_refusal};
ghost use Rattle.lp_liberty.specs.Denotes.{Denotes, ReadsGroups, RefusedAs};
ghost use Rattle.lp_liberty.specs.Stops.{StopsAt, refusal_by};

use crate::run::{Stop, run};
use lp_model::{Group, Groups, LibraryFault, Refusal};
use lp_text::{LIMIT, Names, Place};
use sqlite_items::Items;
use std::alloc::Global;

/// The groups of a text, or where it is refused.
fn groups_of(alloc: Global, names: &mut Names, text: &[u8]) -> Result<Items<Group>, Stop>
    requires small { length text.now ≤ LIMIT }
    requires room { length names.old ≤ most_names_before }
    ensures ok { IfOk result (λ groups. Denotes text.now (map (group_view names.new) groups)) }
    ensures numbers { IfOk result (λ groups. numbers_below (length names.new) (flat_map group_numbers groups) ≡ true) }
    ensures err { IfErr result (StopsAt text.now) }
    ensures grown { Grown names.old names.new }
    ensures few { length names.new ≤ length names.old + length text.now }
{
    run(alloc, names, text)
}

/// The refusal of a text that is not too long.
fn refusal_of(file: u32, text: &[u8], stop: Stop) -> Refusal
    requires small { length text.now ≤ LIMIT }
    requires stopped { StopsAt text.now stop }
    ensures { result ≡ refusal_by file text.now stop }
{
    match stop {
        Stop::Syntax(index) => Refusal::from(LibraryFault::Syntax {
            file,
            place: Place::of(text, index),
        }),
        Stop::Deep(index) | Stop::Long(index) => Refusal::from(LibraryFault::Limit {
            file,
            place: Place::of(text, index),
        }),
        Stop::NoMemory => Refusal::NoMemory,
    }
}

/// Reads a Liberty text as its groups; the names of words, arguments and items go into the table, which has each number
/// in the groups.
///
/// `file` is the number of the file, 10 for the first library. The table has at most 3,000,000,000 names.
///
/// # Errors
///
/// `Limit` (F02) for a text of more than 67,108,864 bytes, at its first byte; for a group within 64 others, at its
/// word; for a token of more than 1,048,576 bytes, at its first byte, but for one in the head of such a group, whose
/// word comes first. `Syntax` (F01) at the first token that no text of
/// the form has after the same ones before it, or one past the last byte of a text that ends first. And where memory is
/// refused. The table has grown by at most as many names as the text has bytes.
pub fn read_groups(
    alloc: Global,
    names: &mut Names,
    file: u32,
    bytes: &[u8],
) -> Result<Groups, Refusal>
    requires { length names.old ≤ most_names_before }
    ensures ok { IfOk result (ReadsGroups file bytes.now names.new) }
    ensures numbers { IfOk result (λ g. numbers_below (length names.new) (groups_numbers g) ≡ true) }
    ensures err { IfErr result (RefusedAs file bytes.now) }
    ensures grown { Grown names.old names.new }
    ensures few { length names.new ≤ length names.old + length bytes.now }
{
    if bytes.len() > LIMIT {
        let place = Place { line: 1, column: 1 };
        return Err(Refusal::from(LibraryFault::Limit { file, place }));
    }
    match groups_of(alloc, names, bytes) {
        Ok(groups) => Ok(Groups {
            size: bytes.len() as u64,
            groups,
            file,
        }),
        Err(stop) => Err(refusal_of(file, bytes, stop)),
    }
}
