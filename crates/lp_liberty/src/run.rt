ghost use Rattle.std.specs.Prelude.{◌≡◌, ℕ, List, [], ◌∷◌, Some, None, ◌+◌, ◌<◌, ◌≤◌, ◌^◌, true, false, length, drop, IfOk, IfErr, OnOk, OnErr, if◌then◌else◌};
ghost use Rattle.lp_text.specs.Limits.{most_names, most_names_before};
ghost use Rattle.std.specs.String.{string_bytes};
ghost use Rattle.lp_text.specs.declared.shelf.TheConstants.{LIMIT};
ghost use Rattle.lp_text.specs.Texts.{Grown, has_text, place_of, with_text};
ghost use Rattle.lp_liberty.specs.Grammar.{Sign};
ghost use Rattle.lp_liberty.specs.Lexing.{name_of};
ghost use Rattle.lp_liberty.specs.Tokens.{between, token_of, tokens_of};
ghost use Rattle.lp_liberty.specs.Machine.{Taken, Whole, finished, mark_in, name_in, number_in, numbered_as, next_step, read_in, start, stop_ahead, taken_in};
ghost use Rattle.lp_liberty.specs.Outcome.{IsStop, RefusedBy};

use crate::ahead::opens_group;
use crate::decode::decode;
use crate::lexed::{Lexed, lexed_at};
use crate::mark::{Mark, Sort};
use crate::reader::Reader;
use lp_model::Group;
use lp_text::{NameId, Names, NamesFault, NoMemory};
use sqlite_items::Items;
use std::alloc::Global;

/// The most bytes of a token.
const LONGEST: usize = 1_048_576;

/// Why a text gives no groups: the index of a byte, or of the text's end.
#[derive(Clone, Copy)]
pub(crate) enum Stop {
    /// No text of the form goes on with the token here, or ends here.
    Syntax(usize),
    /// The group whose word is here has 64 groups around it.
    Deep(usize),
    /// The token here is too long.
    Long(usize),
    /// An allocation was refused.
    NoMemory,
}

impl From<NoMemory> for Stop {
    ghost use Rattle.std.specs.Prelude.{◌≡◌};
    ghost use Rattle.lp_liberty.specs.declared.run.Stop.TheVariants as stops;

    ghost from_gives = { λ _ e. e ≡ stops.NoMemory };

    fn from(_error: NoMemory) -> Stop {
        Stop::NoMemory
    }
}

/// The number of a name, where the table has room for one more.
fn intern(names: &mut Names, name: &str) -> Result<NameId, NoMemory>
    requires { length names.old < most_names }
    ensures number { IfOk result (λ id. id ≡ numbered_as names.new name.now) }
    ensures ok { OnOk result (names.new ≡ with_text names.old name.now) }
    ensures err { OnErr result (names.new ≡ names.old) }
{
    match names.intern(name) {
        Ok(id) => Ok(id),
        Err(NamesFault::NoMemory) => Err(NoMemory),
        Err(NamesFault::Full) => unreachable!(),
    }
}

/// Takes a word or a string, whose name becomes the last one where it is new.
fn take_name(
    reader: &mut Reader,
    names: &mut Names,
    name: &mut String,
    said: &[u8],
    quoted: bool,
    at: usize,
) -> Result<bool, NoMemory>
    requires { length names.old < most_names }
    ensures names { OnOk result (names.new ≡ with_text names.old (name_of said.now)) }
    ensures taken { IfOk result (λ taken. name_in quoted (number_in names.old (name_of said.now)) at reader.old ≡ (if taken then Some reader.new else None)) }
    ensures grown { Grown names.old names.new }
    ensures few { length names.new ≤ length names.old + 1 }
{
    decode(name, said)?;
    let id = intern(names, name.as_str())?;
    reader.take_name(quoted, id, at)
}

/// Why a mark is not taken.
fn refusal(deep: bool, head: usize, at: usize) -> Stop
    ensures { result ≡ (if deep then Stop.Deep head else Stop.Syntax at) }
{
    if deep {
        Stop::Deep(head)
    } else {
        Stop::Syntax(at)
    }
}

/// Takes a mark.
fn take_mark(reader: &mut Reader, mark: Mark, at: usize) -> Result<(), Stop>
    requires { length reader.old.groups < 2 ^ 32 }
    ensures ok { (names : List (List ℕ)) → OnOk result (taken_in names reader.old at (Sign mark) ≡ Taken names reader.new) }
    ensures err { (names : List (List ℕ)) → IfErr result (λ stop. RefusedBy stop (taken_in names reader.old at (Sign mark))) }
{
    let deep = reader.is_deep(mark);
    let head = reader.head();
    if reader.take_mark(mark)? {
        return Ok(());
    }
    Err(refusal(deep, head, at))
}

/// Where a text stops at a token that is too long, whose first byte has the index `at`. It is the first of at most `left`
/// tokens that are left: at the word of the group whose head it stands in, where that is too deep, else at the token.
fn too_long(reader: &Reader, rest: &[u8], left: usize, at: usize) -> Stop
    requires { length rest.now ≤ LIMIT }
    ensures { IsStop result (stop_ahead left rest.now reader.now at) }
{
    if !reader.has_room() && opens_group(reader.mode(), rest, left) {
        return Stop::Deep(reader.head());
    }
    Stop::Long(at)
}

/// Takes the next token of a text, unless there is none. Its first byte has the index `at`, and it is one of at most `left`.
fn step(
    reader: &mut Reader,
    names: &mut Names,
    name: &mut String,
    rest: &[u8],
    left: usize,
    token: Lexed,
    at: usize,
) -> Result<(), Stop>
    requires size { length rest.now ≤ LIMIT }
    requires room { length names.old < most_names }
    requires few { length reader.old.groups < 2 ^ 32 }
    requires order { token.from ≤ token.«to» }
    requires within { token.«to» ≤ length rest.now }
    ensures ok { OnOk result (next_step left rest.now names.old reader.old token at ≡ Taken names.new reader.new) }
    ensures err { IfErr result (λ stop. RefusedBy stop (next_step left rest.now names.old reader.old token at)) }
    ensures grown { Grown names.old names.new }
    ensures small { length names.new ≤ length names.old + 1 }
{
    if token.size > LONGEST {
        return Err(too_long(reader, rest, left, at));
    }
    let said = &rest[token.from..token.to];
    let taken = match token.sort {
        Sort::Word => take_name(reader, names, name, said, false, at)?,
        Sort::Quoted => take_name(reader, names, name, said, true, at)?,
        Sort::Mark(mark) => return take_mark(reader, mark, at),
        Sort::End => true,
    };
    if taken { Ok(()) } else { Err(Stop::Syntax(at)) }
}

/// The groups, where the text may end here.
fn finish(reader: Reader, end: usize) -> Result<Items<Group>, Stop>
    ensures ok { (names : List (List ℕ)) → IfOk result (λ groups. finished end names reader ≡ Whole names groups) }
    ensures err { (names : List (List ℕ)) → IfErr result (λ stop. IsStop stop (finished end names reader)) }
{
    if reader.is_done() {
        return Ok(reader.into_groups());
    }
    Err(Stop::Syntax(end))
}

/// The groups of a text, or where it is refused.
pub(crate) fn run(alloc: Global, names: &mut Names, text: &[u8]) -> Result<Items<Group>, Stop>
    requires small { length text.now ≤ LIMIT }
    requires room { length names.old ≤ most_names_before }
    ensures ok { IfOk result (λ groups. read_in (length text.now) names.old start (tokens_of text.now) ≡ Whole names.new groups) }
    ensures err { IfErr result (λ stop. IsStop stop (read_in (length text.now) names.old start (tokens_of text.now))) }
    ensures grown { Grown names.old names.new }
    ensures few { length names.new ≤ length names.old + length text.now }
{
    let mut reader = Reader::new(alloc);
    let mut name = String::new(alloc);
    let mut at = 0;
    for round in 0..text.len() {
        let rest = &text[at..];
        let token = lexed_at(reader.context(), rest);
        if token.is_end() {
            return finish(reader, text.len());
        }
        let left = text.len() - round;
        step(
            &mut reader,
            names,
            &mut name,
            rest,
            left,
            token,
            at + token.start,
        )?;
        at += token.start + token.size;
    }
    finish(reader, text.len())
}
