ghost use Rattle.std.specs.Prelude.{◌≡◌, [], ◌∷◌, Some, IfSome, ◌+◌, ◌<◌, ◌≤◌, length, map, false, IsTrue, IfOk, OnErr, MatchOption, vec_len, OnOk, take, drop, ◌-◌, nat_le, ◌&&◌};
ghost use Rattle.lp_text.specs.Limits.{most_names};
ghost use Rattle.std.specs.Option.{option_copied, option_map, option_to_list};
ghost use Rattle.lp_text.specs.Texts.{Grown, has_text, place_of, with_text};
ghost use Rattle.lp_expr.specs.Grammar.{is_name};
ghost use Rattle.lp_expr.specs.Parts.{between, item_of, is_within, are_within};
ghost use Rattle.lp_expr.specs.Denotes.{texts_of, are_below, place_from, NotedIf, Collected, firsts, parts_names, is_named, are_named, parts_steps, constant_of, item_names, item_step, number_in, operation};
ghost use Rattle.lp_expr.specs.declared.step.Step.TheVariants.{Variable};

use crate::dialect::{Part, Sign};
use crate::step::Step;
use lp_text::{NameId, Names, NamesFault, NoMemory};
use std::alloc::Global;

/// The most variables of an expression.
const MOST: usize = 12;

/// Where a name stands among some names of a table.
fn find_among(names: &Names, ids: &[NameId], name: &str) -> Option<usize>
    requires { IsTrue (are_below (length names.now) ids.now) }
    ensures place { result ≡ place_from 0 name.now (texts_of names.now ids.now) }
    ensures within { IfSome result (λ place. place < length ids.now) }
{
    for (place, id) in ids.iter().enumerate() {
        if name == names.text(*id) {
            return Some(place);
        }
    }
    None
}

/// The number of a name, where the table has room for one more.
fn intern(names: &mut Names, name: &str) -> Result<NameId, NoMemory>
    requires { length names.old < most_names }
    ensures number { IfOk result (λ id. place_of name.now names.new ≡ Some id.0) }
    ensures ok { OnOk result (names.new ≡ with_text names.old name.now) }
    ensures err { OnErr result (names.new ≡ names.old) }
{
    match names.intern(name) {
        Ok(id) => Ok(id),
        Err(NamesFault::NoMemory) => Err(NoMemory),
        Err(NamesFault::Full) => unreachable!(),
    }
}

/// Counts a name among the variables, unless it would be the 13th.
fn note(names: &mut Names, ids: &mut Vec<NameId>, name: &str) -> Result<bool, NoMemory>
    requires room { length names.old ≤ (most_names - 12) + vec_len ids.old }
    requires below { IsTrue (are_below (length names.old) ids.old.items) }
    requires few { vec_len ids.old ≤ 12 }
    ensures ok { IfOk result (NotedIf names.old ids.old.items (name.now ∷ []) names.new ids.new.items) }
    ensures grown { OnErr result (Grown names.old names.new) }
    ensures one_more { OnErr result (length names.new ≤ length names.old + 1) }
    ensures few { OnErr result (length names.new + vec_len ids.old ≤ length names.old + 12) }
{
    if find_among(names, ids, name).is_some() {
        return Ok(true);
    }
    if ids.len() == MOST {
        return Ok(false);
    }
    let id = intern(names, name)?;
    ids.push(id)?;
    Ok(true)
}

/// The bytes of a part, as text.
fn name_of(text: &[u8], from: usize, to: usize) -> &str
    requires order { from ≤ to }
    requires within { to ≤ length text.now }
    requires named { IsTrue (is_name (between text.now from to)) }
    ensures { result.now ≡ between text.now from to }
{
    str::from_utf8(&text[from..to]).unwrap()
}

/// Whether the bytes of a plain part are a constant, and which.
fn constant(name: &str) -> Option<bool>
    ensures { result ≡ constant_of name.now }
{
    match name.as_bytes() {
        b"0" => Some(false),
        b"1" => Some(true),
        _ => None,
    }
}

/// The name of a part, none where it has none.
fn part_name(text: &[u8], part: Part) -> Option<&str>
    requires within { IsTrue (is_within (length text.now) part) }
    requires named { IsTrue (is_named (item_of text.now part)) }
    ensures { item_names (item_of text.now part) ≡ option_to_list (option_copied result) }
{
    match part {
        Part::Plain(from, to) => {
            let name = name_of(text, from, to);
            if constant(name).is_some() {
                None
            } else {
                Some(name)
            }
        }
        Part::Quoted(from, to) => Some(name_of(text, from, to)),
        Part::Not | Part::Infix(_) => None,
    }
}

/// Counts the name of a part among the variables, if it has one and that is not the 13th.
fn note_part(
    names: &mut Names,
    ids: &mut Vec<NameId>,
    text: &[u8],
    part: Part,
) -> Result<bool, NoMemory>
    requires room { length names.old ≤ (most_names - 12) + vec_len ids.old }
    requires below { IsTrue (are_below (length names.old) ids.old.items) }
    requires few { vec_len ids.old ≤ 12 }
    requires within { IsTrue (is_within (length text.now) part) }
    requires named { IsTrue (is_named (item_of text.now part)) }
    ensures ok { IfOk result (NotedIf names.old ids.old.items (item_names (item_of text.now part)) names.new ids.new.items) }
    ensures grown { OnErr result (Grown names.old names.new) }
    ensures one_more { OnErr result (length names.new ≤ length names.old + 1) }
    ensures few { OnErr result (length names.new + vec_len ids.old ≤ length names.old + 12) }
{
    match part_name(text, part) {
        None => Ok(true),
        Some(name) => note(names, ids, name),
    }
}

/// The variables of all parts, in the order in which they first occur; none where they are 13 or more.
pub(crate) fn collect(
    alloc: Global,
    names: &mut Names,
    text: &[u8],
    parts: &[Part],
) -> Result<Option<Vec<NameId>>, NoMemory>
    requires room { length names.old ≤ most_names - 12 }
    requires within { IsTrue (are_within text.now parts.now) }
    requires named { IsTrue (are_named text.now parts.now) }
    ensures ok { IfOk result (Collected names.new (parts_names text.now parts.now)) }
    ensures grown { Grown names.old names.new }
    ensures few { length names.new ≤ length names.old + 12 }
    ensures small { length names.new ≤ length names.old + length parts.now }
{
    let mut ids = Vec::new(alloc);
    for part in parts {
        if !note_part(names, &mut ids, text, *part)? {
            return Ok(None);
        }
    }
    Ok(Some(ids))
}

/// The variable of a name among some.
fn variable(names: &Names, ids: &[NameId], name: &str) -> Step
    requires below { IsTrue (are_below (length names.now) ids.now) }
    requires few { length ids.now ≤ 12 }
    ensures { result ≡ Variable (number_in (texts_of names.now ids.now) name.now) }
{
    Step::Variable(find_among(names, ids, name).unwrap_or(0) as u8)
}

fn operation_of(sign: Sign) -> Step
    ensures { result ≡ operation sign }
{
    match sign {
        Sign::Star | Sign::Ampersand | Sign::Gap | Sign::TwoAmpersands => Step::And,
        Sign::Plus | Sign::Bar | Sign::TwoBars => Step::Or,
        Sign::Caret => Step::Xor,
    }
}

/// The step of a part.
fn step_of(names: &Names, ids: &[NameId], text: &[u8], part: Part) -> Step
    requires below { IsTrue (are_below (length names.now) ids.now) }
    requires few { length ids.now ≤ 12 }
    requires within { IsTrue (is_within (length text.now) part) }
    requires named { IsTrue (is_named (item_of text.now part)) }
    ensures { result ≡ item_step (texts_of names.now ids.now) (item_of text.now part) }
{
    match part {
        Part::Plain(from, to) => {
            let name = name_of(text, from, to);
            match constant(name) {
                Some(value) => Step::Constant(value),
                None => variable(names, ids, name),
            }
        }
        Part::Quoted(from, to) => variable(names, ids, name_of(text, from, to)),
        Part::Not => Step::Not,
        Part::Infix(sign) => operation_of(sign),
    }
}

/// The steps of the parts, over these variables.
pub(crate) fn steps_of(
    alloc: Global,
    names: &Names,
    ids: &[NameId],
    text: &[u8],
    parts: &[Part],
) -> Result<Vec<Step>, NoMemory>
    requires below { IsTrue (are_below (length names.now) ids.now) }
    requires few { length ids.now ≤ 12 }
    requires within { IsTrue (are_within text.now parts.now) }
    requires named { IsTrue (are_named text.now parts.now) }
    ensures { IfOk result (λ steps. steps.items ≡ parts_steps (texts_of names.now ids.now) text.now parts.now) }
{
    let mut steps = Vec::new(alloc);
    for part in parts {
        steps.push(step_of(names, ids, text, *part))?;
    }
    Ok(steps)
}
