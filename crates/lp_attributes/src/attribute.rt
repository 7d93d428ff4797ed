ghost use Rattle.std.specs.Prelude.{◌≡◌, ◌++◌, ◌∷◌, IfOk, OnOk, map, is_some};
ghost use Rattle.std.specs.List.{flat_map};
ghost use Rattle.std.specs.Option.{option_copied, option_map};
ghost use Rattle.std.specs.String.{string_bytes};
ghost use Rattle.lp_model.specs.Agreement.{name_texts};
ghost use Rattle.lp_model.specs.GroupsView.{attr_view, group_view};
ghost use Rattle.lp_attributes.specs.Attributes.{is_complex, is_simple, is_text, joined, last_that, says, value_of, values_of};

use crate::names::text_of;
use lp_model::{Attr, Group};
use lp_text::{NameId, Names, NoMemory, Word};
use std::alloc::Global;

/// Adds texts, each with a blank before it.
fn push_others(names: &Names, text: &mut String, others: &[NameId]) -> Result<(), NoMemory>
    ensures { OnOk result (string_bytes text.new ≡ string_bytes text.old ++ flat_map (λ u. 32 ∷ u) (name_texts names.now others.now)) }
{
    for other in others {
        text.push_str(" ")?;
        text.push_str(text_of(names, *other))?;
    }
    Ok(())
}

/// The texts of names as one, with a blank between two.
fn join(alloc: Global, names: &Names, items: &[NameId]) -> Result<Word, NoMemory>
    ensures { IfOk result (λ w. w ≡ joined (name_texts names.now items.now)) }
{
    match items {
        [] => Ok(Word::new(String::new(alloc))),
        [first, others @ ..] => {
            let mut text = String::from_str(alloc, text_of(names, *first))?;
            push_others(names, &mut text, others)?;
            Ok(Word::new(text))
        }
    }
}

/// Whether an attribute is a simple one of a word.
fn is_simple(names: &Names, attr: &Attr, word: &str) -> bool
    ensures { result ≡ is_simple word.now (attr_view names.now attr.now) }
{
    text_of(names, attr.word) == word && !attr.complex
}

/// Whether an attribute is a complex one of a word.
fn is_complex(names: &Names, attr: &Attr, word: &str) -> bool
    ensures { result ≡ is_complex word.now (attr_view names.now attr.now) }
{
    text_of(names, attr.word) == word && attr.complex
}

/// The last simple attribute of a word.
#[tactic(auto, using(crate::proofs::Lasts::last_from_whole))]
fn last_simple<'a>(names: &Names, attrs: &'a [Attr], word: &str) -> Option<&'a Attr>
    ensures { option_map (attr_view names.now) (option_copied result) ≡ last_that (is_simple word.now) (map (attr_view names.now) attrs.now) }
{
    let mut found = None;
    for attr in attrs {
        if is_simple(names, attr, word) {
            found = Some(attr);
        }
    }
    found
}

/// The last complex attribute of a word.
#[tactic(auto, using(crate::proofs::Lasts::last_from_whole))]
fn last_complex<'a>(names: &Names, attrs: &'a [Attr], word: &str) -> Option<&'a Attr>
    ensures { option_map (attr_view names.now) (option_copied result) ≡ last_that (is_complex word.now) (map (attr_view names.now) attrs.now) }
{
    let mut found = None;
    for attr in attrs {
        if is_complex(names, attr, word) {
            found = Some(attr);
        }
    }
    found
}

/// The value of a simple attribute of a group: that of the last one of its word, its items joined by blanks.
///
/// # Errors
///
/// Only where memory is refused.
pub fn value(
    alloc: Global,
    names: &Names,
    group: &Group,
    word: &str,
) -> Result<Option<Word>, NoMemory>
    ensures { IfOk result (λ v. v ≡ value_of word.now (group_view names.now group.now)) }
{
    match last_simple(names, group.attrs.as_slice(), word) {
        None => Ok(None),
        Some(attr) => Ok(Some(join(alloc, names, attr.items.as_slice())?)),
    }
}

/// The values of a complex attribute of a group: those of the last one of its word.
pub fn values<'a>(names: &Names, group: &'a Group, word: &str) -> Option<&'a [NameId]>
    ensures { option_map (name_texts names.now) (option_copied result) ≡ values_of word.now (group_view names.now group.now) }
{
    match last_complex(names, group.attrs.as_slice(), word) {
        None => None,
        Some(attr) => Some(attr.items.as_slice()),
    }
}

/// Whether a group has a simple attribute of a word.
pub fn has(names: &Names, group: &Group, word: &str) -> bool
    ensures { result ≡ is_some (value_of word.now (group_view names.now group.now)) }
{
    last_simple(names, group.attrs.as_slice(), word).is_some()
}

/// Whether a simple attribute of a group has this value.
///
/// # Errors
///
/// Only where memory is refused.
pub fn says(
    alloc: Global,
    names: &Names,
    group: &Group,
    word: &str,
    text: &str,
) -> Result<bool, NoMemory>
    ensures { IfOk result (λ b. b ≡ says word.now text.now (group_view names.now group.now)) }
{
    match value(alloc, names, group, word)? {
        None => Ok(false),
        Some(value) => Ok(value.text() == text),
    }
}
