ghost use Rattle.std.specs.Prelude.{◌≡◌, ℕ, List, ◌+◌, ◌-◌, ◌<◌, ◌≤◌, ◌^◌, length, true, None, IfOk};
ghost use Rattle.lp_text.specs.Limits.{most_names};
ghost use Rattle.lp_text.specs.Texts.{Grown};
ghost use Rattle.lp_model.specs.Agreement.{numbers_below};
ghost use Rattle.lp_model.specs.CommandsView.{word_view, line_numbers, line_view};
ghost use Rattle.lp_upf_words.specs.Elements.{ReadsElements, byte_of, bytes_after, content_of, content_place, words_in};
ghost use Rattle.lp_upf_words.specs.Views.{gathered_of, numbers_of};

use crate::mode::Stop;
use crate::read::run;
use crate::reader::{Reader, past_byte};
use lp_model::{UpfWord, WordForm};
use lp_text::{Names, NoMemory, Place};
use sqlite_items::Items;
use std::alloc::Global;

/// The content of a word as a list.
#[derive(Drop)]
pub struct Elements {
    /// Its whole elements.
    pub words: Items<UpfWord>,
    /// Where it leaves the form of lists, if it does.
    pub stop: Option<Stop>,
    /// One past the content, where it keeps the form.
    pub end: Place,
}

/// The byte whose character has these two bytes.
fn byte_of(lead: u8, byte: u8) -> u8
    ensures { result ≡ byte_of lead byte }
{
    (lead % 4) * 64 + byte % 64
}

/// The bytes of a word.
fn bytes_of(alloc: Global, text: &str) -> Result<Vec<u8>, NoMemory>
    ensures { IfOk result (λ bytes. bytes.items ≡ bytes_after None text.now) }
{
    let mut bytes = Vec::with_capacity(alloc, text.len())?;
    let mut lead = None;
    let characters = text.as_bytes();
    for byte in characters {
        match lead {
            Some(first) => {
                bytes.push(byte_of(first, *byte))?;
                lead = None;
            }
            None => {
                if *byte < 128 {
                    bytes.push(*byte)?;
                } else {
                    lead = Some(*byte);
                }
            }
        }
    }
    Ok(bytes)
}

/// The place of the first byte of a word's content.
fn content_place(form: WordForm, place: Place) -> Place
    requires line { place.line < 2 ^ 32 - 1 }
    requires column { place.column < 2 ^ 32 - 1 }
    ensures value { result ≡ content_place form place }
    ensures line { result.line ≤ place.line + 1 }
    ensures column { result.column ≤ place.column + 1 }
{
    match form {
        WordForm::Bare => place,
        WordForm::Braces => past_byte(place, b'{'),
        WordForm::Quotes => past_byte(place, b'"'),
    }
}

/// The words that were read, of one command at most.
fn words_in(mut reader: Reader) -> Items<UpfWord>
    ensures value { (names : List (List ℕ)) → line_view names result ≡ words_in (gathered_of names reader).commands (gathered_of names reader).words }
    ensures numbers { (n : ℕ) → numbers_below n (numbers_of reader) ≡ true → numbers_below n (line_numbers result) ≡ true }
{
    if reader.commands.is_empty() {
        reader.words
    } else {
        reader.commands.remove(0)
    }
}

/// Reads the content of a word as a list (IEEE 1801-2015, Tcl syntax); its elements go into the table of names.
///
/// # Errors
///
/// Only where memory is refused.
pub fn read_elements(alloc: Global, names: &mut Names, word: UpfWord) -> Result<Elements, NoMemory>
    requires known { word.name.0 < length names.old }
    requires room { length names.old + length (content_of (word_view names.old word)) < most_names }
    requires line { word.place.line + length (content_of (word_view names.old word)) < 2 ^ 32 - 2 }
    requires column { word.place.column + length (content_of (word_view names.old word)) < 2 ^ 32 - 2 }
    ensures ok { IfOk result (ReadsElements (word_view names.old word) names.new) }
    ensures numbers { IfOk result (λ e. numbers_below (length names.new) (line_numbers e.words) ≡ true) }
    ensures grown { Grown names.old names.new }
    ensures few { length names.new ≤ length names.old + length (content_of (word_view names.old word)) }
{
    let bytes = bytes_of(alloc, names.text(word.name))?;
    let place = content_place(word.form, word.place);
    let mut reader = Reader::new(alloc, false, place);
    let stop = run(&mut reader, names, &bytes, true)?;
    let end = reader.here;
    Ok(Elements {
        words: words_in(reader),
        stop,
        end,
    })
}
