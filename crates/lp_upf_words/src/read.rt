ghost use Rattle.std.specs.Prelude.{◌≡◌, ℕ, List, [], ◌+◌, ◌-◌, ◌<◌, ◌≤◌, ◌^◌, length, true, None, Some, IfOk, OnOk};
ghost use Rattle.lp_text.specs.declared.shelf.TheConstants.{LIMIT};
ghost use Rattle.lp_text.specs.Limits.{most_names, most_names_before};
ghost use Rattle.lp_text.specs.Texts.{Grown};
ghost use Rattle.lp_model.specs.Agreement.{numbers_below};
ghost use Rattle.lp_text.specs.Places.{past, past_byte};
ghost use Rattle.lp_upf_words.specs.Elements.{kind_in};
ghost use Rattle.lp_upf_words.specs.Words.{outcome_of};
ghost use Rattle.lp_upf_words.specs.Reading.{cost_if, finished, left, read, size_of, start, step_by};
ghost use Rattle.lp_upf_words.specs.Views.{gathered_of, numbers_of, state_of};
ghost use Rattle.lp_upf_words.specs.Sizes.{AreModest};
ghost use Rattle.lp_upf_words.specs.Answer.{fault_numbers, gathered_in, read_numbers, IsFaultOf, ReadsWords};

use crate::answer::WordsRead;
use crate::decide::{decide, last};
use crate::kind::{Kind, kind_in};
use crate::mode::Stop;
use crate::reader::{Reader, intern};
use lp_model::IntentFault;
use lp_text::{LIMIT, Names, NoMemory, Place};
use std::alloc::Global;

/// Reads one byte of a kind, and says whether the text leaves the form with it.
fn step(
    reader: &mut Reader,
    names: &mut Names,
    kind: Kind,
    byte: u8,
) -> Result<Option<Stop>, NoMemory>
    requires room { length names.old < most_names }
    requires below { numbers_below (length names.old) (numbers_of reader.old) ≡ true }
    requires size { size_of reader.old.mode < 2 ^ 32 - 1 }
    requires line { reader.old.here.line < 2 ^ 32 - 1 }
    requires column { reader.old.here.column < 2 ^ 32 - 1 }
    ensures ok { IfOk result (λ stop. step_by (state_of names.old reader.old) byte kind ≡ record { state = state_of names.new reader.new; stop = stop }) }
    ensures below { OnOk result (numbers_below (length names.new) (numbers_of reader.new) ≡ true) }
    ensures grown { Grown names.old names.new }
    ensures few { length names.new ≤ length names.old + size_of reader.old.mode + 1 }
    ensures size { IfOk result (λ stop. length names.new + left reader.new.mode stop ≤ length names.old + size_of reader.old.mode + 1) }
    ensures here { OnOk result (reader.new.here ≡ past_byte reader.old.here byte) }
    ensures line { OnOk result (reader.new.here.line ≤ reader.old.here.line + 1) }
    ensures column { OnOk result (reader.new.here.column ≤ reader.old.here.column + 1) }
{
    let action = decide(reader.mode, reader.here, kind);
    let stop = reader.apply(names, action, byte)?;
    reader.move_past(byte);
    Ok(stop)
}

/// What the end of the text does.
fn finish(reader: &mut Reader, names: &mut Names) -> Result<Option<Stop>, NoMemory>
    requires room { length names.old < most_names }
    requires below { numbers_below (length names.old) (numbers_of reader.old) ≡ true }
    ensures ok { IfOk result (λ stop. finished (state_of names.old reader.old) ≡ outcome_of (gathered_of names.new reader.new) stop) }
    ensures below { OnOk result (numbers_below (length names.new) (numbers_of reader.new) ≡ true) }
    ensures grown { Grown names.old names.new }
    ensures few { length names.new ≤ length names.old + size_of reader.old.mode }
    ensures size { IfOk result (λ stop. length names.new + left reader.new.mode stop ≤ length names.old + size_of reader.old.mode) }
    ensures here { reader.new.here ≡ reader.old.here }
{
    let action = last(reader.mode, reader.here);
    reader.apply(names, action, 0)
}

/// Reads a text or the content of a list, up to where it leaves the form.
pub(crate) fn run(
    reader: &mut Reader,
    names: &mut Names,
    text: &[u8],
    list: bool,
) -> Result<Option<Stop>, NoMemory>
    requires room { length names.old + length text.now < most_names }
    requires below { numbers_below (length names.old) (numbers_of reader.old) ≡ true }
    requires size { size_of reader.old.mode ≡ 0 }
    requires line { reader.old.here.line + length text.now < 2 ^ 32 - 1 }
    requires column { reader.old.here.column + length text.now < 2 ^ 32 - 1 }
    ensures ok { IfOk result (λ stop. read (kind_in list) (state_of names.old reader.old) text.now ≡ outcome_of (gathered_of names.new reader.new) stop) }
    ensures here { IfOk result (λ stop. stop ≡ None → reader.new.here ≡ past reader.old.here text.now) }
    ensures below { OnOk result (numbers_below (length names.new) (numbers_of reader.new) ≡ true) }
    ensures grown { Grown names.old names.new }
    ensures few { length names.new ≤ length names.old + length text.now }
    ensures cost { IfOk result (λ stop. length names.new + cost_if stop ≤ length names.old + length text.now) }
{
    for byte in text {
        let stop = step(reader, names, kind_in(list, *byte), *byte)?;
        if stop.is_some() {
            return Ok(stop);
        }
    }
    finish(reader, names)
}

/// The fault of a text that leaves the form.
fn fault_of(names: &mut Names, stop: Option<Stop>) -> Result<Option<IntentFault>, NoMemory>
    requires { length names.old < most_names }
    ensures ok { IfOk result (IsFaultOf names.new stop) }
    ensures numbers { IfOk result (λ fault. numbers_below (length names.new) (fault_numbers fault) ≡ true) }
    ensures grown { Grown names.old names.new }
    ensures few { length names.new ≤ length names.old + cost_if stop }
{
    let (place, word) = match stop {
        None => return Ok(None),
        Some(Stop::Syntax(place)) => return Ok(Some(IntentFault::Syntax { place })),
        Some(Stop::Dollar(place)) => (place, "$"),
        Some(Stop::Bracket(place)) => (place, "["),
    };
    let word = intern(names, word)?;
    Ok(Some(IntentFault::Unsupported { place, word }))
}

/// What was read, with its fault.
fn words_read(reader: Reader, names: &mut Names, stop: Option<Stop>) -> Result<WordsRead, NoMemory>
    requires room { length names.old < most_names }
    requires below { numbers_below (length names.old) (numbers_of reader) ≡ true }
    ensures ok { IfOk result (λ r. gathered_in names.new r ≡ gathered_of names.old reader) }
    ensures fault { IfOk result (λ r. IsFaultOf names.new stop r.fault) }
    ensures numbers { IfOk result (λ r. numbers_below (length names.new) (read_numbers r) ≡ true) }
    ensures grown { Grown names.old names.new }
    ensures few { length names.new ≤ length names.old + cost_if stop }
{
    match fault_of(names, stop) {
        Ok(fault) => Ok(reader.into_words(fault)),
        Err(NoMemory) => Err(NoMemory),
    }
}

/// Reads a UPF text as the words of its commands (IEEE 1801-2015, Tcl syntax), as far as it keeps their form; words go
/// into the table of names.
///
/// The text has at most 67,108,864 bytes, and the table at most 3,000,000,000 names. It has grown by at most as many
/// names as the text has bytes. The words are no longer than the text, and stand in it.
///
/// The fault, if there is one, is `Syntax` (F30) at a byte that cannot stand there, as one right behind a closing brace
/// or quote, or one past the last byte of a text that ends within a word; or `Unsupported` (F31) of `$`, or of `[`
/// where it begins no index, at that byte.
///
/// # Errors
///
/// Only where memory is refused.
pub fn read_words(alloc: Global, names: &mut Names, text: &[u8]) -> Result<WordsRead, NoMemory>
    requires small { length text.now ≤ LIMIT }
    requires room { length names.old ≤ most_names_before }
    ensures ok { IfOk result (ReadsWords text.now names.new) }
    ensures modest { IfOk result (λ r. AreModest text.now (gathered_in names.new r)) }
    ensures numbers { IfOk result (λ r. numbers_below (length names.new) (read_numbers r) ≡ true) }
    ensures grown { Grown names.old names.new }
    ensures few { length names.new ≤ length names.old + length text.now }
{
    let mut reader = Reader::new(alloc, true, Place { line: 1, column: 1 });
    match run(&mut reader, names, text, false) {
        Ok(stop) => words_read(reader, names, stop),
        Err(NoMemory) => Err(NoMemory),
    }
}
