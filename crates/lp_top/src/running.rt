ghost use Rattle.std.specs.Prelude.{◌≡◌, ◌++◌, codes, decimal, IfOk, OnOk};
ghost use Rattle.lp_text.specs.Shelf.{Rises};
ghost use Rattle.lp_top.specs.Outcomes.{line_of};
ghost use Rattle.lp_top.specs.Ran.{BySaid, IsKept, OnlySay, SaysCounts, SaysCalls, SaysPart, wants_memory, ByWords, ByFiles, ByCounts, ByMissed, KeepsOnUsage, KeepsFiles, OfCommand, Completes, Refuses, HoldsHeadline};

use crate::inserting::attempt;
use crate::outcome::{Outcome, UsageFault};
use crate::parsing::{command, has_clash};
use lp_spec_insertion::{no_fault, one_fault};
use lp_text::{NoMemory, Shelf, ShelfFault, Word};
use std::alloc::Global;

/// The line of an outcome, with its line feed.
fn line(alloc: Global, outcome: &Outcome) -> Result<Vec<u8>, NoMemory>
    ensures { IfOk result (λ v. v.items ≡ line_of outcome.now) }
{
    let mut text = Vec::new(alloc);
    match outcome {
        Outcome::Done => {}
        Outcome::Refused(fault) => {
            text.extend_from_slice(fault.line())?;
            text.push(b'\n')?;
        }
        Outcome::TooLong(k) => numbered(&mut text, "lpinsert: file ", *k, " too long\n")?,
        Outcome::Usage(UsageFault::Form) => text.extend_from_slice(b"lpinsert: usage form\n")?,
        Outcome::Usage(UsageFault::Files) => text.extend_from_slice(b"lpinsert: usage files\n")?,
        Outcome::ReadFault(k) => numbered(&mut text, "lpinsert: cannot read file ", *k, "\n")?,
        Outcome::WriteFault(k) => numbered(&mut text, "lpinsert: cannot write file ", *k, "\n")?,
        Outcome::NoMemory => text.extend_from_slice(b"lpinsert: no memory\n")?,
    }
    Ok(text)
}

/// Appends a text with a number in it.
fn numbered(text: &mut Vec<u8>, before: &str, k: u32, after: &str) -> Result<(), NoMemory>
    ensures { OnOk result (text.new.items ≡ text.old.items ++ (before.now ++ (decimal k ++ after.now))) }
{
    let number = k.to_string(*text.allocator())?;
    text.extend_from_slice(before.as_bytes())?;
    text.extend_from_slice(number.as_bytes())?;
    text.extend_from_slice(after.as_bytes())?;
    Ok(())
}

/// Says that memory is wanted.
fn give_up<S: Shelf>(shelf: &mut S) -> Outcome
    ensures wants { result ≡ wants_memory }
    ensures keeps_held { S.held shelf.new ≡ S.held shelf.old }
    ensures keeps_missed { S.missed shelf.new ≡ S.missed shelf.old }
    ensures said { SaysPart (S.said shelf.old) (S.said shelf.new) }
    ensures counts { OnlySay (S.faults shelf.old) (S.faults shelf.new) }
{
    let _ = shelf.say(b"lpinsert: no memory\n");
    Outcome::NoMemory
}

/// Says the line of an outcome. Where memory for it is refused, that is the outcome.
fn tell<S: Shelf>(alloc: Global, shelf: &mut S, outcome: Outcome) -> Outcome
    ensures kept { IsKept outcome result }
    ensures keeps_held { S.held shelf.new ≡ S.held shelf.old }
    ensures keeps_missed { S.missed shelf.new ≡ S.missed shelf.old }
    ensures said { BySaid (S.said shelf.old) (S.said shelf.new) (S.faults shelf.old) (S.faults shelf.new) result }
    ensures counts { SaysCounts outcome (S.faults shelf.old) (S.faults shelf.new) }
    ensures counted { SaysCalls result (S.calls shelf.old) (S.calls shelf.new) }
{
    match outcome {
        Outcome::Done => return Outcome::Done,
        Outcome::NoMemory => return give_up(shelf),
        _ => {}
    }
    let text = match line(alloc, &outcome) {
        Ok(text) => text,
        Err(NoMemory) => return give_up(shelf),
    };
    match shelf.say(&text) {
        Err(ShelfFault::NoMemory) => give_up(shelf),
        _ => outcome,
    }
}

/// Runs a command: `insert --netlist N --upf U --out O --report R LIB..`.
///
/// The words are without the program's name. Every outcome but `Done` says its line on the shelf.
pub fn run<S: Shelf>(alloc: Global, words: &[Word], shelf: &mut S) -> Outcome
    // The words alone decide whether the outcome is a usage.
    ensures words { ByWords words.now result }
    ensures usage { KeepsOnUsage (S.held shelf.old) (S.held shelf.new) result }
    ensures unread { KeepsFiles words.now (S.held shelf.old) (S.held shelf.new) }

    // What was written, and each outcome's cause in the files.
    ensures files { OfCommand words.now (λ c. ByFiles c (S.held shelf.old) (S.held shelf.new) result) }
    ensures counts { ByCounts (S.faults shelf.old) (S.faults shelf.new) result }
    ensures misses { OfCommand words.now (λ c. ByMissed 1 c (S.missed shelf.old) (S.missed shelf.new) (S.calls shelf.old) (S.calls shelf.new) result) }

    // What was said.
    ensures said { BySaid (S.said shelf.old) (S.said shelf.new) (S.faults shelf.old) (S.faults shelf.new) result }

    // Where no file call failed, inputs with a first fault are refused by it, memory aside.
    ensures exact { OfCommand words.now (λ c. Refuses c (S.held shelf.old) (S.faults shelf.old) (S.faults shelf.new) result) }
    // Without a fault of the files or of the inputs the run is done, or wants memory.
    ensures complete { OfCommand words.now (λ c. Completes c (S.held shelf.old) (S.faults shelf.old) (S.faults shelf.new) result) }

    // The theorem, on the bytes that are held under the name of the netlist.
    ensures headline { OfCommand words.now (λ c. HoldsHeadline c (S.held shelf.old) (S.held shelf.new) result) }
{
    one_fault();
    no_fault();
    let command = match command(words) {
        Some(command) => command,
        None => return tell(alloc, shelf, Outcome::Usage(UsageFault::Form)),
    };
    if has_clash(&command) {
        return tell(alloc, shelf, Outcome::Usage(UsageFault::Files));
    }
    let outcome = attempt(alloc, shelf, &command);
    tell(alloc, shelf, outcome)
}
