ghost use Rattle.std.specs.Prelude.{◌≡◌, ◌≤◌, length, IfOk, false};
ghost use Rattle.lp_spec_insertion.specs.Promise.{IsWritten, HeadlineHolds};
ghost use Rattle.lp_top.specs.Words.{files_of, clashes};
ghost use Rattle.lp_top.specs.Ran.{file_number as number_of, ByFiles, ByCause, ByMissed};
ghost use Rattle.lp_top.specs.Inserting.{inputs_read, end_of, StoresBoth, MissesWrite, IsNoUsage};
ghost use Rattle.lp_top.specs.Design.{RefusedBy};

use crate::design::{Refusal, Written, insert_design};
use crate::outcome::Outcome;
use crate::parsing::inputs;
use crate::reading::{ReadStop, read_files};
use crate::words::Command;
use lp_text::{Bytes, NoMemory, Shelf, ShelfFault};
use std::alloc::Global;

/// The number of the input file at a place in the order of reading.
fn file_number(place: usize) -> u32
    requires { place ≤ 1000 }
    ensures { result ≡ number_of place }
{
    let place = place as u32;
    if place <= 1 { place + 1 } else { place + 8 }
}

fn end_by(stop: ReadStop) -> Outcome
    requires { stop.place ≤ 1000 }
    ensures { result ≡ end_of stop }
{
    match stop.cause {
        ShelfFault::Failed => Outcome::ReadFault(file_number(stop.place)),
        ShelfFault::TooLong => Outcome::TooLong(file_number(stop.place)),
        ShelfFault::NoMemory => Outcome::NoMemory,
    }
}

/// Inserts on texts in the order in which they are read.
fn insert_texts(alloc: Global, texts: &[Bytes]) -> Result<Written, Refusal>
    requires all { 2 ≤ length texts.now }
    requires few { length texts.now ≤ 18 }
    ensures written { IfOk result (λ w. IsWritten (inputs_read texts.now) 0 w.netlist w.report) }
    ensures headline { IfOk result (λ w. HeadlineHolds (inputs_read texts.now) 0 w.netlist) }
    ensures refused { RefusedBy (inputs_read texts.now) result }
{
    match texts {
        [netlist, upf, libraries @ ..] => {
            insert_design(alloc, libraries, netlist.all(), upf.all(), 0)
        }
        _ => unreachable!(),
    }
}

/// Writes the netlist and then the report.
fn store<S: Shelf>(shelf: &mut S, command: &Command<'_>, written: &Written) -> Outcome
    ensures files { StoresBoth (files_of command.now) written.now.netlist written.now.report (S.held shelf.old) (S.held shelf.new) result }
    ensures counts { ByCause (S.faults shelf.old) (S.faults shelf.new) result }
    ensures keeps_said { S.said shelf.new ≡ S.said shelf.old }
    ensures misses { MissesWrite (files_of command.now) (S.missed shelf.old) (S.missed shelf.new) (S.calls shelf.old) (S.calls shelf.new) result }
{
    match shelf.write(command.out, written.netlist.all()) {
        Ok(()) => {}
        Err(ShelfFault::NoMemory) => return Outcome::NoMemory,
        Err(_) => return Outcome::WriteFault(3),
    }
    match shelf.write(command.report, written.report.all()) {
        Ok(()) => Outcome::Done,
        Err(ShelfFault::NoMemory) => Outcome::NoMemory,
        Err(_) => Outcome::WriteFault(4),
    }
}

/// Runs a command whose files do not clash, but for the line that is said.
pub(crate) fn attempt<S: Shelf>(alloc: Global, shelf: &mut S, command: &Command<'_>) -> Outcome
    requires { clashes (files_of command.now) ≡ false }
    ensures files { ByFiles (files_of command.now) (S.held shelf.old) (S.held shelf.new) result }
    ensures counts { ByCause (S.faults shelf.old) (S.faults shelf.new) result }
    ensures keeps_said { S.said shelf.new ≡ S.said shelf.old }
    ensures misses { ByMissed 0 (files_of command.now) (S.missed shelf.old) (S.missed shelf.new) (S.calls shelf.old) (S.calls shelf.new) result }
    ensures no_usage { IsNoUsage result }
{
    let names = match inputs(alloc, command) {
        Ok(names) => names,
        Err(NoMemory) => return Outcome::NoMemory,
    };
    let texts = match read_files(alloc, shelf, &names) {
        Ok(texts) => texts,
        Err(stop) => return end_by(stop),
    };
    match insert_texts(alloc, texts.as_slice()) {
        Ok(written) => store(shelf, command, &written),
        Err(Refusal::Fault(fault)) => Outcome::Refused(fault),
        Err(Refusal::NoMemory) => Outcome::NoMemory,
    }
}
