ghost use Rattle.std.specs.Prelude.{◌≡◌, ◌≤◌, ◌+◌, [], length, IfOk, ◌*◌};
ghost use Rattle.lp_text.specs.Limits.{most_names_before};
ghost use Rattle.lp_text.specs.declared.shelf.TheConstants.{LIMIT};
ghost use Rattle.lp_text.specs.Texts.{Grown};
ghost use Rattle.lp_spec_insertion.specs.Faults.{IsOff, FirstOff};
ghost use Rattle.lp_accept.specs.Stages.{OrStop};
ghost use Rattle.lp_accept.specs.Read.{IsGroups, AreGroups, IsCells, IsNoLibrary};

use crate::stop::{Stop, stop_at};
use lp_cells::library;
use lp_liberty::read_groups;
use lp_model::{Groups, Library, Refusal};
use lp_text::{Bytes, Names};
use sqlite_items::Items;
use std::alloc::Global;

/// The groups of the text of a file.
fn read_one(alloc: Global, names: &mut Names, file: u32, bytes: &[u8]) -> Result<Groups, Stop>
    requires { length names.old ≤ most_names_before }
    ensures gives { OrStop (IsGroups names.new bytes.now) (IsOff file bytes.now) result }
    ensures short { IfOk result (λ g. length names.new ≤ length names.old + LIMIT) }
    ensures grown { Grown names.old names.new }
{
    match read_groups(alloc, names, file, bytes) {
        Ok(groups) => Ok(groups),
        Err(Refusal::Fault(fault)) => Err(stop_at(alloc, names, &fault)),
        Err(Refusal::NoMemory) => Err(Stop::NoMemory),
    }
}

/// The groups of the texts, the first of which is file 10.
fn read_all(alloc: Global, names: &mut Names, libs: &[Bytes]) -> Result<Items<Groups>, Stop>
    requires few { length libs.now ≤ 16 }
    requires none { names.old ≡ [] }
    ensures gives { OrStop (AreGroups names.new libs.now) (FirstOff 10 libs.now) result }
    ensures short { IfOk result (λ g. length names.new ≤ 16 * LIMIT) }
{
    let mut files = Items::new(alloc);
    for library in libs {
        let file = 10 + files.len() as u32;
        match read_one(alloc, names, file, library.all()) {
            Ok(groups) => files.push(groups)?,
            Err(stop) => return Err(stop),
        }
    }
    Ok(files)
}

/// The cells of library texts, of which there are at most 16.
pub(crate) fn read_library(
    alloc: Global,
    names: &mut Names,
    libs: &[Bytes],
) -> Result<Library, Stop>
    requires few { length libs.now ≤ 16 }
    requires none { names.old ≡ [] }
    ensures gives { OrStop (IsCells names.new libs.now) (IsNoLibrary libs.now) result }
    ensures short { IfOk result (λ g. length names.new ≤ 16 * LIMIT + 1) }
{
    let files = match read_all(alloc, names, libs) {
        Ok(files) => files,
        Err(stop) => return Err(stop),
    };
    match library(alloc, names, files.as_slice()) {
        Ok(library) => Ok(library),
        Err(Refusal::Fault(fault)) => Err(stop_at(alloc, names, &fault)),
        Err(Refusal::NoMemory) => Err(Stop::NoMemory),
    }
}
