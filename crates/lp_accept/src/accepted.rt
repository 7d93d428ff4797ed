ghost use Rattle.std.specs.Prelude.{◌≤◌, length};
ghost use Rattle.lp_spec_insertion.specs.Faults.{FirstFault};
ghost use Rattle.lp_accept.specs.Stages.{OrStop};
ghost use Rattle.lp_accept.specs.Inputs.{inputs_of};
ghost use Rattle.lp_accept.specs.Judged.{IsAccepted};

use crate::judge::judge;
use crate::libraries::read_library;
use crate::netlist::read_modules;
use crate::source::source_of;
use crate::stop::Stop;
use lp_model::{Library, Module};
use lp_plain_upf::Intent;
use lp_spec_insertion::inputs_are_read;
use lp_spec_plain_netlist::ordered_has_no_loop;
use lp_text::{Bytes, Names};
use std::alloc::Global;

/// A design without fault.
#[derive(Drop)]
pub struct Accepted {
    /// The names of the library and of the source.
    pub names: Names,
    /// The cells.
    pub library: Library,
    /// The source module.
    pub source: Module,
    /// Its power intent.
    pub intent: Intent,
}

/// The design of the texts, or the line of their first fault.
///
/// There are at most 16 libraries.
///
/// # Errors
///
/// The first fault of the texts, and where memory is refused.
pub fn accept(alloc: Global, libs: &[Bytes], netlist: &[u8], upf: &[u8]) -> Result<Accepted, Stop>
    requires few { length libs.now ≤ 16 }
    ensures { OrStop (IsAccepted (inputs_of libs.now netlist.now upf.now)) (FirstFault (inputs_of libs.now netlist.now upf.now)) result }
{
    ordered_has_no_loop();
    inputs_are_read();
    let mut names = Names::new(alloc)?;
    let library = match read_library(alloc, &mut names, libs) {
        Ok(library) => library,
        Err(stop) => return Err(stop),
    };
    let modules = match read_modules(alloc, &mut names, netlist) {
        Ok(modules) => modules,
        Err(stop) => return Err(stop),
    };
    let source = match source_of(alloc, &names, &library, modules) {
        Ok(source) => source,
        Err(stop) => return Err(stop),
    };
    match judge(alloc, &names, library.cells.as_slice(), &source, upf) {
        Ok(intent) => Ok(Accepted {
            names,
            library,
            source,
            intent,
        }),
        Err(stop) => Err(stop),
    }
}
