ghost use Rattle.std.specs.Prelude.{◌≡◌, IfOk, map};
ghost use Rattle.std.specs.Option.{option_map};

use lp_text::{NoMemory, Word};
use std::alloc::Global;

/// The files of an insertion, by their names.
#[derive(Clone, Copy)]
pub(crate) struct Command<'a> {
    /// The source netlist.
    pub(crate) netlist: &'a str,
    /// The power intent.
    pub(crate) upf: &'a str,
    /// The netlist that is written.
    pub(crate) out: &'a str,
    /// The report that is written.
    pub(crate) report: &'a str,
    /// The libraries, one or more.
    pub(crate) libraries: &'a [Word],
}
