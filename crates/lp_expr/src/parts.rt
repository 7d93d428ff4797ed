ghost use Rattle.std.specs.Prelude.{◌≤◌, length, IfOk, IfErr, IsTrue};
ghost use Rattle.lp_text.specs.declared.shelf.TheConstants.{LIMIT};
ghost use Rattle.lp_expr.specs.Machine.{read_in, start};
ghost use Rattle.lp_expr.specs.Parts.{ReadsParts, are_within};
ghost use Rattle.lp_expr.specs.Denotes.{are_named};
ghost use Rattle.lp_expr.specs.Reading.{IsReading, LeavesAt};

use crate::dialect::{Dialect, Part};
use crate::reader::Reader;
use lp_text::NoMemory;
use std::alloc::Global;

/// Why a text has no parts.
#[derive(Clone, Copy)]
pub(crate) enum PartsFault {
    /// No expression goes on with the byte of this number, or with the text's end there.
    Syntax(usize),
    /// An allocation was refused.
    NoMemory,
}

impl From<NoMemory> for PartsFault {
    ghost use Rattle.std.specs.Prelude.{◌≡◌};
    ghost use Rattle.lp_expr.specs.declared.parts.PartsFault.TheVariants as faults;

    ghost from_gives = { λ _ e. e ≡ faults.NoMemory };

    fn from(_error: NoMemory) -> PartsFault {
        PartsFault::NoMemory
    }
}

/// The parts of an expression in postfix order.
fn run(alloc: Global, dialect: Dialect, text: &[u8]) -> Result<Vec<Part>, PartsFault>
    requires { length text.now ≤ LIMIT }
    ensures { IsReading result (read_in dialect 0 text.now start) }
{
    let mut reader = Reader::new(alloc);
    for (at, byte) in text.iter().enumerate() {
        if !reader.step(dialect, at, *byte)? {
            return Err(PartsFault::Syntax(at));
        }
    }
    match reader.finish(dialect, text.len())? {
        Some(parts) => Ok(parts),
        None => Err(PartsFault::Syntax(text.len())),
    }
}

/// The parts of an expression, in postfix order, or the place at which the text leaves the language.
pub(crate) fn parts_of(
    alloc: Global,
    dialect: Dialect,
    text: &[u8],
) -> Result<Vec<Part>, PartsFault>
    requires { length text.now ≤ LIMIT }
    ensures ok { IfOk result (λ parts. ReadsParts dialect text.now parts.items) }
    ensures within { IfOk result (λ parts. IsTrue (are_within text.now parts.items)) }
    ensures named { IfOk result (λ parts. IsTrue (are_named text.now parts.items)) }
    ensures few { IfOk result (λ parts. length parts.items ≤ length text.now) }
    ensures err { IfErr result (LeavesAt dialect text.now) }
{
    run(alloc, dialect, text)
}
