ghost use Rattle.std.specs.Prelude.{◌≡◌, ◌+◌, ◌≤◌, length, IfOk, IfErr, IsTrue, ◌-◌};
ghost use Rattle.lp_text.specs.Limits.{most_names};
ghost use Rattle.lp_text.specs.declared.shelf.TheConstants.{LIMIT};
ghost use Rattle.lp_text.specs.Texts.{Grown};
ghost use Rattle.lp_expr.specs.Answers.{Refuses};
ghost use Rattle.lp_expr.specs.Denotes.{Reads, are_named};
ghost use Rattle.lp_expr.specs.Parts.{ReadsParts, are_within};
ghost use Rattle.lp_expr.specs.declared.dialect.Dialect.TheVariants.{Liberty, Control};

use crate::dialect::{Dialect, Part};
use crate::expr::Expr;
use crate::number::{collect, steps_of};
use crate::parts::{PartsFault, parts_of};
use lp_text::{Names, NoMemory};
use std::alloc::Global;
use thiserror::Error;

/// Why a text is no expression that can be kept.
#[derive(Clone, Copy, Debug, Error)]
pub enum ExprFault {
    /// The number, from 0, of the first byte that no expression continues, or of the text's end.
    #[error("no expression continues at byte {0}")]
    Syntax(u32),
    /// An expression with 13 or more variables.
    #[error("more than 12 variables")]
    TooManyVariables,
    /// An allocation was refused.
    #[error("out of memory")]
    NoMemory,
}

impl From<NoMemory> for ExprFault {
    ghost use Rattle.std.specs.Prelude.{◌≡◌};
    ghost use Rattle.lp_expr.specs.declared.read.ExprFault.TheVariants as faults;

    ghost from_gives = { λ _ e. e ≡ faults.NoMemory };

    fn from(_error: NoMemory) -> ExprFault {
        ExprFault::NoMemory
    }
}

/// The expression of a Liberty attribute, over names of the table.
///
/// Names come in the order in which they first occur, new ones at the table's end. The text has at
/// most 64 MiB, and the table at most 4,294,967,283 names.
///
/// # Errors
///
/// `Syntax` off the grammar, `TooManyVariables` in it with 13 or more variables, and where memory is
/// refused. The table may then have grown.
pub fn read_liberty(alloc: Global, names: &mut Names, text: &str) -> Result<Expr, ExprFault>
    requires short { length text.now ≤ LIMIT }
    requires room { length names.old ≤ most_names - 12 }
    ensures ok { IfOk result (Reads Liberty text.now names.new) }
    ensures err { IfErr result (Refuses Liberty text.now) }
    ensures grown { Grown names.old names.new }
    ensures few { length names.new ≤ length names.old + 12 }
    ensures small { length names.new ≤ length names.old + length text.now }
{
    read(alloc, names, Dialect::Liberty, text)
}

/// The control expression of a UPF command, over names of the table; all else as for [`read_liberty`].
pub fn read_control(alloc: Global, names: &mut Names, text: &str) -> Result<Expr, ExprFault>
    requires short { length text.now ≤ LIMIT }
    requires room { length names.old ≤ most_names - 12 }
    ensures ok { IfOk result (Reads Control text.now names.new) }
    ensures err { IfErr result (Refuses Control text.now) }
    ensures grown { Grown names.old names.new }
    ensures few { length names.new ≤ length names.old + 12 }
    ensures small { length names.new ≤ length names.old + length text.now }
{
    read(alloc, names, Dialect::Control, text)
}

fn read(alloc: Global, names: &mut Names, dialect: Dialect, text: &str) -> Result<Expr, ExprFault>
    requires short { length text.now ≤ LIMIT }
    requires room { length names.old ≤ most_names - 12 }
    ensures ok { IfOk result (Reads dialect text.now names.new) }
    ensures err { IfErr result (Refuses dialect text.now) }
    ensures grown { Grown names.old names.new }
    ensures few { length names.new ≤ length names.old + 12 }
    ensures small { length names.new ≤ length names.old + length text.now }
{
    let bytes = text.as_bytes();
    match parts_of(alloc, dialect, bytes) {
        Ok(parts) => build(alloc, names, dialect, bytes, &parts),
        Err(PartsFault::Syntax(at)) => Err(ExprFault::Syntax(at as u32)),
        Err(PartsFault::NoMemory) => Err(ExprFault::NoMemory),
    }
}

/// The expression of these parts of a text.
fn build(
    alloc: Global,
    names: &mut Names,
    dialect: Dialect,
    text: &[u8],
    parts: &[Part],
) -> Result<Expr, ExprFault>
    requires reads { ReadsParts dialect text.now parts.now }
    requires within { IsTrue (are_within text.now parts.now) }
    requires named { IsTrue (are_named text.now parts.now) }
    requires room { length names.old ≤ most_names - 12 }
    ensures ok { IfOk result (Reads dialect text.now names.new) }
    ensures err { IfErr result (Refuses dialect text.now) }
    ensures grown { Grown names.old names.new }
    ensures few { length names.new ≤ length names.old + 12 }
    ensures small { length names.new ≤ length names.old + length parts.now }
{
    match collect(alloc, names, text, parts)? {
        None => Err(ExprFault::TooManyVariables),
        Some(ids) => {
            let steps = steps_of(alloc, names, &ids, text, parts)?;
            let expr = Expr::new(alloc, ids, steps)?;
            Ok(expr)
        }
    }
}
