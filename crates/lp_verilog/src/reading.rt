ghost use Rattle.std.specs.Prelude.{◌≡◌, ◌+◌, ◌<◌, ◌≤◌, ℕ, true, length, take, drop, IfOk, IsTrue};
ghost use Rattle.std.specs.List.{list_all};
ghost use Rattle.lp_text.specs.declared.shelf.TheConstants.{LIMIT};
ghost use Rattle.lp_text.specs.Texts.{Grown};
ghost use Rattle.lp_text.specs.Limits.{most_names, most_names_before};
ghost use Rattle.lp_verilog.specs.Reading.{read_rest, ending};
ghost use Rattle.lp_verilog_grammar.specs.Machine.{start, step};
ghost use Rattle.lp_verilog.specs.Answers.{Takes, Turns, Finishes, IsReading, Unread, EndsUnread};
ghost use Rattle.lp_verilog.specs.Reading.{left_out};
ghost use Rattle.lp_verilog_tokens.specs.Lexical.{is_visible};
ghost use Rattle.lp_verilog_tokens.specs.View.{piece_view, lexeme_view};

use crate::naming::token_of;
use lp_model::Module;
use lp_text::{Names, NoMemory};
use lp_verilog_draft::{Off, Stop};
use lp_verilog_grammar::Reader;
use lp_verilog_tokens::{Piece, Token, piece_of};
use sqlite_items::Items;
use std::alloc::Global;

/// Why a text is not read.
#[derive(Clone, Copy)]
pub(crate) enum Halt<'a> {
    /// A token cannot stand where it does: why, the number of its first byte, and its bytes.
    Left(Off, usize, &'a [u8]),
    /// An allocation was refused.
    NoMemory,
}

impl<'a> From<NoMemory> for Halt<'a> {
    ghost use Rattle.std.specs.Prelude.{◌≡◌};
    ghost use Rattle.lp_verilog.specs.declared.reading.Halt.TheVariants as halts;

    ghost from_gives = { λ _ h. h ≡ halts.NoMemory };

    fn from(_error: NoMemory) -> Halt<'a> {
        Halt::NoMemory
    }
}

/// What stands behind some bytes.
fn skip(text: &[u8], size: usize) -> &[u8]
    ensures { result.now ≡ drop size text.now }
{
    if size < text.len() {
        &text[size..]
    } else {
        &[]
    }
}

/// Some bytes at the front.
fn front(text: &[u8], size: usize) -> &[u8]
    ensures { result.now ≡ take size text.now }
{
    if size < text.len() {
        &text[..size]
    } else {
        text
    }
}

/// Takes a token, whose first byte has this number, and whose bytes are these.
fn take<'a>(
    alloc: Global,
    reader: &mut Reader,
    token: Token,
    at: usize,
    bytes: &'a [u8],
) -> Result<(), Halt<'a>>
    ensures { Takes result reader.new at bytes.now (step token at reader.old) }
{
    match reader.step(alloc, token, at) {
        Ok(()) => Ok(()),
        Err(Stop::Off(off)) => Err(Halt::Left(off, at, bytes)),
        Err(Stop::NoMemory) => Err(Halt::NoMemory),
    }
}

/// Takes the first token of what is left of a text of some size, and gives what is left behind it.
fn turn<'a>(
    alloc: Global,
    names: &mut Names,
    reader: &mut Reader,
    size: usize,
    rest: &'a [u8],
    piece: Piece<'a>,
) -> Result<&'a [u8], Halt<'a>>
    requires room { length names.old < most_names }
    requires within { length rest.now ≤ size }
    requires gap { piece.gap ≤ length rest.now }
    requires seen { IsTrue (left_out (lexeme_view piece.lexeme)) → IsTrue (list_all is_visible (take piece.size (drop piece.gap rest.now))) }
    ensures reads { Turns (λ r. r.now) result names.new reader.new size rest.now names.old reader.old (piece_view piece.entry) }
    ensures left { IfOk result (λ r. length r.now ≤ length rest.now) }
    ensures unread { Unread result names.old names.new }
    ensures grown { Grown names.old names.new }
    ensures few { length names.new ≤ length names.old + 1 }
{
    let at = size - rest.len() + piece.gap;
    let token = token_of(names, piece.lexeme)?;
    let here = skip(rest, piece.gap);
    match take(alloc, reader, token, at, front(here, piece.size)) {
        Ok(()) => Ok(skip(here, piece.size.max(1))),
        Err(halt) => Err(halt),
    }
}

/// The modules, where the text may end.
fn finish<'a>(reader: Reader, size: usize) -> Result<Items<Module>, Halt<'a>>
    ensures modules { Finishes result (ending size reader) }
    ensures read { (count most : ℕ) → EndsUnread result count most }
{
    if reader.accepts() {
        Ok(reader.modules)
    } else {
        Err(Halt::Left(Off::Syntax, size, &[]))
    }
}

/// The modules of a text.
pub(crate) fn read_modules<'a>(
    alloc: Global,
    names: &mut Names,
    bytes: &'a [u8],
) -> Result<Items<Module>, Halt<'a>>
    requires short { length bytes.now ≤ LIMIT }
    requires room { length names.old ≤ most_names_before }
    ensures reads { IsReading result names.new (read_rest bytes.now (length bytes.now) true bytes.now names.old start) }
    ensures grown { Grown names.old names.new }
    ensures few { length names.new ≤ length names.old + length bytes.now }
    ensures unread { EndsUnread result (length names.new) (length names.old + length bytes.now) }
{
    let mut reader = Reader::new(alloc)?;
    let mut rest = bytes;
    let mut fresh = true;
    for byte in bytes {
        match piece_of(fresh, rest) {
            None => return finish(reader, bytes.len()),
            Some(piece) => match turn(alloc, names, &mut reader, bytes.len(), rest, piece) {
                Ok(behind) => {
                    rest = behind;
                    fresh = false;
                }
                Err(halt) => return Err(halt),
            },
        }
    }
    finish(reader, bytes.len())
}
