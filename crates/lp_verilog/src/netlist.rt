ghost use Rattle.std.specs.Prelude.{◌≡◌, ◌+◌, ◌<◌, ◌≤◌, length, IfOk, IfErr, OnOk, IsTrue};
ghost use Rattle.std.specs.List.{list_all};
ghost use Rattle.lp_text.specs.Texts.{Grown};
ghost use Rattle.lp_text.specs.Places.{place_in};
ghost use Rattle.lp_model.specs.NetlistView.{netlist_view};
ghost use Rattle.lp_verilog.specs.Denotes.{Denotes};
ghost use Rattle.lp_text.specs.Limits.{most_names, most_names_before};
ghost use Rattle.lp_verilog.specs.Reads.{Reads};
ghost use Rattle.lp_verilog_tokens.specs.Lexical.{is_visible};
ghost use Rattle.lp_verilog_draft.specs.declared.stop.Off.TheVariants as offs;
ghost use Rattle.lp_verilog.specs.Answers.{SameUnless};
ghost use Rattle.lp_verilog.specs.Refusing.{IsFault, HasWord, Refuses, HasNone, fault_of};

use crate::naming::intern;
use crate::reading::{Halt, read_modules};
use lp_model::{Netlist, NetlistFault, NetlistLimit, Refusal};
use lp_text::{LIMIT, Names, Place};
use lp_verilog_draft::Off;
use lp_verilog_tokens::text_of;
use std::alloc::Global;

/// The place of a byte, or of the end.
fn place(text: &[u8], at: usize) -> Place
    requires { length text.now ≤ LIMIT }
    ensures { result ≡ place_in text.now at }
{
    Place::of(text, at.min(text.len()))
}

/// The refusal for a token that cannot stand where it does.
fn refusal(names: &mut Names, text: &[u8], off: Off, at: usize, word: &[u8]) -> Refusal
    requires short { length text.now ≤ LIMIT }
    requires room { length names.old < most_names }
    requires seen { off ≡ offs.Unsupported → IsTrue (list_all is_visible word.now) }
    ensures fault { IsFault result (fault_of names.new text.now at word.now off) }
    ensures known { off ≡ offs.Unsupported → HasWord result word.now names.new }
    ensures grown { Grown names.old names.new }
    ensures few { length names.new ≤ length names.old + 1 }
    ensures same { SameUnless off names.old names.new }
{
    match off {
        Off::Syntax => Refusal::from(NetlistFault::Syntax {
            place: place(text, at),
        }),
        Off::Unsupported => match intern(names, text_of(word)) {
            Ok(word) => Refusal::from(NetlistFault::Unsupported {
                place: place(text, at),
                word,
            }),
            Err(error) => Refusal::from(error),
        },
        Off::Duplicate(name) => Refusal::from(NetlistFault::DuplicateName {
            place: place(text, at),
            name,
        }),
        Off::Lacking(port) => Refusal::from(NetlistFault::Syntax {
            place: place(text, port),
        }),
    }
}

/// The netlist of a text (IEEE 1364-2005, the subset that is read), over names of the table.
///
/// New names come at the table's end, which has at most 3,000,000,000 names.
///
/// # Errors
///
/// F22 above 67,108,864 bytes; F10, F11 or F12 at the first token that cannot stand where it does; and where memory is
/// refused. The table may then have grown.
pub fn read_netlist(alloc: Global, names: &mut Names, bytes: &[u8]) -> Result<Netlist, Refusal>
    requires { length names.old ≤ most_names_before }
    ensures reads { IfOk result (λ n. Reads bytes.now (netlist_view names.new n)) }
    ensures numbers { IfOk result (λ n. Denotes names.new bytes.now n.modules) }
    ensures short { OnOk result (length bytes.now ≤ LIMIT) }
    ensures err { IfErr result (Refuses names.new bytes.now) }
    ensures none { IfErr result (HasNone bytes.now) }
    ensures grown { Grown names.old names.new }
    ensures few { length names.new ≤ length names.old + length bytes.now }
{
    if bytes.len() > LIMIT {
        return Err(Refusal::from(NetlistFault::Limit {
            limit: NetlistLimit::Bytes,
        }));
    }
    // A table says that its texts are distinct where it is counted.
    match read_modules(alloc, names, bytes) {
        Ok(modules) => {
            let _ = names.count();
            Ok(Netlist { modules })
        }
        Err(Halt::NoMemory) => Err(Refusal::NoMemory),
        Err(Halt::Left(off, at, word)) => {
            let _ = names.count();
            Err(refusal(names, bytes, off, at, word))
        }
    }
}
