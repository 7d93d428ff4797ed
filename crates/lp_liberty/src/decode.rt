ghost use Rattle.std.specs.Prelude.{◌≡◌, ◌+◌, ◌<◌, length, drop, OnOk};
ghost use Rattle.std.specs.String.{string_bytes};
ghost use Rattle.lp_liberty.specs.Lexing.{begins_with, drops, name_of};

use crate::gap::next_is;
use lp_text::NoMemory;

/// Whether a backslash stands for nothing: before a line end or a quote.
fn drops(text: &[u8], at: usize, byte: u8) -> bool
    requires { at < length text.now }
    ensures { result ≡ drops byte (drop (at + 1) text.now) }
{
    byte == b'\\' && (next_is(b'\n', text, at) || next_is(b'"', text, at))
}

/// Makes a text the name for these bytes of a word or of a string.
pub(crate) fn decode(name: &mut String, text: &[u8]) -> Result<(), NoMemory>
    ensures { OnOk result (string_bytes name.new ≡ name_of text.now) }
{
    name.clear();
    let mut joining = false;
    for (at, byte) in text.iter().enumerate() {
        if drops(text, at, *byte) {
            joining = true;
        } else if joining && *byte == b'\n' {
            joining = false;
        } else {
            name.push(*byte as char)?;
            joining = false;
        }
    }
    Ok(())
}
