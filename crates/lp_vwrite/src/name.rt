ghost use Rattle.std.specs.Prelude.{◌≡◌, ◌++◌, OnOk};
ghost use Rattle.std.specs.List.{list_all};
ghost use Rattle.lp_text.specs.Texts.{text_at, same_text};
ghost use Rattle.lp_verilog_tokens.specs.Lexical.{is_inner};
ghost use Rattle.lp_vwrite.specs.Layout.{is_plain, name_text};

use lp_text::{NameId, Names, NoMemory};
use lp_verilog_tokens::{is_inner, is_lead, is_reserved};

/// The text of a number; none has the empty text.
pub(crate) fn text_of(names: &Names, name: NameId) -> &str
    ensures { result.now ≡ text_at names.now name.0 }
{
    if name.0 < names.count() {
        names.text(name)
    } else {
        ""
    }
}

/// Whether two numbers have the same text.
pub(crate) fn is_same(names: &Names, a: NameId, b: NameId) -> bool
    ensures { result ≡ same_text (text_at names.now a.0) (text_at names.now b.0) }
{
    if a == b {
        return true;
    }
    text_of(names, a) == text_of(names, b)
}

fn are_inner(bytes: &[u8]) -> bool
    ensures { result ≡ list_all is_inner bytes.now }
{
    for byte in bytes {
        if !is_inner(*byte) {
            return false;
        }
    }
    true
}

/// Whether a text is an identifier, and no reserved word (IEEE 1364-2005, identifiers and annex B).
fn is_plain(text: &[u8]) -> bool
    ensures { result ≡ is_plain text.now }
{
    match text {
        [] => false,
        [first, rest @ ..] => is_lead(*first) && are_inner(rest) && !is_reserved(text),
    }
}

/// Writes a name: an escaped one where it is not plain.
pub(crate) fn put_name(out: &mut Vec<u8>, names: &Names, name: NameId) -> Result<(), NoMemory>
    ensures { OnOk result (out.new.items ≡ out.old.items ++ name_text (text_at names.now name.0)) }
{
    let text = text_of(names, name).as_bytes();
    if is_plain(text) {
        out.extend_from_slice(text)?;
    } else {
        out.extend_from_slice(b"\\")?;
        out.extend_from_slice(text)?;
        out.extend_from_slice(b" ")?;
    }
    Ok(())
}
