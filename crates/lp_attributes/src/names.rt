ghost use Rattle.std.specs.Prelude.{◌≡◌, ◌<◌, [], IsTrue, length};
ghost use Rattle.lp_text.specs.Texts.{has_text, text_at};

use lp_text::{NameId, Names};

/// The text of a number; empty where the table has no such number.
pub fn text_of(names: &Names, id: NameId) -> &str
    ensures { result.now ≡ text_at names.now id.0 }
{
    if id.0 < names.count() {
        names.text(id)
    } else {
        ""
    }
}

/// A number of the table with the same text: the number itself, or that of the empty text where the table has no such
/// number.
pub fn known(names: &Names, id: NameId) -> NameId
    requires { IsTrue (has_text [] names.now) }
    ensures below { result.0 < length names.now }
    ensures same { text_at names.now result.0 ≡ text_at names.now id.0 }
{
    if id.0 < names.count() {
        return id;
    }
    match names.find("") {
        Some(empty) => empty,
        None => id,
    }
}
