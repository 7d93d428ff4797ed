ghost use Rattle.std.specs.Prelude.{◌≡◌, IsTrue};
ghost use Rattle.std.specs.List.{list_all};
ghost use Rattle.lp_verilog_tokens.specs.Lexical.{is_visible};

use std::str;

/// Visible bytes as text.
pub fn text_of(bytes: &[u8]) -> &str
    requires { IsTrue (list_all is_visible bytes.now) }
    ensures { result.now ≡ bytes.now }
{
    str::from_utf8(bytes).unwrap()
}
