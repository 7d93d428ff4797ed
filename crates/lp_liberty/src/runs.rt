ghost use Rattle.std.specs.Prelude.{◌≡◌, false, ◌+◌, ◌<◌, ◌≤◌, IfSome, length, drop};
ghost use Rattle.lp_liberty.specs.Lexing.{goes_on, is_word, string_end, word_end};

use crate::gap::next_is;

/// A byte of a word; a colon is one among arguments.
pub(crate) fn is_word(in_args: bool, byte: u8) -> bool
    ensures { result ≡ is_word in_args byte }
{
    match byte {
        b' ' | b'\n' | b'\t' | b'\r' | 12 => false,
        b'(' | b')' | b'{' | b'}' | b';' | b',' | b'"' => false,
        b':' => in_args,
        _ => byte < 128,
    }
}

/// Whether a byte belongs to the word before it: a byte of a word that opens no comment, or a joined line end.
fn goes_on(in_args: bool, joining: bool, text: &[u8], at: usize, byte: u8) -> bool
    requires { at < length text.now }
    ensures { result ≡ goes_on in_args joining byte (drop (at + 1) text.now) }
{
    if is_word(in_args, byte) {
        return !(byte == b'/' && next_is(b'*', text, at));
    }
    joining && byte == b'\n'
}

/// The bytes of the word at the front of a text.
pub(crate) fn word_end(in_args: bool, text: &[u8]) -> usize
    ensures value { result ≡ word_end in_args false 0 text.now }
    ensures within { result ≤ length text.now }
{
    let mut joining = false;
    for (at, byte) in text.iter().enumerate() {
        if !goes_on(in_args, joining, text, at, *byte) {
            return at;
        }
        joining = *byte == b'\\';
    }
    text.len()
}

/// The bytes before the quote that ends a string, none where the text ends first.
pub(crate) fn string_end(text: &[u8]) -> Option<usize>
    ensures value { result ≡ string_end false 0 text.now }
    ensures within { IfSome result (λ end. end < length text.now) }
{
    let mut escaped = false;
    for (at, byte) in text.iter().enumerate() {
        if *byte == b'"' && !escaped {
            return Some(at);
        }
        escaped = *byte == b'\\';
    }
    None
}
