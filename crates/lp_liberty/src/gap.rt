ghost use Rattle.std.specs.Prelude.{◌≡◌, ◌+◌, ◌<◌, ◌≤◌, length, drop};
ghost use Rattle.lp_liberty.specs.Lexing.{begins_with, gap_start, gap_step, is_blank, is_cut, separates, skip};

use crate::mark::Gap;

/// What stands before a token.
#[derive(Clone, Copy)]
pub(crate) struct Skipped {
    /// Its bytes.
    pub size: usize,
    /// Whether it separates names.
    pub gap: bool,
    /// Whether the text ends in a comment.
    pub cut: bool,
}

/// Whether a byte stands right behind the byte at an index.
pub(crate) fn next_is(byte: u8, text: &[u8], at: usize) -> bool
    requires { at < length text.now }
    ensures { result ≡ begins_with byte (drop (at + 1) text.now) }
{
    match text.get(at + 1) {
        Some(next) => *next == byte,
        None => false,
    }
}

/// Space, tab, line feed, form feed and carriage return.
pub(crate) fn is_blank(byte: u8) -> bool
    ensures { result ≡ is_blank byte }
{
    byte == b' ' || byte == b'\n' || byte == b'\t' || byte == b'\r' || byte == 12
}

fn separates(gap: Gap) -> bool
    ensures { result ≡ separates gap }
{
    match gap {
        Gap::Plain(separated) | Gap::Joined(separated) => separated,
        Gap::Opening | Gap::Comment | Gap::Closing => true,
    }
}

fn is_cut(gap: Gap) -> bool
    ensures { result ≡ is_cut gap }
{
    match gap {
        Gap::Plain(_) | Gap::Joined(_) => false,
        Gap::Opening | Gap::Comment | Gap::Closing => true,
    }
}

/// The gap behind a byte, none where a token begins with it.
fn gap_step(lines: bool, gap: Gap, text: &[u8], at: usize, byte: u8) -> Option<Gap>
    requires { at < length text.now }
    ensures { result ≡ gap_step lines gap byte (drop (at + 1) text.now) }
{
    match gap {
        Gap::Plain(separated) => {
            if byte == b'\\' && next_is(b'\n', text, at) {
                Some(Gap::Joined(separated))
            } else if byte == b'/' && next_is(b'*', text, at) {
                Some(Gap::Opening)
            } else if is_blank(byte) && !(lines && byte == b'\n') {
                Some(Gap::Plain(true))
            } else {
                None
            }
        }
        Gap::Joined(separated) => Some(Gap::Plain(separated)),
        Gap::Opening => Some(Gap::Comment),
        Gap::Comment => {
            if byte == b'*' && next_is(b'/', text, at) {
                Some(Gap::Closing)
            } else {
                Some(Gap::Comment)
            }
        }
        Gap::Closing => Some(Gap::Plain(true)),
    }
}

/// The blanks, comments and joined lines at the front of a text. Line ends are none of them where `lines` says so.
pub(crate) fn skip(lines: bool, text: &[u8]) -> Skipped
    ensures value { result ≡ skip lines gap_start 0 text.now }
    ensures within { result.size ≤ length text.now }
{
    let mut gap = Gap::Plain(false);
    for (at, byte) in text.iter().enumerate() {
        match gap_step(lines, gap, text, at, *byte) {
            Some(next) => gap = next,
            None => {
                return Skipped {
                    size: at,
                    gap: separates(gap),
                    cut: false,
                };
            }
        }
    }
    Skipped {
        size: text.len(),
        gap: separates(gap),
        cut: is_cut(gap),
    }
}
