ghost use Rattle.std.specs.Prelude.{◌≡◌, ◌≤◌, IfSome, length, codes, take, bytes_eq};
ghost use Rattle.std.specs.List.{prefix_len};
ghost use Rattle.lp_verilog_tokens.specs.Lexical.{is_inner};
ghost use Rattle.lp_verilog_tokens.specs.Cutting.{is_timescale, opening, within, closer, opened, gap_step, is_open, gap_behind};
ghost use Rattle.lp_verilog_tokens.specs.declared.gap.GapMode.TheVariants.{Between};

use crate::bytes::{inner_len, is_blank};

/// What stands between tokens beside blanks.
#[derive(Clone, Copy)]
pub enum Inside {
    /// A comment or a directive to the end of its line.
    Line,
    /// A comment `/* */`.
    Comment,
    /// An attribute `(* *)`.
    Attribute,
}

/// Where the next byte of a gap stands.
#[derive(Clone, Copy)]
pub enum GapMode {
    /// Among blanks, and whether only blanks stand before it on its line.
    Between(bool),
    /// Behind the first byte of these.
    Opening(Inside),
    /// Inside these.
    Within(Inside),
    /// Inside these, behind a star.
    Star(Inside),
}

fn is_timescale(rest: &[u8]) -> bool
    ensures { result ≡ is_timescale rest.now }
{
    let word = &rest[..inner_len(rest)];
    word == b"timescale".as_slice()
}

/// What begins with a byte, before the rest.
fn opening(fresh: bool, byte: u8, rest: &[u8]) -> Option<Inside>
    ensures { result ≡ opening fresh byte rest.now }
{
    match rest {
        [] => None,
        [next, ..] => {
            if byte == b'/' && *next == b'/' {
                Some(Inside::Line)
            } else if byte == b'/' && *next == b'*' {
                Some(Inside::Comment)
            } else if byte == b'(' && *next == b'*' {
                Some(Inside::Attribute)
            } else if byte == b'`' && (fresh && is_timescale(rest)) {
                Some(Inside::Line)
            } else {
                None
            }
        }
    }
}

fn within(inside: Inside, byte: u8) -> GapMode
    ensures { result ≡ within inside byte }
{
    match inside {
        Inside::Line => {
            if byte == b'\n' {
                GapMode::Between(true)
            } else {
                GapMode::Within(inside)
            }
        }
        Inside::Comment | Inside::Attribute => {
            if byte == b'*' {
                GapMode::Star(inside)
            } else {
                GapMode::Within(inside)
            }
        }
    }
}

fn closer(inside: Inside) -> u8
    ensures { result ≡ closer inside }
{
    match inside {
        Inside::Line => b'\n',
        Inside::Comment => b'/',
        Inside::Attribute => b')',
    }
}

fn opened(inside: Option<Inside>) -> Option<GapMode>
    ensures { result ≡ opened inside }
{
    match inside {
        None => None,
        Some(inside) => Some(GapMode::Opening(inside)),
    }
}

/// The mode behind a byte, none where a token begins.
fn gap_step(mode: GapMode, byte: u8, rest: &[u8]) -> Option<GapMode>
    ensures { result ≡ gap_step mode byte rest.now }
{
    match mode {
        GapMode::Between(fresh) => {
            if is_blank(byte) {
                Some(GapMode::Between(fresh || byte == b'\n'))
            } else {
                opened(opening(fresh, byte, rest))
            }
        }
        GapMode::Opening(inside) => Some(GapMode::Within(inside)),
        GapMode::Within(inside) => Some(within(inside, byte)),
        GapMode::Star(inside) => {
            if byte == closer(inside) {
                Some(GapMode::Between(false))
            } else {
                Some(within(inside, byte))
            }
        }
    }
}

fn is_open(mode: GapMode) -> bool
    ensures { result ≡ is_open mode }
{
    match mode {
        GapMode::Between(_) | GapMode::Within(Inside::Line) => false,
        GapMode::Opening(_) | GapMode::Within(_) | GapMode::Star(_) => true,
    }
}

/// The number of bytes before the first token, or before the end. None where the text ends in a comment or an
/// attribute.
pub(crate) fn gap_len(fresh: bool, text: &[u8]) -> Option<usize>
    ensures gap { result ≡ gap_behind (Between fresh) 0 text.now }
    ensures within { IfSome result (λ n. n ≤ length text.now) }
{
    let mut mode = GapMode::Between(fresh);
    for (at, byte) in text.iter().enumerate() {
        match gap_step(mode, *byte, &text[at + 1..]) {
            None => return Some(at),
            Some(next) => mode = next,
        }
    }
    if is_open(mode) {
        None
    } else {
        Some(text.len())
    }
}
