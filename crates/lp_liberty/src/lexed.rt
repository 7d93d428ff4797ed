ghost use Rattle.std.specs.Prelude.{◌≡◌, ◌+◌, ◌≤◌, length, drop};
ghost use Rattle.lp_text.specs.declared.shelf.TheConstants.{LIMIT};
ghost use Rattle.lp_liberty.specs.Lexing.{beginning, is_args, is_end, is_glued, is_items, lexed_at, mark_of, quoted_at, word_at};

use crate::gap::skip;
use crate::mark::{Context, Mark, Sort};
use crate::runs::{is_word, string_end, word_end};

/// The next token of a text.
#[derive(Clone, Copy)]
pub(crate) struct Lexed {
    /// The bytes before it.
    pub start: usize,
    /// Its bytes.
    pub size: usize,
    /// The bytes before what it says.
    pub from: usize,
    /// The bytes before the end of what it says.
    pub to: usize,
    /// What it is.
    pub sort: Sort,
}

/// The mark that a byte is.
fn mark_of(byte: u8) -> Mark
    ensures { result ≡ mark_of byte }
{
    match byte {
        b'(' => Mark::ParenOpen,
        b')' => Mark::ParenClose,
        b'{' => Mark::BraceOpen,
        b'}' => Mark::BraceClose,
        b':' => Mark::Colon,
        b';' => Mark::Semicolon,
        b',' => Mark::Comma,
        b'\n' => Mark::LineEnd,
        _ => Mark::Broken,
    }
}

impl Lexed {
    /// Whether the text ends instead.
    pub(crate) fn is_end(&self) -> bool
        ensures { result ≡ is_end self.now.sort }
    {
        match self.sort {
            Sort::End => true,
            Sort::Word | Sort::Quoted | Sort::Mark(_) => false,
        }
    }
}

impl Context {
    fn is_items(self) -> bool
        ensures { result ≡ is_items self }
    {
        match self {
            Context::Items => true,
            Context::Statement | Context::Args | Context::BehindArg => false,
        }
    }

    fn is_args(self) -> bool
        ensures { result ≡ is_args self }
    {
        match self {
            Context::Args | Context::BehindArg => true,
            Context::Statement | Context::Items => false,
        }
    }

    /// Whether a name would stand right behind an argument.
    fn is_glued(self, gap: bool) -> bool
        ensures { result ≡ is_glued self gap }
    {
        match self {
            Context::BehindArg => !gap,
            Context::Statement | Context::Args | Context::Items => false,
        }
    }
}

fn word_at(context: Context, gap: bool, start: usize, rest: &[u8]) -> Lexed
    requires { start + length rest.now ≤ LIMIT }
    ensures value { result ≡ word_at context gap start rest.now }
    ensures within { result.start + result.size ≤ start + length rest.now }
    ensures order { result.from ≤ result.to }
    ensures inside { result.to ≤ start + length rest.now }
{
    let size = word_end(context.is_args(), rest);
    let sort = if context.is_glued(gap) {
        Sort::Mark(Mark::Broken)
    } else {
        Sort::Word
    };
    Lexed {
        start,
        size,
        from: start,
        to: start + size,
        sort,
    }
}

fn quoted_at(context: Context, gap: bool, start: usize, rest: &[u8]) -> Lexed
    requires { start + 1 + length rest.now ≤ LIMIT }
    ensures value { result ≡ quoted_at context gap start rest.now }
    ensures within { result.start + result.size ≤ start + 1 + length rest.now }
    ensures order { result.from ≤ result.to }
    ensures inside { result.to ≤ start + 1 + length rest.now }
{
    let sort = if context.is_glued(gap) {
        Sort::Mark(Mark::Broken)
    } else {
        Sort::Quoted
    };
    let (inside, size) = match string_end(rest) {
        Some(end) => (end, end + 2),
        None => (rest.len(), rest.len() + 1),
    };
    Lexed {
        start,
        size,
        from: start + 1,
        to: start + 1 + inside,
        sort,
    }
}

/// The token that begins right at the front of a text, of which `start` bytes are behind.
fn beginning(context: Context, gap: bool, start: usize, rest: &[u8]) -> Lexed
    requires { start + length rest.now ≤ LIMIT }
    ensures value { result ≡ beginning context gap start rest.now }
    ensures within { result.start + result.size ≤ start + length rest.now }
    ensures order { result.from ≤ result.to }
    ensures inside { result.to ≤ start + length rest.now }
{
    match rest {
        [] => Lexed {
            start,
            size: 0,
            from: start,
            to: start,
            sort: Sort::End,
        },
        [first, behind @ ..] => {
            if *first == b'"' {
                quoted_at(context, gap, start, behind)
            } else if is_word(context.is_args(), *first) {
                word_at(context, gap, start, rest)
            } else {
                Lexed {
                    start,
                    size: 1,
                    from: start,
                    to: start,
                    sort: Sort::Mark(mark_of(*first)),
                }
            }
        }
    }
}

/// The next token of a text.
pub(crate) fn lexed_at(context: Context, text: &[u8]) -> Lexed
    requires { length text.now ≤ LIMIT }
    ensures value { result ≡ lexed_at context text.now }
    ensures within { result.start + result.size ≤ length text.now }
    ensures order { result.from ≤ result.to }
    ensures inside { result.to ≤ length text.now }
{
    let skipped = skip(context.is_items(), text);
    if skipped.cut {
        return Lexed {
            start: skipped.size,
            size: 0,
            from: skipped.size,
            to: skipped.size,
            sort: Sort::Mark(Mark::Broken),
        };
    }
    beginning(context, skipped.gap, skipped.size, &text[skipped.size..])
}
