ghost use Rattle.std.specs.Prelude.{◌≡◌, ◌+◌, ◌≤◌, ◌<◌, length, take, drop, [], ◌∷◌, IsTrue, IfSome};
ghost use Rattle.lp_text.specs.declared.shelf.TheConstants.{LIMIT};
ghost use Rattle.std.specs.Option.{option_map};
ghost use Rattle.std.specs.List.{list_all, prefix_len};
ghost use Rattle.lp_verilog_tokens.specs.Lexical.{is_inner, is_number_byte, is_visible, is_constant_byte};
ghost use Rattle.lp_verilog_tokens.specs.Cutting.{word_lexeme, word_front, quoted_front, number_front, number_at, escaped_front, escaped_at, directive_front, mark_of, front_of, placed, piece_behind, piece_of};
ghost use Rattle.lp_verilog_tokens.specs.View.{lexeme_view, front_view, piece_view};

use crate::ascii::text_of;
use crate::bytes::{constant_len, inner_len, is_blank, is_lead, number_len, visible_len};
use crate::constant::{constant_of, number_of};
use crate::gap::gap_len;
use crate::reserved::{is_reserved, reserved_token};
use crate::token::{Front, Lexeme, Mark, Piece, Token};

#[tactic(auto, using(crate::proofs::Visible::inner_visible))]
fn word_lexeme(word: &[u8]) -> Lexeme<'_>
    requires { IsTrue (list_all is_inner word.now) }
    ensures { lexeme_view result ≡ word_lexeme word.now }
{
    if is_reserved(word) {
        Lexeme::Plain(reserved_token(word))
    } else {
        Lexeme::Named(text_of(word))
    }
}

/// The word at the front.
#[tactic(auto, using(crate::proofs::Visible::front_passes))]
fn word_front(text: &[u8]) -> Front<'_>
    ensures { front_view result ≡ word_front text.now }
{
    let size = inner_len(text);
    Front::Whole(size, word_lexeme(&text[..size]))
}

/// The constant with a size of `before` bytes, and with a base and digits at the front of the rest.
fn quoted_front<'a>(before: usize, size: &[u8], rest: &'a [u8]) -> Front<'a>
    requires { before + length rest.now < LIMIT + 1 }
    ensures { front_view result ≡ quoted_front before size.now rest.now }
{
    let body = constant_len(rest);
    Front::Whole(
        before + 1 + body,
        Lexeme::Plain(constant_of(size, &rest[..body])),
    )
}

/// The number of this run, or the constant of this size where a quote follows.
fn number_front<'a>(run: &[u8], rest: &'a [u8]) -> Front<'a>
    requires { length run.now + length rest.now < LIMIT + 1 }
    ensures { front_view result ≡ number_front (length run.now) run.now rest.now }
{
    match rest {
        [b'\'', body @ ..] => quoted_front(run.len(), run, body),
        _ => Front::Whole(run.len(), Lexeme::Plain(Token::Number(number_of(run)))),
    }
}

fn number_at(text: &[u8]) -> Front<'_>
    requires { length text.now < LIMIT + 1 }
    ensures { front_view result ≡ number_at text.now }
{
    let (run, rest) = text.split_at(number_len(text));
    number_front(run, rest)
}

/// The name behind a backslash, where a blank ends it.
fn escaped_front<'a>(name: &'a [u8], rest: &'a [u8]) -> Front<'a>
    requires short { length name.now < LIMIT + 1 }
    requires visible { IsTrue (list_all is_visible name.now) }
    ensures { front_view result ≡ escaped_front (length name.now) name.now rest.now }
{
    match rest {
        [] => Front::Cut,
        [next, ..] => {
            if is_blank(*next) && 0 < name.len() {
                Front::Whole(name.len() + 1, Lexeme::Named(text_of(name)))
            } else {
                Front::Whole(1, Lexeme::Plain(Token::Broken))
            }
        }
    }
}

#[tactic(auto, using(crate::proofs::Visible::front_passes))]
fn escaped_at(rest: &[u8]) -> Front<'_>
    requires { length rest.now < LIMIT + 1 }
    ensures { front_view result ≡ escaped_at rest.now }
{
    let (name, behind) = rest.split_at(visible_len(rest));
    escaped_front(name, behind)
}

/// A directive behind its backquote.
fn directive_front(rest: &[u8]) -> Front<'_>
    requires { length rest.now < LIMIT + 1 }
    ensures { front_view result ≡ directive_front rest.now }
{
    match rest {
        [first, ..] if is_lead(*first) => Front::Whole(
            inner_len(rest) + 1,
            Lexeme::Plain(Token::Foreign),
        ),
        _ => Front::Whole(1, Lexeme::Plain(Token::Broken)),
    }
}

fn mark_of(byte: u8) -> Token
    ensures { result ≡ mark_of byte }
{
    match byte {
        b'(' => Token::Mark(Mark::Open),
        b')' => Token::Mark(Mark::Close),
        b'[' => Token::Mark(Mark::OpenBracket),
        b']' => Token::Mark(Mark::CloseBracket),
        b'{' => Token::Mark(Mark::OpenBrace),
        b'}' => Token::Mark(Mark::CloseBrace),
        b',' => Token::Mark(Mark::Comma),
        b';' => Token::Mark(Mark::Semicolon),
        b':' => Token::Mark(Mark::Colon),
        b'.' => Token::Mark(Mark::Dot),
        b'=' => Token::Mark(Mark::Equals),
        _ => Token::Broken,
    }
}

/// The token of a text that begins with a byte.
fn front_of<'a>(text: &'a [u8], first: u8, rest: &'a [u8]) -> Front<'a>
    requires whole { text.now ≡ first ∷ rest.now }
    requires short { length text.now < LIMIT + 1 }
    ensures { front_view result ≡ front_of first rest.now }
{
    if is_lead(first) {
        word_front(text)
    } else if b'0' <= first && first <= b'9' {
        number_at(text)
    } else if first == b'\'' {
        quoted_front(0, &[], rest)
    } else if first == b'\\' {
        escaped_at(rest)
    } else if first == b'`' {
        directive_front(rest)
    } else {
        Front::Whole(1, Lexeme::Plain(mark_of(first)))
    }
}

fn placed<'a>(end: usize, gap: usize, front: Front<'a>) -> Piece<'a>
    requires { gap ≤ end }
    ensures gap { result.gap ≤ end }
    ensures piece { piece_view result ≡ placed end gap (front_view front.entry) }
{
    match front {
        Front::Whole(size, lexeme) => Piece { gap, size, lexeme },
        Front::Cut => Piece {
            gap: end,
            size: 0,
            lexeme: Lexeme::Plain(Token::Broken),
        },
    }
}

fn piece_behind<'a>(end: usize, gap: usize, text: &'a [u8]) -> Option<Piece<'a>>
    requires short { length text.now < LIMIT + 1 }
    requires within { gap ≤ end }
    ensures piece { option_map piece_view result ≡ piece_behind end gap text.now }
    ensures gap { IfSome result (λ p. p.gap ≤ end) }
{
    match text {
        [] => None,
        [first, rest @ ..] => Some(placed(end, gap, front_of(text, *first, rest))),
    }
}

/// The first token of a text and the gap before it, none where there is only a gap.
pub fn piece_of<'a>(fresh: bool, text: &'a [u8]) -> Option<Piece<'a>>
    requires { length text.now < LIMIT + 1 }
    ensures piece { option_map piece_view result ≡ piece_of fresh text.now }
    ensures gap { IfSome result (λ p. p.gap ≤ length text.now) }
{
    match gap_len(fresh, text) {
        None => Some(placed(text.len(), 0, Front::Cut)),
        Some(gap) => piece_behind(text.len(), gap, &text[gap..]),
    }
}
