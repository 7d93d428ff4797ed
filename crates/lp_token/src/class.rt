ghost use Rattle.std.specs.Prelude.{◌≡◌, take_while};
ghost use Rattle.lp_token.specs.Tokens.{class_of, is_blank, is_inner, is_quotable};
ghost use Rattle.lp_token.specs.Reading.{drop_while};
ghost use Rattle.lp_token.specs.View.{class_named};

use crate::token::Language;

// The letters of the tables below.
const BLANK: u8 = b'_';

pub const INNER: u8 = b'w';

pub const SINGLE: u8 = b'm';

pub const QUOTE: u8 = b'q';

// For each byte of Liberty a letter: a blank, a part of a word, a mark, the quote, or `-` for none of these.
static LIBERTY: [u8; 256] = *b"\
    wwwwwwwww__w__wwwwwwwwwwwwwwwwww\
    _wqwwwwwmmww-wwwwwwwwwwwwwmmwwww\
    wwwwwwwwwwwwwwwwwwwwwwwwwwwwwwww\
    wwwwwwwwwwwwwwwwwwwwwwwwwwwmwmww\
    --------------------------------\
    --------------------------------\
    --------------------------------\
    --------------------------------";

static VERILOG: [u8; 256] = *b"\
    ---------__-__------------------\
    _-------mm--m-m-wwwwwwwwww-m----\
    -wwwwwwwwwwwwwwwwwwwwwwwwww----w\
    -wwwwwwwwwwwwwwwwwwwwwwwwww-----\
    --------------------------------\
    --------------------------------\
    --------------------------------\
    --------------------------------";

/// The letter of a byte's class.
#[inline]
pub fn class(language: Language, b: u8) -> u8
    ensures { class_named result ≡ class_of language b }
{
    match language {
        Language::Liberty => LIBERTY[b as usize],
        Language::Verilog => VERILOG[b as usize],
    }
}

/// Whether a byte is a blank of the language.
#[inline]
pub fn is_blank(language: Language, b: u8) -> bool
    ensures { result ≡ is_blank language b }
{
    class(language, b) == BLANK
}

/// Whether a byte may stand inside a word of the language.
#[inline]
pub fn is_inner(language: Language, b: u8) -> bool
    ensures { result ≡ is_inner language b }
{
    class(language, b) == INNER
}

#[inline]
fn is_quotable(b: u8) -> bool
    ensures { result ≡ is_quotable b }
{
    b != b'"' && b != b'\\'
}

/// What stands behind the blanks at the front.
pub fn skip_blanks<'a>(language: Language, bytes: &'a [u8]) -> &'a [u8]
    ensures { result.now ≡ drop_while (is_blank language) bytes.now }
{
    for (i, b) in bytes.iter().enumerate() {
        if !is_blank(language, *b) {
            return &bytes[i..];
        }
    }
    &[]
}

/// The bytes up to the end of a word, and the rest.
pub fn split_word<'a>(language: Language, bytes: &'a [u8]) -> (&'a [u8], &'a [u8])
    ensures front { result.0.now ≡ take_while (is_inner language) bytes.now }
    ensures back { result.1.now ≡ drop_while (is_inner language) bytes.now }
{
    for (i, b) in bytes.iter().enumerate() {
        if !is_inner(language, *b) {
            return bytes.split_at(i);
        }
    }
    (bytes, &[])
}

/// The bytes of a string, and what begins with the byte that ends it.
pub fn split_string(bytes: &[u8]) -> (&[u8], &[u8])
    ensures front { result.0.now ≡ take_while is_quotable bytes.now }
    ensures back { result.1.now ≡ drop_while is_quotable bytes.now }
{
    for (i, b) in bytes.iter().enumerate() {
        if !is_quotable(*b) {
            return bytes.split_at(i);
        }
    }
    (bytes, &[])
}
