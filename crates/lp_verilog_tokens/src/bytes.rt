ghost use Rattle.std.specs.Prelude.{◌≡◌, ◌≤◌, length};
ghost use Rattle.std.specs.List.{prefix_len};
ghost use Rattle.lp_verilog_tokens.specs.Lexical.{is_blank, is_lead, is_inner, is_number_byte, is_constant_byte, is_visible, is_between};

// For each byte a letter: `!` for a blank, `a` for the first byte of a word, `0` for another byte of a word, and
// `-` for any other.
static LETTERS: [u8; 256] = *b"\
    ---------!!-!!------------------\
    !---0-----------0000000000------\
    -aaaaaaaaaaaaaaaaaaaaaaaaaa----a\
    -aaaaaaaaaaaaaaaaaaaaaaaaaa-----\
    --------------------------------\
    --------------------------------\
    --------------------------------\
    --------------------------------";

/// Space, tab, line feed, form feed and carriage return.
#[inline]
pub(crate) fn is_blank(byte: u8) -> bool
    ensures { result ≡ is_blank byte }
{
    LETTERS[byte as usize] == b'!'
}

/// A letter or `_`.
#[inline]
pub fn is_lead(byte: u8) -> bool
    ensures { result ≡ is_lead byte }
{
    LETTERS[byte as usize] == b'a'
}

/// A letter, a digit, `_` or `$`.
#[inline]
pub fn is_inner(byte: u8) -> bool
    ensures { result ≡ is_inner byte }
{
    LETTERS[byte as usize] >= b'0'
}

fn is_number_byte(byte: u8) -> bool
    ensures { result ≡ is_number_byte byte }
{
    (b'0' <= byte && byte <= b'9') || byte == b'_'
}

fn is_constant_byte(byte: u8) -> bool
    ensures { result ≡ is_constant_byte byte }
{
    (b'a' <= byte && byte <= b'z')
        || (b'A' <= byte && byte <= b'Z')
        || (b'0' <= byte && byte <= b'9')
        || byte == b'_'
        || byte == b'?'
}

/// ASCII that is printed.
pub fn is_visible(byte: u8) -> bool
    ensures { result ≡ is_visible byte }
{
    33 <= byte && byte <= 126
}

/// How many bytes of a word stand at the front.
pub(crate) fn inner_len(text: &[u8]) -> usize
    ensures value { result ≡ prefix_len is_inner text.now }
    ensures within { result ≤ length text.now }
{
    for (at, byte) in text.iter().enumerate() {
        if !is_inner(*byte) {
            return at;
        }
    }
    text.len()
}

/// How many digits and `_` stand at the front.
pub(crate) fn number_len(text: &[u8]) -> usize
    ensures value { result ≡ prefix_len is_number_byte text.now }
    ensures within { result ≤ length text.now }
{
    for (at, byte) in text.iter().enumerate() {
        if !is_number_byte(*byte) {
            return at;
        }
    }
    text.len()
}

/// How many bytes of a base and digits stand at the front.
pub(crate) fn constant_len(text: &[u8]) -> usize
    ensures value { result ≡ prefix_len is_constant_byte text.now }
    ensures within { result ≤ length text.now }
{
    for (at, byte) in text.iter().enumerate() {
        if !is_constant_byte(*byte) {
            return at;
        }
    }
    text.len()
}

/// How many visible bytes stand at the front.
pub(crate) fn visible_len(text: &[u8]) -> usize
    ensures value { result ≡ prefix_len is_visible text.now }
    ensures within { result ≤ length text.now }
{
    for (at, byte) in text.iter().enumerate() {
        if !is_visible(*byte) {
            return at;
        }
    }
    text.len()
}
