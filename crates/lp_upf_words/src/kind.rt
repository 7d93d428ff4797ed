ghost use Rattle.std.specs.Prelude.{◌≡◌};
ghost use Rattle.lp_upf_words.specs.Bytes.{in_list, is_blank, kind_of};
ghost use Rattle.lp_upf_words.specs.Elements.{kind_in};

/// What a byte is, as far as words go by it (IEEE 1801-2015, Tcl syntax).
#[derive(Clone, Copy)]
pub(crate) enum Kind {
    /// A space, a tab, a form feed or a carriage return.
    Blank,
    /// A line feed in a text.
    LineEnd,
    /// A line feed in a list.
    Feed,
    /// `;`
    Semicolon,
    /// `#`
    Hash,
    /// `\`
    Backslash,
    /// `{`
    OpenBrace,
    /// `}`
    CloseBrace,
    /// `"`
    Quote,
    /// `$`
    Dollar,
    /// `[`
    OpenBracket,
    /// `]`
    CloseBracket,
    /// `0` to `9`
    Digit,
    /// Any other byte.
    Other,
}

fn is_blank(byte: u8) -> bool
    ensures { result ≡ is_blank byte }
{
    byte == b' ' || byte == b'\t' || byte == 12 || byte == b'\r'
}

/// The kind of a byte of a text.
fn kind_of(byte: u8) -> Kind
    ensures { result ≡ kind_of byte }
{
    if is_blank(byte) {
        Kind::Blank
    } else if byte == b'\n' {
        Kind::LineEnd
    } else if byte == b';' {
        Kind::Semicolon
    } else if byte == b'#' {
        Kind::Hash
    } else if byte == b'\\' {
        Kind::Backslash
    } else if byte == b'{' {
        Kind::OpenBrace
    } else if byte == b'}' {
        Kind::CloseBrace
    } else if byte == b'"' {
        Kind::Quote
    } else if byte == b'$' {
        Kind::Dollar
    } else if byte == b'[' {
        Kind::OpenBracket
    } else if byte == b']' {
        Kind::CloseBracket
    } else if 48 <= byte && byte <= 57 {
        Kind::Digit
    } else {
        Kind::Other
    }
}

/// What a byte of this kind is in a list.
fn in_list(kind: Kind) -> Kind
    ensures { result ≡ in_list kind }
{
    match kind {
        Kind::LineEnd => Kind::Feed,
        Kind::Semicolon | Kind::Hash | Kind::Dollar | Kind::OpenBracket | Kind::CloseBracket =>
            Kind::Other,
        _ => kind,
    }
}

/// The kind of a byte of a text, or else of the content of a list.
pub(crate) fn kind_in(list: bool, byte: u8) -> Kind
    ensures { result ≡ kind_in list byte }
{
    if list {
        in_list(kind_of(byte))
    } else {
        kind_of(byte)
    }
}
