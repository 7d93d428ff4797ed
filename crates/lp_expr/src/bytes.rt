ghost use Rattle.std.specs.Prelude.{◌≡◌};
ghost use Rattle.lp_expr.specs.Grammar.{is_blank, is_inner, is_prefix, is_liberty, looseness};
ghost use Rattle.lp_expr.specs.Signs.{is_half, longer, sign_at};

use crate::dialect::{Dialect, Sign};

/// Space, tab, line feed, form feed and carriage return.
#[tactic(auto, unfolding(crate::specs::Grammar::is_blank))]
pub(crate) fn is_blank(byte: u8) -> bool
    ensures { result ≡ is_blank byte }
{
    byte == b' ' || byte == b'\t' || byte == b'\n' || byte == 12 || byte == b'\r'
}

/// A byte of a name: letters, digits, `_`, `[` and `]`.
#[tactic(auto, unfolding(crate::specs::Grammar::is_inner))]
pub(crate) fn is_inner(byte: u8) -> bool
    ensures { result ≡ is_inner byte }
{
    (b'a' <= byte && byte <= b'z')
        || (b'A' <= byte && byte <= b'Z')
        || (b'0' <= byte && byte <= b'9')
        || byte == b'_'
        || byte == b'['
        || byte == b']'
}

/// A complement before an operand.
pub(crate) fn is_prefix(dialect: Dialect, byte: u8) -> bool
    ensures { result ≡ is_prefix dialect byte }
{
    match dialect {
        Dialect::Liberty => byte == b'!',
        Dialect::Control => byte == b'!' || byte == b'~',
    }
}

/// The sign that begins with a byte, the shorter where there are two.
pub(crate) fn sign_at(dialect: Dialect, byte: u8) -> Option<Sign>
    ensures { result ≡ sign_at dialect byte }
{
    match dialect {
        Dialect::Liberty => match byte {
            b'^' => Some(Sign::Caret),
            b'*' => Some(Sign::Star),
            b'&' => Some(Sign::Ampersand),
            b'+' => Some(Sign::Plus),
            b'|' => Some(Sign::Bar),
            _ => None,
        },
        Dialect::Control => match byte {
            b'&' => Some(Sign::Ampersand),
            b'|' => Some(Sign::Bar),
            _ => None,
        },
    }
}

impl Dialect {
    /// Whether `'`, names in quotes and blanks that mean "and" are taken.
    pub(crate) fn is_liberty(self) -> bool
        ensures { result ≡ is_liberty self }
    {
        match self {
            Dialect::Liberty => true,
            Dialect::Control => false,
        }
    }

    /// How loosely a sign binds, 0 where the language lacks it.
    pub(crate) fn looseness(self, sign: Sign) -> u8
        ensures { result ≡ looseness self sign }
    {
        match (self, sign) {
            (Dialect::Liberty, Sign::Caret) => 2,
            (Dialect::Liberty, Sign::Star | Sign::Ampersand | Sign::Gap) => 3,
            (Dialect::Liberty, Sign::Plus | Sign::Bar) => 4,
            (Dialect::Control, Sign::Ampersand) => 2,
            (Dialect::Control, Sign::Bar) => 3,
            (Dialect::Control, Sign::TwoAmpersands) => 4,
            (Dialect::Control, Sign::TwoBars) => 5,
            _ => 0,
        }
    }

    /// Whether a longer sign begins with this one.
    pub(crate) fn is_half(self, sign: Sign) -> bool
        ensures { result ≡ is_half self sign }
    {
        match (self, sign) {
            (Dialect::Control, Sign::Ampersand | Sign::Bar) => true,
            _ => false,
        }
    }

    /// The longer sign that a byte right behind a sign makes of it.
    pub(crate) fn longer(self, sign: Sign, byte: u8) -> Option<Sign>
        ensures { result ≡ longer self sign byte }
    {
        match (self, sign, byte) {
            (Dialect::Control, Sign::Ampersand, b'&') => Some(Sign::TwoAmpersands),
            (Dialect::Control, Sign::Bar, b'|') => Some(Sign::TwoBars),
            _ => None,
        }
    }
}
