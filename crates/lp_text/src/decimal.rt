ghost use Rattle.std.specs.Prelude.{◌≡◌, ◌<◌, ◌≤◌, ◌^◌, ◌==◌, IfSome, IsTrue, min};
ghost use Rattle.std.specs.Char.{is_ascii_digit};
ghost use Rattle.std.specs.List.{list_all, position};
ghost use Rattle.lp_text.specs.Micros.{is_digits, decimal, six, micros_between, micros_of};

/// The most millionths that a number may have: a million whole units.
const MOST: u64 = 1_000_000_000_000;

/// Where the count of whole units stops: one above the most.
const WHOLE_STOP: u64 = 1_000_001;

/// The number of a text, in millionths: digits, or digits, a point and digits.
///
/// Digits after the sixth decimal are dropped, so volts give microvolts.
/// None for another form, and above 1,000,000,000,000 millionths.
pub fn micros(text: &str) -> Option<u64>
    ensures value { result ≡ micros_of text.now }
    ensures most { IfSome result (λ v. v ≤ 10 ^ 12) }
{
    micros_bytes(text.as_bytes())
}

/// [`micros`] of the bytes of a text.
pub fn micros_bytes(bytes: &[u8]) -> Option<u64>
    ensures value { result ≡ micros_of bytes.now }
    ensures most { IfSome result (λ v. v ≤ 10 ^ 12) }
{
    match point(bytes) {
        None => join(bytes, b"0"),
        Some(at) => join(&bytes[..at], &bytes[at + 1..]),
    }
}

/// The millionths of the digits before and after a point.
fn join(whole: &[u8], decimals: &[u8]) -> Option<u64>
    ensures value { result ≡ micros_between whole.now decimals.now }
    ensures most { IfSome result (λ v. v ≤ 10 ^ 12) }
{
    if !are_digits(whole) || !are_digits(decimals) {
        return None;
    }
    let micros = whole_units(whole) * 1_000_000 + millionths(decimals);
    if micros <= MOST { Some(micros) } else { None }
}

fn are_digits(bytes: &[u8]) -> bool
    ensures { result ≡ is_digits bytes.now }
{
    !bytes.is_empty() && hold_digits(bytes)
}

fn hold_digits(bytes: &[u8]) -> bool
    ensures { result ≡ list_all is_ascii_digit bytes.now }
{
    bytes.iter().all(|b| b.is_ascii_digit())
}

/// Where the first point is.
fn point(bytes: &[u8]) -> Option<usize>
    ensures { result ≡ position (λ c. c == 46) bytes.now }
{
    bytes.iter().position(|b| *b == b'.')
}

/// The number of the digits, or `WHOLE_STOP` where it is above that.
fn whole_units(digits: &[u8]) -> u64
    requires { IsTrue (is_digits digits.now) }
    ensures { result ≡ min (decimal digits.now) WHOLE_STOP }
{
    let mut units = 0;
    for digit in digits {
        units = (units * 10 + u64::from(*digit - b'0')).min(WHOLE_STOP);
    }
    units
}

/// The number of the first six decimals, where missing ones are zeros.
fn millionths(decimals: &[u8]) -> u64
    requires { IsTrue (is_digits decimals.now) }
    ensures value { result ≡ decimal (six decimals.now) }
    ensures most { result < 1000000 }
{
    let mut millionths = 0;
    for place in 0..6 {
        let digit = decimals.get(place).copied().unwrap_or(b'0');
        millionths = millionths * 10 + u64::from(digit - b'0');
    }
    millionths
}
