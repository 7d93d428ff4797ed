ghost use Rattle.std.specs.Prelude.{◌≡◌, ◌<◌, ◌≤◌, ◌*◌, ◌+◌, ◌^◌, None, Some, nat_lt, if◌then◌else◌};
ghost use Rattle.std.specs.List.{list_all, list_any};
ghost use Rattle.lp_verilog_tokens.specs.Lexical.{is_digit, is_between};
ghost use Rattle.lp_verilog_tokens.specs.Constants.{number_behind, number_of, base_of, digit_value, is_unknown, is_base_byte, are_digits, value_behind, is_size, fitted, sized, constant_with, constant_of};

use crate::token::Token;

fn is_digit(byte: u8) -> bool
    ensures { result ≡ is_digit byte }
{
    b'0' <= byte && byte <= b'9'
}

/// The value of digits, where it has at most 32 bits.
pub(crate) fn number_of(run: &[u8]) -> Option<u32>
    ensures { result ≡ number_of run.now }
{
    let mut value: u64 = 0;
    for byte in run {
        if !is_digit(*byte) {
            return None;
        }
        value = value * 10 + u64::from(*byte - b'0');
        if value > 4_294_967_295 {
            return None;
        }
    }
    Some(value as u32)
}

/// The base of a letter, 0 where it has none.
fn base_of(letter: u8) -> u8
    ensures { result ≡ base_of letter }
{
    match letter {
        b'b' | b'B' => 2,
        b'o' | b'O' => 8,
        b'd' | b'D' => 10,
        b'h' | b'H' => 16,
        _ => 0,
    }
}

/// The value of a hexadecimal digit, 16 for any other byte.
fn digit_value(byte: u8) -> u8
    ensures { result ≡ digit_value byte }
{
    if b'0' <= byte && byte <= b'9' {
        byte - b'0'
    } else if b'a' <= byte && byte <= b'f' {
        byte - 87
    } else if b'A' <= byte && byte <= b'F' {
        byte - 55
    } else {
        16
    }
}

fn is_unknown(byte: u8) -> bool
    ensures { result ≡ is_unknown byte }
{
    byte == b'x' || byte == b'z' || byte == b'X' || byte == b'Z'
}

fn is_base_byte(base: u8, byte: u8) -> bool
    ensures { result ≡ is_base_byte base byte }
{
    digit_value(byte) < base || (is_unknown(byte) || byte == b'_')
}

fn all_base_bytes(base: u8, digits: &[u8]) -> bool
    ensures { result ≡ list_all (is_base_byte base) digits.now }
{
    digits.iter().all(|byte| is_base_byte(base, *byte))
}

fn are_digits(base: u8, digits: &[u8]) -> bool
    ensures { result ≡ are_digits base digits.now }
{
    match digits {
        [] => false,
        [first, ..] => *first != b'_' && all_base_bytes(base, digits),
    }
}

fn has_unknown(digits: &[u8]) -> bool
    ensures { result ≡ list_any is_unknown digits.now }
{
    digits.iter().any(|byte| is_unknown(*byte))
}

/// One more digit behind a value, none from 128 bits on.
fn with_digit(base: u8, value: u128, byte: u8) -> Option<u128>
    ensures { result ≡ (if nat_lt (value * base + digit_value byte) (2 ^ 128) then Some (value * base + digit_value byte) else None) }
{
    match value.checked_mul(u128::from(base)) {
        None => None,
        Some(shifted) => shifted.checked_add(u128::from(digit_value(byte))),
    }
}

fn value_of(base: u8, digits: &[u8]) -> Option<u128>
    ensures { result ≡ value_behind base 0 digits.now }
{
    let mut value: u128 = 0;
    for byte in digits {
        if *byte != b'_' {
            match with_digit(base, value, *byte) {
                None => return None,
                Some(next) => value = next,
            }
        }
    }
    Some(value)
}

fn fits(size: u8, value: u128) -> bool
    requires { size ≤ 128 }
    ensures { result ≡ nat_lt value (2 ^ size) }
{
    size == 128 || value < (1u128 << u32::from(size))
}

fn fitted(size: u8, value: Option<u128>) -> Token
    requires { size ≤ 128 }
    ensures { result ≡ fitted size value }
{
    match value {
        Some(value) if fits(size, value) => Token::Constant(size, value),
        _ => Token::Unread,
    }
}

fn is_size(size: Option<u32>) -> bool
    ensures { result ≡ is_size size }
{
    match size {
        None => false,
        Some(size) => 1 <= size && size <= 128,
    }
}

fn sized(base: u8, digits: &[u8], size: u8) -> Token
    requires { size ≤ 128 }
    ensures { result ≡ sized base digits.now (Some size) }
{
    if has_unknown(digits) {
        return Token::Unread;
    }
    fitted(size, value_of(base, digits))
}

fn constant_with(size: &[u8], base: u8, digits: &[u8]) -> Token
    ensures { result ≡ constant_with size.now base digits.now }
{
    match size {
        [] => Token::Unread,
        [first, ..] => match number_of(size) {
            Some(number) if *first != b'0' && is_size(Some(number)) => sized(
                base,
                digits,
                number as u8,
            ),
            _ => Token::Broken,
        },
    }
}

/// The constant with a size before its quote, and with a base and digits behind it.
pub(crate) fn constant_of(size: &[u8], body: &[u8]) -> Token
    ensures { result ≡ constant_of size.now body.now }
{
    match body {
        [] => Token::Broken,
        [letter, digits @ ..] => {
            let base = base_of(*letter);
            if 0 < base && are_digits(base, digits) {
                constant_with(size, base, digits)
            } else {
                Token::Broken
            }
        }
    }
}
