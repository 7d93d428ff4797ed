ghost use Rattle.std.specs.Prelude.{◌≡◌, ◌∷◌, [], ◌≤◌, ◌<◌, ◌-◌, ◌^◌, length, slice_get, IfSome};
ghost use Rattle.std.specs.List.{list_any};
ghost use Rattle.lp_model.specs.Bits.{between, select, digit, constant_bits, run_bits, is_constant};

use crate::bits::Bit;
use lp_text::NameId;

/// Bits that stand one behind another in a text (IEEE 1364-2005, bit-selects and part-selects, sized constants).
#[derive(Clone, Copy)]
pub enum Run {
    /// One bit.
    One(Bit),
    /// The bits of a vector from one index to another, both included, up or down.
    Part(NameId, u32, u32),
    /// The lowest binary digits of a number, the most significant first: the number, and how many of at most 32.
    Digits(u32, u32),
}

/// How many indices there are from one to another.
fn count_between(first: u32, last: u32) -> u64
    ensures count { result ≡ length (between first last) }
    ensures most { result ≤ 2 ^ 32 }
{
    u64::from(first.max(last) - first.min(last)) + 1
}

/// The index that comes so many steps behind the first one, on the way to the last one.
fn index_at(first: u32, last: u32, steps: u64) -> u32
    requires { steps < length (between first last) }
    ensures { slice_get (between first last) steps ≡ Some result }
{
    if first <= last {
        first + steps as u32
    } else {
        first - steps as u32
    }
}

/// Whether a binary digit of a number is 1.
fn is_one(number: u32, place: u32) -> bool
    ensures { result ≡ digit number place }
{
    place < 128 && (u128::from(number) >> place) % 2 == 1
}

/// A bit of a part of a vector.
fn part_bit(name: NameId, first: u32, last: u32, at: u64) -> Bit
    requires { at < length (select name first last) }
    ensures { slice_get (select name first last) at ≡ Some result }
{
    Bit::Select(name, index_at(first, last, at))
}

/// A bit of the lowest binary digits of a number.
fn digit_bit(number: u32, count: u32, at: u64) -> Bit
    requires { at < length (constant_bits count number) }
    ensures { slice_get (constant_bits count number) at ≡ Some result }
{
    Bit::Const(is_one(number, count - 1 - at as u32))
}

impl Run {
    /// How many bits it has, at most 4,294,967,296. Takes constant time.
    pub fn width(self) -> u64
        ensures width { result ≡ length (run_bits self) }
        ensures most { result ≤ 2 ^ 32 }
    {
        match self {
            Run::One(_) => 1,
            Run::Part(_, first, last) => count_between(first, last),
            Run::Digits(_, count) => u64::from(count),
        }
    }

    /// One of its bits; the most significant one is number 0. Takes constant time.
    pub fn bit(self, at: u64) -> Bit
        requires { at < length (run_bits self) }
        ensures { slice_get (run_bits self) at ≡ Some result }
    {
        match self {
            Run::One(bit) => bit,
            Run::Part(name, first, last) => part_bit(name, first, last, at),
            Run::Digits(number, count) => digit_bit(number, count, at),
        }
    }

    /// Its bit, where it has no other one.
    pub(crate) fn only_bit(self) -> Option<Bit>
        ensures { IfSome result (λ bit. run_bits self ≡ bit ∷ []) }
    {
        if self.width() == 1 {
            Some(self.bit(0))
        } else {
            None
        }
    }

    /// Whether one of its bits is a constant. Takes constant time.
    pub fn has_constant(self) -> bool
        ensures { result ≡ list_any is_constant (run_bits self) }
    {
        match self {
            Run::One(bit) => matches!(bit, Bit::Const(_)),
            Run::Part(_, _, _) => false,
            Run::Digits(_, count) => count > 0,
        }
    }
}
