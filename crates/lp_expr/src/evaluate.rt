ghost use Rattle.std.specs.Prelude.{◌≡◌, ◌≤◌, map, not, length, MatchBool};
ghost use Rattle.lp_expr.specs.Formula.{value_of};
ghost use Rattle.lp_expr.specs.Places.{digit_of, place_of, is_known, is_one, value_at, AllAt, SomeAt};

use crate::expr::Expr;
use lp_tern::Tern;

/// The digits of places that values fix: the first value fixes the least digit.
#[derive(Drop)]
struct Fixed {
    /// 1 at each digit whose value is known.
    mask: usize,
    /// 1 at each digit whose value is 1.
    ones: usize,
}

/// The value of an expression where its variables have these values, in their order: where some are
/// unknown, the value that all their replacements by 0 or 1 agree on, else unknown.
///
/// Takes no memory. Where all values are known, it reads one bit of the table, and else at most the whole
/// table, until two values differ.
pub fn value(e: &Expr, v: &[Tern]) -> Tern
    requires { length v.now ≡ length e.now.variables }
    ensures { result ≡ value_of e.now v.now }
{
    let count = e.count();
    let fixed = fixed_by(v, count);
    let first = e.bit(fixed.ones);
    if !all_agree(e, &fixed, first) {
        return Tern::X;
    }
    if first { Tern::One } else { Tern::Zero }
}

/// The digits that values fix.
fn fixed_by(v: &[Tern], count: usize) -> Fixed
    requires length { length v.now ≡ count }
    requires few { count ≤ 12 }
    ensures mask { result.mask ≡ place_of (map is_known v.now) }
    ensures ones { result.ones ≡ place_of (map is_one v.now) }
{
    let mut mask = 0;
    let mut ones = 0;
    for i in (0..count).rev() {
        mask = mask * 2 + known_digit(v[i]);
        ones = ones * 2 + one_digit(v[i]);
    }
    Fixed { mask, ones }
}

/// 1 where the value is known.
fn known_digit(t: Tern) -> usize
    ensures { result ≡ digit_of (is_known t) }
{
    match t {
        Tern::Zero | Tern::One => 1,
        Tern::X => 0,
    }
}

/// 1 where the value is 1.
fn one_digit(t: Tern) -> usize
    ensures { result ≡ digit_of (is_one t) }
{
    match t {
        Tern::One => 1,
        Tern::Zero | Tern::X => 0,
    }
}

/// Whether the expression has the value `first` at each place with the fixed digits, as it has where
/// all others are 0.
fn all_agree(e: &Expr, fixed: &Fixed, first: bool) -> bool
    requires { value_at e.now fixed.now.ones ≡ first }
    ensures { MatchBool result (AllAt e.now fixed.now.mask fixed.now.ones first) (SomeAt e.now fixed.now.mask fixed.now.ones (not first)) }
{
    let places: usize = 1 << e.count();
    if fixed.mask == places - 1 {
        return true;
    }
    for place in 0..places {
        if place & fixed.mask == fixed.ones && e.bit(place) != first {
            return false;
        }
    }
    true
}
